//! What a head has to be for a machine, and what its operations may speak of.

ghost use Rattle.std.specs.Prelude.{◌≡◌, ◌+◌, ◌<◌, ◌↔◌, None, All, IfSome, IsTrue};
ghost use Rattle.std.specs.List.Sorted.{IsStrictlyIncreasing};
ghost use Rattle.hp_machine.specs.Heads.{AreAbsent, IsFaultless, IsFirstFault};
ghost use Rattle.hp_model.specs.Subsystems.{names_sub};

use hp_event::{Head, Op};
use hp_states::{MAX_CPUS, MAX_SUBS};

/// What keeps a machine from starting with a head, but the names and rules of its subsystems.
#[derive(Clone, Copy, Debug, PartialEq, Eq)]
pub enum HeadFault {
    /// No processor is possible.
    NoProcessor,
    /// More than `MAX_CPUS` are possible.
    TooManyCpus,
    /// The absent ones don't strictly rise, or one isn't possible.
    BadAbsent,
    /// The first is absent, which a machine boots on.
    NoBoot,
    /// There are more than `MAX_SUBS` subsystems.
    TooManySubs,
}

/// The first of these that is at fault in a head, if one is.
///
/// There is no condition. Takes no memory, and time for the absent processors. That processor 0 is there is
/// after `boot_cpu_init` of `kernel/cpu.c`; the limits are this project's own.
pub fn head_fault(head: &Head) -> Option<HeadFault>
    ensures none { (result ≡ None) ↔ IsFaultless head.now }
    ensures first { IfSome result (IsFirstFault head.now) }
{
    if head.possible == 0 {
        return Some(HeadFault::NoProcessor);
    }
    if head.possible > MAX_CPUS {
        return Some(HeadFault::TooManyCpus);
    }
    if !are_absent(head) {
        return Some(HeadFault::BadAbsent);
    }
    if !head.is_present(0) {
        return Some(HeadFault::NoBoot);
    }
    if head.subs.as_slice().len() > MAX_SUBS as usize {
        return Some(HeadFault::TooManySubs);
    }
    None
}

/// Whether the absent processors of a head strictly rise, and are possible ones. Takes no memory.
fn are_absent(head: &Head) -> bool
    ensures { IsTrue result ↔ AreAbsent head.now }
{
    let absent = head.absent.as_slice();
    is_rising(absent) && are_below(absent, head.possible)
}

/// Whether an operation speaks of subsystems of a head alone, and an upmany of a processor.
///
/// There is no condition. Takes no memory. This project's own.
pub fn names_sub(head: &Head, op: &Op) -> bool
    ensures { result ≡ names_sub head.now op.now }
{
    match *op {
        Op::Setup { sub, .. } => head.sub(sub).is_some(),
        Op::UpMany(ref set) => !set.is_empty(),
        _ => true,
    }
}

/// Whether some numbers strictly rise.
fn is_rising(numbers: &[u32]) -> bool
    ensures { IsTrue result ↔ IsStrictlyIncreasing numbers.now }
{
    for at in 1..numbers.len() {
        if numbers[at - 1] >= numbers[at] {
            return false;
        }
    }
    true
}

/// Whether some numbers are all below another.
fn are_below(numbers: &[u32], end: u32) -> bool
    ensures { IsTrue result ↔ All (λ n. n < end) numbers.now }
{
    numbers.iter().all(|number| *number < end)
}
