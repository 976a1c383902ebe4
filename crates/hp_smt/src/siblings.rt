//! Which processors are siblings, and which operations bring one up.

ghost use Rattle.std.specs.Prelude.{◌≡◌, ◌<◌};
ghost use Rattle.hp_smt.specs.Siblings.{is_sibling as is_sibling_of, sibling_in as sibling_in_of, is_up_of_sibling as is_up_of_sibling_of};

use hp_event::Op;
use hp_states::{AP_ONLINE, CpuSet};

/// Whether a processor is a sibling: not the first of the threads of its core, which is the primary.
///
/// A core has at least one thread, and any number may be asked for. Takes no memory. After
/// `topology_is_primary_thread` of `kernel/cpu.c`; that the numbers say it is this project's own.
pub fn is_sibling(threads: u32, cpu: u32) -> bool
    requires { 0 < threads }
    ensures { result ≡ is_sibling_of threads cpu }
{
    cpu % threads != 0
}

/// The lowest sibling of a set, if it has one.
///
/// A core has at least one thread. Takes no memory, and a step for each primary of the set below it.
pub(crate) fn sibling_in(threads: u32, set: &CpuSet) -> Option<u32>
    requires { 0 < threads }
    ensures { result ≡ sibling_in_of threads set.now }
{
    let mut from = 0;
    while let Some(cpu) = set.first_from(from) {
        if is_sibling(threads, cpu) {
            return Some(cpu);
        }
        from = cpu + 1;
    }
    None
}

/// Whether an operation asks for a sibling to be brought up, or may come to bring one up, as every boot may: an `up` of
/// one, a target of one at a state at which it is online, or an upmany that lists one. Whether a processor is there at
/// all makes no difference.
///
/// A core has at least one thread. Takes no memory.
pub fn is_up_of_sibling(threads: u32, op: &Op) -> bool
    requires { 0 < threads }
    ensures { result ≡ is_up_of_sibling_of threads op.now }
{
    match *op {
        Op::Up(cpu) => is_sibling(threads, cpu),
        Op::Target(cpu, to) => is_sibling(threads, cpu) && to > AP_ONLINE as i32,
        Op::UpMany(ref set) => sibling_in(threads, set).is_some(),
        Op::Boot(_) => true,
        _ => false,
    }
}
