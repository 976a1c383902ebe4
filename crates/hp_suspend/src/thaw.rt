//! The walks of a thaw.

ghost use Rattle.std.specs.Prelude.{◌≡◌, ◌<◌, ◌≤◌, length, slice_get};
ghost use Rattle.hp_event.specs.declared.op.Op.TheVariants as op;
ghost use Rattle.hp_suspend.specs.Asked.{meaning};
ghost use Rattle.hp_suspend.specs.Thawing.{ThawEnters, ThawTook};
ghost use Rattle.hp_suspend.specs.ByLists.{next_of_thaw, thaw_after, frozen_below};
ghost use Rattle.hp_suspend.specs.ByJournal.{IsNextOfThaw};

use crate::asked::{Asked, WalkAsk};
use hp_event::Answer;
use hp_states::{MAX_CPUS, MAX_EVENTS, ONLINE};

/// A thaw on its way over the processors of the record: how many walks failed.
///
/// It is plain data and takes no memory. After `thaw_secondary_cpus` of `kernel/cpu.c`.
#[derive(Clone, Copy)]
pub struct Thaw {
    failed: u32,
}

impl Thaw {
    /// The thaw that has just entered, with no walk behind it.
    ///
    /// Takes no memory. After `thaw_secondary_cpus` of `kernel/cpu.c`.
    pub fn begin() -> Thaw
        ensures thawing { ThawEnters result }
        ensures none_failed { result.failed ≡ 0 }
    {
        Thaw { failed: 0 }
    }

    /// What comes next: a walk, or the end of the thaw with its answer.
    ///
    /// `frozen` says of each possible processor whether it is in the record of the last freeze, and
    /// `settled` where it stands now. No more walks failed than a journal has room for. Of any such
    /// lists the answers are:
    /// - `Walk` to ONLINE of the lowest processor of the record that is below ONLINE, past as many
    ///   of these as walks failed;
    /// - `Ended(Ok)` with the number of walks that failed, where there is none.
    ///
    /// While the thaw is in flight in a lawful journal and nothing walks, it is what the journal
    /// says: those that are passed over were walked already. Takes no memory, and a time linear in
    /// the lists. After `thaw_secondary_cpus` of `kernel/cpu.c`; that it answers how many walks
    /// failed is this project's own.
    pub fn next(&self, frozen: &[bool], settled: &[u32]) -> Asked
        requires few { length frozen.now ≤ MAX_CPUS }
        requires as_long { length settled.now ≡ length frozen.now }
        requires failed { self.now.failed ≤ MAX_EVENTS }
        ensures by_lists { meaning result ≡ next_of_thaw self.now frozen.now settled.now }
        ensures by_journal { IsNextOfThaw self.now frozen.now settled.now (meaning result) }
    {
        match first_left(self.failed, frozen, settled) {
            None => Asked::Ended(Answer::Ok(self.failed as i32)),
            Some(cpu) => Asked::Walk(WalkAsk { cpu, to: ONLINE }),
        }
    }

    /// Goes on past the walk that `next` asked for: `answer` is that walk's.
    ///
    /// Fewer walks failed than a journal has room for, as is so of any journal. Takes no memory.
    /// After `thaw_secondary_cpus` of `kernel/cpu.c`; that it counts the failures is this project's
    /// own.
    pub fn took(&mut self, answer: Answer)
        requires { self.old.failed < MAX_EVENTS }
        ensures thawing { ThawTook self.old answer self.new }
        ensures counted { self.new ≡ thaw_after self.old answer }
    {
        if !answer.is_ok() {
            self.failed += 1;
        }
    }
}

/// Of the frozen processors that aren't up, the one that has so many below it.
fn first_left(below: u32, frozen: &[bool], settled: &[u32]) -> Option<u32>
    requires few { length frozen.now ≤ MAX_CPUS }
    requires as_long { length settled.now ≡ length frozen.now }
    ensures { result ≡ slice_get (frozen_below frozen.now settled.now) below }
{
    let mut passed = 0;
    for cpu in 0..frozen.len() as u32 {
        if frozen[cpu as usize] && settled[cpu as usize] < ONLINE {
            if passed == below {
                return Some(cpu);
            }
            passed += 1;
        }
    }
    None
}
