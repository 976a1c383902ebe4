//! The walks of a boot.

ghost use Rattle.std.specs.Prelude.{◌≡◌, ◌<◌, ◌≤◌, length, slice_get};
ghost use Rattle.hp_event.specs.declared.op.Op.TheVariants as op;
ghost use Rattle.hp_suspend.specs.Asked.{meaning};
ghost use Rattle.hp_suspend.specs.Booting.{BootEnters, BootTook};
ghost use Rattle.hp_suspend.specs.ByLists.{next_of_boot, boot_after, online_count, present_offline};
ghost use Rattle.hp_suspend.specs.ByJournal.{IsNextOfBoot};

use crate::asked::{Asked, WalkAsk};
use crate::judged::is_fault;
use hp_event::Answer;
use hp_states::{MAX_CPUS, MAX_EVENTS, ONLINE};

/// A boot on its way over the present processors: how many are to be online, how many walks failed,
/// and how many of those left their processor offline, where it was before.
///
/// It is plain data and takes no memory. After `bringup_nonboot_cpus` of `kernel/cpu.c`.
#[derive(Clone, Copy)]
pub struct Boot {
    max: u32,
    failed: u32,
    turned_back: u32,
}

impl Boot {
    /// The boot that has just entered, with no walk behind it: `max` processors are to be online.
    ///
    /// Takes no memory. After `bringup_nonboot_cpus` of `kernel/cpu.c`.
    pub fn begin(max: u32) -> Boot
        ensures booting { BootEnters max result }
        ensures none_failed { (result.failed ≡ 0) × (result.turned_back ≡ 0) }
    {
        Boot {
            max,
            failed: 0,
            turned_back: 0,
        }
    }

    /// What comes next: a walk, or the end of the boot with its answer.
    ///
    /// `present` says of each possible processor whether it is present, and `online` whether it is
    /// online now. No more walks failed than a journal has room for. Of any such lists the answers
    /// are:
    /// - `Ended(Ok)` with the number of walks that failed, where `max` processors are online;
    /// - `Walk` to ONLINE of the lowest present processor that is offline, past as many of these as
    ///   walks turned back;
    /// - `Ended(Ok)` with that number, where there is none.
    ///
    /// While the boot is in flight in a lawful journal and nothing walks, it is what the journal
    /// says: those that are passed over were walked already. Takes no memory, and a time linear in
    /// the lists. After `bringup_nonboot_cpus` of `kernel/cpu.c`; that it answers how many walks
    /// failed is this project's own.
    pub fn next(&self, present: &[bool], online: &[bool]) -> Asked
        requires few { length present.now ≤ MAX_CPUS }
        requires as_long { length online.now ≡ length present.now }
        requires failed { self.now.failed ≤ MAX_EVENTS }
        ensures by_lists { meaning result ≡ next_of_boot self.now present.now online.now }
        ensures by_journal { IsNextOfBoot self.now present.now online.now (meaning result) }
    {
        let ended = Asked::Ended(Answer::Ok(self.failed as i32));
        if self.max <= count(online) {
            return ended;
        }
        match first_left(self.turned_back, present, online) {
            None => ended,
            Some(cpu) => Asked::Walk(WalkAsk { cpu, to: ONLINE }),
        }
    }

    /// Goes on past the walk that `next` asked for: `answer` is that walk's.
    ///
    /// Fewer walks failed than a journal has room for, as is so of any journal. Takes no memory.
    /// After `bringup_nonboot_cpus` of `kernel/cpu.c`; that it counts the failures is this
    /// project's own.
    pub fn took(&mut self, answer: Answer)
        requires failed { self.old.failed < MAX_EVENTS }
        requires turned_back { self.old.turned_back < MAX_EVENTS }
        ensures booting { BootTook self.old answer self.new }
        ensures counted { self.new ≡ boot_after self.old answer }
    {
        if !answer.is_ok() {
            self.failed += 1;
        }
        if is_fault(answer) {
            self.turned_back += 1;
        }
    }
}

/// How many processors are online.
fn count(online: &[bool]) -> u32
    requires { length online.now ≤ MAX_CPUS }
    ensures { result ≡ online_count online.now }
{
    online.iter().filter(|on| **on).count() as u32
}

/// Of the present processors that are offline, the one that has so many below it.
fn first_left(below: u32, present: &[bool], online: &[bool]) -> Option<u32>
    requires few { length present.now ≤ MAX_CPUS }
    requires as_long { length online.now ≡ length present.now }
    ensures { result ≡ slice_get (present_offline present.now online.now) below }
{
    let mut passed = 0;
    for cpu in 0..present.len() as u32 {
        if present[cpu as usize] && !online[cpu as usize] {
            if passed == below {
                return Some(cpu);
            }
            passed += 1;
        }
    }
    None
}
