//! The walks of a freeze.

ghost use Rattle.std.specs.Prelude.{◌≡◌, ◌≤◌, length, slice_get};
ghost use Rattle.hp_event.specs.declared.op.Op.TheVariants as op;
ghost use Rattle.hp_model.specs.Lists.{among};
ghost use Rattle.hp_model.specs.Sequence.{first_of, primary_of};
ghost use Rattle.hp_suspend.specs.Asked.{meaning};
ghost use Rattle.hp_suspend.specs.Freezing.{FreezeEnters, FreezeTook};
ghost use Rattle.hp_suspend.specs.ByLists.{next_of_freeze, freeze_after, all_online, online_but};
ghost use Rattle.hp_suspend.specs.ByJournal.{IsNextOfFreeze};

use crate::asked::{Asked, WalkAsk};
use hp_event::Answer;
use hp_states::{EBUSY, MAX_CPUS, OFFLINE};

/// A freeze on its way over the processors: the one that it leaves online, and the answer that
/// ended it early, if one did.
///
/// It is plain data and takes no memory. After `freeze_secondary_cpus` of `kernel/cpu.c`.
#[derive(Clone, Copy)]
pub struct Freeze {
    primary: u32,
    ended: Option<Answer>,
}

impl Freeze {
    /// The freeze that has just entered, with no walk behind it. It leaves processor `primary`
    /// online where that is online, and else the lowest one that is.
    ///
    /// `online` says of each possible processor whether it is online, which some processor is: of a
    /// list without one, processor 0 would be left. Any number may be asked for. Takes no memory,
    /// and a time linear in the list. After `freeze_secondary_cpus` of `kernel/cpu.c`.
    pub fn begin(primary: i32, online: &[bool]) -> Freeze
        requires { length online.now ≤ MAX_CPUS }
        ensures { FreezeEnters primary online.now result }
    {
        Freeze {
            primary: left_online(primary, online),
            ended: None,
        }
    }

    /// What comes next: a walk, or the end of the freeze with its answer.
    ///
    /// `online` says of each possible processor whether it is online now, and `wakeup` whether a
    /// wakeup is pending. Of any such list the answers are:
    /// - `Ended` with the answer of a walk that wasn't Ok;
    /// - `Ended(Ok(0))` where no processor is online but the one that is left so;
    /// - `Ended(Refused(16))` where one is, and a wakeup is pending;
    /// - `Walk` of the lowest of them, to OFFLINE.
    ///
    /// While the freeze is in flight in a lawful journal and nothing walks, it is what the journal
    /// says. Takes no memory, and a time linear in the list. After `freeze_secondary_cpus` of
    /// `kernel/cpu.c`.
    pub fn next(&self, online: &[bool], wakeup: bool) -> Asked
        requires { length online.now ≤ MAX_CPUS }
        ensures by_lists { meaning result ≡ next_of_freeze self.now online.now wakeup }
        ensures by_journal { IsNextOfFreeze self.now online.now wakeup (meaning result) }
    {
        if let Some(answer) = self.ended {
            return Asked::Ended(answer);
        }
        match lowest_but(self.primary, online) {
            None => Asked::Ended(Answer::Ok(0)),
            Some(_) if wakeup => Asked::Ended(Answer::Refused(EBUSY)),
            Some(cpu) => Asked::Walk(WalkAsk { cpu, to: OFFLINE }),
        }
    }

    /// Goes on past the walk that `next` asked for: `answer` is that walk's.
    ///
    /// The first answer that isn't Ok ends the freeze, and what comes after it changes nothing.
    /// Takes no memory. After `freeze_secondary_cpus` of `kernel/cpu.c`.
    pub fn took(&mut self, answer: Answer)
        ensures freezing { FreezeTook self.old answer self.new }
        ensures kept { self.new ≡ freeze_after self.old answer }
    {
        if self.ended.is_none() && !answer.is_ok() {
            self.ended = Some(answer);
        }
    }
}

/// The processor that a freeze leaves online.
fn left_online(primary: i32, online: &[bool]) -> u32
    requires { length online.now ≤ MAX_CPUS }
    ensures { result ≡ primary_of primary (all_online online.now) }
{
    if primary >= 0 && is_online(online, primary as u32) {
        primary as u32
    } else {
        lowest(online)
    }
}

/// Whether a processor is possible and online.
fn is_online(online: &[bool], cpu: u32) -> bool
    ensures { result ≡ among cpu (all_online online.now) }
{
    (cpu as usize) < online.len() && online[cpu as usize]
}

/// The lowest processor that is online, or 0 where none is.
fn lowest(online: &[bool]) -> u32
    requires { length online.now ≤ MAX_CPUS }
    ensures { result ≡ first_of (all_online online.now) }
{
    for cpu in 0..online.len() as u32 {
        if online[cpu as usize] {
            return cpu;
        }
    }
    0
}

/// The lowest processor that is online, but for one.
fn lowest_but(primary: u32, online: &[bool]) -> Option<u32>
    requires { length online.now ≤ MAX_CPUS }
    ensures { result ≡ slice_get (online_but primary online.now) 0 }
{
    for cpu in 0..online.len() as u32 {
        if online[cpu as usize] && cpu != primary {
            return Some(cpu);
        }
    }
    None
}
