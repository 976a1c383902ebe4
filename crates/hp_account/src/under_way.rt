//! What is under way: the entry or the end that comes next in flight.

ghost use Rattle.std.specs.Prelude.{◌≡◌, IfSome, IfNone, IsSome};
ghost use Rattle.hp_table.specs.Step.{step_at};
ghost use Rattle.hp_model.specs.Events.{seat_of};
ghost use Rattle.hp_model.specs.Lawful.{IsLawful};
ghost use Rattle.hp_account.specs.Account.{IsAccount, IsLoneWalker, NoLoneWalker};
ghost use Rattle.hp_account.specs.NextStep.{due_beyond, thread_due_beyond, end_event, has_callback_by, waits_by, IsMadeByInWalk};
ghost use Rattle.hp_account.specs.Entries.{how_by, entry_made};
ghost use Rattle.hp_account.specs.Table.{IsTableOf};
ghost use Rattle.hp_account.specs.UnderWay.{IsUnderWay, hook_by};

use crate::account::Account;
use hp_event::{Answer, Event, How, Journal, Key};
use hp_hook::Hook;
use hp_states::{Dir, Place, may_fail};
use hp_table::Table;

/// What an entry is made by, where that is known before its hook is asked.
#[derive(Clone, Copy)]
pub enum MadeBy {
    /// Nothing: the form of the registration is without calls.
    Presumed,
    /// Nothing: the subsystem has no callback of that direction.
    Empty,
    /// An armed fault, which is taken in place of the callback.
    Injected,
    /// The hook of the state, whose answer decides.
    Hook,
}

/// An entry that comes next, and by whom it is to be made.
///
/// Plain data, which takes no memory. After `cpuhp_invoke_callback` of `kernel/cpu.c`; that an entry
/// is known before it is made is this project's own.
#[derive(Clone, Copy)]
pub struct Entry {
    /// The seat that makes it: the thread of the processor, or the client whose operation it is.
    pub seat: u32,
    /// The processor.
    pub cpu: u32,
    /// The state and the instance.
    pub key: Key,
    /// The direction.
    pub dir: Dir,
    /// What the entry is made for.
    pub place: Place,
    /// What it is made by.
    pub made_by: MadeBy,
}

impl MadeBy {
    /// The state whose hook makes it, which is this one, if a hook does.
    pub fn hook_at(&self, state: u32) -> Option<u32>
        ensures { result ≡ hook_by state self.now }
    {
        match self {
            MadeBy::Hook => Some(state),
            _ => None,
        }
    }
}

impl Entry {
    /// How the entry is made: where a hook is asked, by its answer, `code`; otherwise the code
    /// doesn't matter. Takes no memory. After `cpuhp_invoke_callback` of `kernel/cpu.c`; which faults
    /// are overruled is this project's own.
    pub fn how(&self, code: u32) -> How
        ensures { result ≡ how_by self.now code }
    {
        match self.made_by {
            MadeBy::Presumed => How::Presumed,
            MadeBy::Empty => How::Empty,
            MadeBy::Injected => How::Injected,
            MadeBy::Hook => How::of_answer(code, self.dir, self.key.state, self.place),
        }
    }

    /// The event of the entry, made so. Takes no memory.
    pub fn event(&self, how: How) -> Event
        ensures { result ≡ entry_made self.now how }
    {
        Event::Call {
            seat: self.seat,
            cpu: self.cpu,
            state: self.key.state,
            inst: self.key.inst,
            dir: self.dir,
            how,
        }
    }
}

/// What comes next in a walk or a registration in flight.
///
/// Plain data, which takes no memory. After `cpuhp_invoke_callback_range` and
/// `cpuhp_invoke_ap_callback` of `kernel/cpu.c`; that it is known before it is made is this
/// project's own.
#[derive(Clone, Copy)]
pub enum NextStep {
    /// An entry, in the operation of the client, on the processor. None where the entry is a
    /// thread's to make that isn't in.
    Entry {
        client: u32,
        cpu: u32,
        entry: Option<Entry>,
    },
    /// Its end.
    End(Ending),
}

/// The end of a walk or of a registration in flight, with its answer.
///
/// Plain data, which takes no memory.
#[derive(Clone, Copy)]
pub enum Ending {
    /// The end of the walk of a processor, for an operation of the seat.
    Walk { seat: u32, cpu: u32, answer: Answer },
    /// The end of the registration of the seat.
    Registration { seat: u32, answer: Answer },
}

impl Ending {
    /// The seat that ends it. Takes no memory.
    pub fn seat(&self) -> u32
        ensures { result ≡ seat_of (end_event self.now) }
    {
        match self {
            Ending::Walk { seat, .. } | Ending::Registration { seat, .. } => *seat,
        }
    }

    /// The event that it is. Takes no memory.
    pub fn event(&self) -> Event
        ensures { result ≡ end_event self.now }
    {
        match *self {
            Ending::Walk { seat, cpu, answer } => Event::WalkEnd { seat, cpu, answer },
            Ending::Registration { seat, answer } => Event::RegEnd { seat, answer },
        }
    }
}

impl NextStep {
    /// The processor whose thread has to make the entry, where this seat is the client that waits for it.
    pub fn waits_of(&self, seat: u32) -> Option<u32>
        ensures { result ≡ waits_by seat self.now }
    {
        match self {
            NextStep::Entry { client, cpu, entry } if *client == seat => match entry {
                Some(entry) if entry.seat == seat => None,
                _ => Some(*cpu),
            },
            _ => None,
        }
    }

    /// The processor of the entry, and the seat that makes it, where one makes it and the processor is this one
    /// or a later one.
    pub fn due_beyond(&self, from: u32) -> Option<(u32, u32)>
        ensures { result ≡ due_beyond from self.now }
    {
        match self {
            NextStep::Entry {
                entry: Some(entry),
                ..
            } if entry.cpu >= from => Some((entry.cpu, entry.seat)),
            _ => None,
        }
    }

    /// The processor of the entry, and the seat that makes it, where that is a thread's and the processor is this
    /// one or a later one.
    pub fn thread_due_beyond(&self, from: u32) -> Option<(u32, u32)>
        ensures { result ≡ thread_due_beyond from self.now }
    {
        match self {
            NextStep::Entry {
                client,
                entry: Some(entry),
                ..
            } if entry.seat != *client && entry.cpu >= from => Some((entry.cpu, entry.seat)),
            _ => None,
        }
    }
}

/// Whether what is registered at a state has a callback of a direction.
pub fn has_callback<H: Hook>(table: &Table<H>, state: u32, dir: Dir) -> bool
    requires { IsSome (step_at table.now state) }
    ensures { IfSome (step_at table.now state) (λ step. result ≡ has_callback_by step.kept dir) }
{
    match table.step(state) {
        Some(record) => match dir {
            Dir::Up => record.up,
            Dir::Down => record.down,
        },
        None => unreachable!(),
    }
}

/// What an entry of a walk is made by, whose state is registered: nothing where its subsystem has no
/// callback of that direction, a fault where the processor is armed there and it may fail, and is the
/// first of its crossing, and else the hook.
pub fn made_by_in_walk<H: Hook>(
    table: &Table<H>,
    armed: Option<u32>,
    key: Key,
    dir: Dir,
    place: Place,
    first: bool,
) -> MadeBy
    requires { IsSome (step_at table.now key.state) }
    ensures { IsMadeByInWalk (step_at table.now key.state) armed key.state dir place first result }
{
    if !has_callback(table, key.state, dir) {
        return MadeBy::Empty;
    }
    if first && may_fail(dir, key.state, place) && armed == Some(key.state) {
        return MadeBy::Injected;
    }
    MadeBy::Hook
}

impl Account {
    /// What comes next in the one walk in flight, or in the registration in flight; nothing where neither
    /// is, nor of an upmany that walks.
    ///
    /// The parts are the account of the journal, which is lawful, and the table is its. Takes no memory,
    /// and looks at no event.
    #[inline(always)]
    pub fn under_way<H: Hook>(&self, journal: &Journal, table: &Table<H>) -> Option<NextStep>
        requires lawful { IsLawful journal.now.head journal.now.events }
        requires account { IsAccount journal.now.head journal.now.events self.now }
        requires table { IsTableOf journal.now.head journal.now.events table.now }
        ensures { IsUnderWay journal.now.head journal.now.events result }
    {
        match self.walker() {
            Some(cpu) => {
                let armed = self.processors.armed(cpu);
                let thread = self.seats.thread(cpu);
                Some(self.flights.next(table, cpu, armed, thread))
            }
            None => match &self.registration {
                Some(registration) => {
                    Some(registration.next(journal, table, &self.processors, &self.seats))
                }
                None => None,
            },
        }
    }

    /// The lowest processor that walks, if one does, and no upmany is in flight: none does where nobody holds the
    /// write side.
    ///
    /// There is no condition. Takes no memory.
    fn walker(&self) -> Option<u32>
        ensures some { IfSome result (IsLoneWalker self.now) }
        ensures none { IfNone result (NoLoneWalker self.now) }
    {
        if self.locks.writer().is_none() {
            return None;
        }
        if self.is_batch() {
            return None;
        }
        self.flights.walking_from(0)
    }
}
