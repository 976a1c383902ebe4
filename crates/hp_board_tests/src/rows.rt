//! What a board is to do, as a row of a table.

use hp_board::Turn;
use hp_event::{Answer, Form, How, Op};
use hp_locks::Why;
use hp_states::Dir;

/// A board, what is done with it, and what is found then.
#[derive(Clone, Copy)]
pub(crate) struct Row {
    pub name: &'static str,
    /// How many processors there are: their threads have the first seats.
    pub cpus: u32,
    /// How many clients there are, behind the threads.
    pub clients: u32,
    /// The two subsystems.
    pub subs: (Answers, Answers),
    /// What is done, one after the other.
    pub parts: &'static [Part],
    /// Entries of the journal.
    pub entries: &'static [Entry],
    /// How many events there are.
    pub len: u32,
    /// The states file at the end, where it is asked for.
    pub states: Option<&'static [u8]>,
    /// The mark of the hook that the first client has at the end, if it has one.
    pub left: Option<u32>,
    /// The hooks of the board at the end: their marks, how often each was called, and how often it answered a fault.
    pub hooks: &'static [(u32, u64, u64)],
}

/// How a subsystem with both callbacks answers: 0, or 5 by its startup on processor 1; or one without a startup.
#[derive(Clone, Copy, PartialEq, Eq)]
pub(crate) enum Answers {
    Zero,
    Five,
    NoStartup,
}

/// Turns, and what can be lent after them.
pub(crate) struct Part {
    pub steps: &'static [Step],
    /// The seats that nothing can be lent to then.
    pub nothing: &'static [u32],
    /// The hook that is lent then, if one is.
    pub lends: Option<Lends>,
}

/// A turn of a seat: what it does, and what that is answered.
pub(crate) type Step = (u32, Does, Wanted);

/// What a seat does in its turn.
#[derive(Clone, Copy)]
pub(crate) enum Does {
    /// A thread makes the entry that is due from it.
    Serves,
    /// A client begins to ask for an operation.
    Asks(Op),
    /// A client begins to ask for a setup of a state, for a subsystem.
    SetsUp(u32, u32),
    /// A client begins to ask for a remove of a state.
    Removes(u32),
    /// A client goes on with the operation that it asked for last.
    GoesOn,
}

/// What a turn answers.
#[derive(Clone, Copy)]
pub(crate) enum Wanted {
    /// It makes the event at this place.
    Made(u32),
    /// It answers the operation with Ok, at this place.
    Ends(u32),
    /// It refuses the operation with this error number, at this place.
    Refuses(u32, u32),
    /// It answers the operation with the code of a fault, at this place.
    Faults(u32, u32),
    /// It waits.
    Waits(Why),
}

/// An entry: its place in the journal, the seat that made it, its processor, its state, its direction, and how it was made.
pub(crate) type Entry = (u32, u32, u32, u32, Dir, How);

/// A hook that is lent and given back.
pub(crate) struct Lends {
    /// The seat that it is lent to.
    pub by: u32,
    /// A seat whose hook is lent and given back meanwhile, and the place of its entry.
    pub beside: Option<(u32, u32)>,
    /// The turns meanwhile, behind that.
    pub steps: &'static [Step],
    /// The seats that nothing can be lent to meanwhile, behind both.
    pub nothing: &'static [u32],
    /// What the hook answers.
    pub answer: u32,
    /// The place of its entry.
    pub at: u32,
}

/// The form of every registration.
const FORM: Form = Form {
    locked: false,
    nocalls: false,
};

impl Does {
    /// The operation that a client begins to ask for, if it does.
    pub(crate) fn begins(self) -> Option<Op> {
        match self {
            Does::Asks(op) => Some(op),
            Does::SetsUp(state, sub) => Some(Op::Setup {
                state,
                sub,
                form: FORM,
            }),
            Does::Removes(state) => Some(Op::Remove { state, form: FORM }),
            Does::Serves | Does::GoesOn => None,
        }
    }
}

impl Wanted {
    /// The turn that answers so.
    pub(crate) fn turn(self) -> Turn {
        let (at, answer) = match self {
            Wanted::Made(at) => return Turn::Made { at },
            Wanted::Waits(why) => return Turn::NotYet(why),
            Wanted::Ends(at) => (at, Answer::Ok(0)),
            Wanted::Refuses(errno, at) => (at, Answer::Refused(errno)),
            Wanted::Faults(code, at) => (at, Answer::Fault(code)),
        };
        Turn::Answered {
            at: Some(at),
            answer,
        }
    }
}
