//! The fifteen kinds of event, the roles of seats and the files that can be shown.
//!
//! All of it is this project's own; walks and callbacks are named after those of `kernel/cpu.c`.

ghost use Rattle.std.specs.Prelude.{◌≡◌};
ghost use Rattle.hp_event.specs.Events.{seat_of};

use crate::answer::Answer;
use crate::how::How;
use crate::op::Op;
use hp_states::Dir;
use std::mem::size_of;

/// The role of a seat.
#[derive(Clone, Copy, Debug, PartialEq, Eq)]
pub enum Role {
    /// A client, which has operations.
    Client,
    /// The hotplug thread of this processor, which makes the entries of AP states.
    Ap(u32),
}

/// A file that can be shown.
#[derive(Clone, Copy, Debug, PartialEq, Eq)]
pub enum File {
    /// The state of a processor.
    State,
    /// The target of a processor.
    Target,
    /// The state at which a processor is armed.
    Fail,
    /// The named states.
    States,
}

/// One atomic step of the machine.
///
/// In each event `seat` is the seat that made it and `cpu` a processor; `state`, `from` and `to` are
/// states; `inst` is an instance, or 0 at a state without instances; `errno` is an error number. The
/// type asks nothing of these numbers: that a seat is below `MAX_SEATS`, a processor below
/// `MAX_CPUS`, a state at most 200 and an error number one of `hp_states` is so in a lawful journal,
/// which hp_model defines. An event takes at most 64 bytes.
#[derive(Clone, Copy, Debug, PartialEq, Eq)]
pub enum Event {
    /// A seat comes in, with the next number that no seat had.
    Admit {
        seat: u32,
        role: Role,
    },
    /// A seat ends. Its number is not used again.
    Leave {
        seat: u32,
    },
    /// An operation of the map lock begins: up, down, target, boot, disable, enable, freeze, thaw,
    /// upmany.
    Enter {
        seat: u32,
        op: Op,
    },
    /// An operation is refused, before anything was done.
    Refused {
        seat: u32,
        errno: u32,
        op: Op,
    },
    /// A walk of a processor between two states begins.
    WalkBegin {
        seat: u32,
        cpu: u32,
        from: u32,
        to: u32,
    },
    /// One entry of a walk or a registration.
    Call {
        seat: u32,
        cpu: u32,
        state: u32,
        inst: u32,
        dir: Dir,
        how: How,
    },
    /// A walk ends.
    WalkEnd {
        seat: u32,
        cpu: u32,
        answer: Answer,
    },
    /// An operation of the map lock ends.
    OpEnd {
        seat: u32,
        answer: Answer,
    },
    /// A setup, remove, add or del begins, at its resolved state.
    RegBegin {
        seat: u32,
        state: u32,
        op: Op,
    },
    /// A setup, remove, add or del ends; Ok changes what is registered.
    RegEnd {
        seat: u32,
        answer: Answer,
    },
    /// A read section begins.
    ReadLock {
        seat: u32,
    },
    /// A read section ends.
    ReadUnlock {
        seat: u32,
    },
    /// The `fail` file of a processor was written: a state, or -1 for none.
    Armed {
        seat: u32,
        cpu: u32,
        value: i32,
    },
    /// A file was shown; for `states`, `cpu` is 0 and `value` the number of named states.
    Shown {
        seat: u32,
        file: File,
        cpu: u32,
        value: i32,
    },
    /// A wakeup is pending from here.
    Wakeup {
        seat: u32,
    },
}

impl Event {
    /// The seat that made it.
    ///
    /// Takes no memory. This project's own.
    pub fn seat(&self) -> u32
        ensures { result ≡ seat_of self.now }
    {
        match *self {
            Event::Admit { seat, .. }
            | Event::Leave { seat }
            | Event::Enter { seat, .. }
            | Event::Refused { seat, .. }
            | Event::WalkBegin { seat, .. }
            | Event::Call { seat, .. }
            | Event::WalkEnd { seat, .. }
            | Event::OpEnd { seat, .. }
            | Event::RegBegin { seat, .. }
            | Event::RegEnd { seat, .. }
            | Event::ReadLock { seat }
            | Event::ReadUnlock { seat }
            | Event::Armed { seat, .. }
            | Event::Shown { seat, .. }
            | Event::Wakeup { seat } => seat,
        }
    }
}

/// The most bytes that an event may take: a journal of `MAX_EVENTS` events stays below 64 MiB.
const MAX_EVENT_BYTES: usize = 64;

const _: () = prove!(size_of::<Event>() <= MAX_EVENT_BYTES);
