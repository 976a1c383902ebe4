//! Why a run, or a thread of it, gave up.

use hp_board::StartError;
use hp_caches::PutError;
use hp_event::Answer;
use hp_live::ReadRefusal;
use hp_states::NoMemory;
use std::alloc::{AllocError, AllocFailed};

/// Why a run, or a thread of it, gave up.
#[derive(Clone, Copy, Debug, PartialEq, Eq)]
pub(crate) enum Trouble {
    /// Memory was wanting.
    NoMemory,
    /// No machine is started with the head, or it has no subsystem for the caches.
    NoHead,
    /// The machine wasn't started.
    NotStarted(StartError),
    /// A seat wasn't let in.
    NotLetIn,
    /// A worker got no read section.
    NoSection(ReadRefusal),
    /// No processor was online in a read section.
    NoneOnline,
    /// The cache of an online processor was closed.
    Closed,
    /// An operation was answered so.
    Answered(Answer),
    /// A hook was still lent at the end, or a registration in flight.
    InFlight,
    /// Some item doesn't stand exactly once at the end.
    Lost,
    /// The journal has another number of events than the plan says.
    OtherEvents(u32),
}

impl From<NoMemory> for Trouble {
    fn from(_: NoMemory) -> Trouble {
        Trouble::NoMemory
    }
}

impl From<AllocError> for Trouble {
    fn from(_: AllocError) -> Trouble {
        Trouble::NoMemory
    }
}

impl<T: Drop> From<AllocFailed<T>> for Trouble {
    fn from(_: AllocFailed<T>) -> Trouble {
        Trouble::NoMemory
    }
}

impl From<PutError> for Trouble {
    fn from(error: PutError) -> Trouble {
        match error {
            PutError::Closed => Trouble::Closed,
            PutError::NoMemory => Trouble::NoMemory,
        }
    }
}
