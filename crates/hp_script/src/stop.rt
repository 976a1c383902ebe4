//! Why the reading of a line stops.

ghost use Rattle.std.specs.Prelude.{◌≡◌};
ghost use Rattle.hp_script.specs.declared.stop.Stop.TheVariants.{Bad, NoMemory};
ghost use Rattle.hp_script.specs.Ranges.{kind_of};

use crate::error::ScriptKind;
use hp_states::NoMemory;
use hp_text::Unread;
use std::alloc::{AllocError, AllocFailed};

/// Why a line gives nothing.
#[derive(Clone, Copy)]
pub enum Stop {
    /// It is refused.
    Bad(ScriptKind),
    /// Memory was wanting.
    NoMemory,
}

impl From<ScriptKind> for Stop {
    ghost from_gives = { λ kind stop. stop ≡ Bad kind };

    fn from(kind: ScriptKind) -> Stop {
        Stop::Bad(kind)
    }
}

impl From<Unread> for Stop {
    ghost from_gives = { λ unread stop. stop ≡ Bad (kind_of unread) };

    fn from(unread: Unread) -> Stop {
        match unread {
            Unread::NotOfForm => Stop::Bad(ScriptKind::BadForm),
            Unread::OutOfRange => Stop::Bad(ScriptKind::BadNumber),
        }
    }
}

impl From<AllocError> for Stop {
    ghost from_gives = { λ _ stop. stop ≡ NoMemory };

    fn from(_: AllocError) -> Stop {
        Stop::NoMemory
    }
}

impl<T: Drop> From<AllocFailed<T>> for Stop {
    ghost from_gives = { λ _ stop. stop ≡ NoMemory };

    fn from(_: AllocFailed<T>) -> Stop {
        Stop::NoMemory
    }
}

impl From<NoMemory> for Stop {
    ghost from_gives = { λ _ stop. stop ≡ NoMemory };

    fn from(_: NoMemory) -> Stop {
        Stop::NoMemory
    }
}
