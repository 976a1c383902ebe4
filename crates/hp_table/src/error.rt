//! Why a table refuses a call.

ghost use Rattle.std.specs.Prelude.{◌≡◌, Some};
ghost use Rattle.hp_table.specs.Errors.{errno_of, text_of};

use hp_states::{EBUSY, EINVAL, ENOSPC};
use std::error::Error;
use std::fmt;

/// Why a table refuses a call. After a refusal the table is as before. `Invalid`, `Busy` and
/// `NoSpace` are the refusals of the registration calls of `kernel/cpu.c`; what else they are
/// answered to, and `TooMany`, is this project's own.
#[derive(Clone, Copy, Debug, PartialEq, Eq)]
pub enum TableError {
    /// The state can't be registered, isn't registered or has no such instance.
    Invalid = 1,
    /// The state has a name, instances are left, or the instance is there already.
    Busy = 2,
    /// Each slot of the range has a name.
    NoSpace = 3,
    /// The state, or the table, has as many instances as it may have.
    TooMany = 4,
    /// Memory was wanting.
    NoMemory = 5,
}

impl TableError {
    /// The error number that a refusal stands for: `EINVAL`, `EBUSY`, and `ENOSPC` for both
    /// `NoSpace` and `TooMany`; none for want of memory. Takes no memory.
    pub fn errno(self) -> Option<u32>
        ensures { result ≡ errno_of self }
    {
        match self {
            TableError::Invalid => Some(EINVAL),
            TableError::Busy => Some(EBUSY),
            TableError::NoSpace | TableError::TooMany => Some(ENOSPC),
            TableError::NoMemory => None,
        }
    }
}

impl fmt::Display for TableError {
    ghost output = { λ e. Some (text_of e) };

    fn fmt<W: fmt::Write>(&self, f: &mut fmt::Formatter<W>) -> fmt::Result {
        match self {
            TableError::Invalid => write!(f, "no such state or instance"),
            TableError::Busy => write!(f, "taken, or instances are left"),
            TableError::NoSpace => write!(f, "no free slot"),
            TableError::TooMany => write!(f, "too many instances"),
            TableError::NoMemory => write!(f, "out of memory"),
        }
    }
}

impl Error for TableError {}
