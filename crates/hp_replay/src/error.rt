//! Why a journal's text is refused, and the words that say so.

ghost use Rattle.std.specs.Prelude.{◌≡◌, Some};
ghost use Rattle.hp_replay.specs.declared.error.ReplayError.TheVariants.{NoMemory};
ghost use Rattle.hp_replay.specs.Texts.{error_text, kind_text};

use hp_states::NoMemory;
use std::alloc::{AllocError, AllocFailed};
use std::error::Error;
use std::fmt;

/// What is wrong with the first line of a journal's text that can't stand. The kinds and their
/// numbers are this project's own.
#[derive(Clone, Copy, Debug, PartialEq, Eq)]
pub enum ReplayKind {
    /// The input has more bytes than a journal's text may have.
    TooLong = 1,
    /// The line stands before or in the place of `events`.
    Header = 2,
    /// The line stands after `events` and has no newline at its end, or is neither an event's line
    /// nor an `end` line.
    Syntax = 3,
    /// The line is an event's, and that event doesn't stand after those before it.
    Unlawful = 4,
    /// The line is an `end` line with another number than that of the events.
    Count = 5,
    /// The line stands after the `end` line and isn't the summary's line of that place, or follows a
    /// whole summary.
    Trailing = 6,
    /// The input ends before the `end` line or within the summary.
    Missing = 7,
}

impl ReplayKind {
    /// The words of the kind, as a refusal has them. Takes no memory. This project's own.
    pub fn text(self) -> &'static str
        ensures { result.now ≡ kind_text self }
    {
        match self {
            ReplayKind::TooLong => "too long",
            ReplayKind::Header => "header",
            ReplayKind::Syntax => "syntax",
            ReplayKind::Unlawful => "unlawful",
            ReplayKind::Count => "count",
            ReplayKind::Trailing => "trailing",
            ReplayKind::Missing => "missing",
        }
    }
}

/// Writes the words of the kind.
impl fmt::Display for ReplayKind {
    ghost output = { λ kind. Some (kind_text kind) };

    fn fmt<W: fmt::Write>(&self, f: &mut fmt::Formatter<W>) -> fmt::Result {
        f.write_str(self.text())
    }
}

/// Why there is no journal. This project's own.
#[derive(Clone, Copy, Debug, PartialEq, Eq)]
pub enum ReplayError {
    /// The text is refused at this line, counted from 1, or as a whole, at line 0.
    Bad { line: u32, kind: ReplayKind },
    /// Memory was wanting.
    NoMemory,
}

/// Writes `line 3: unlawful`, or that memory was wanting.
impl fmt::Display for ReplayError {
    ghost output = { λ error. Some (error_text error) };

    fn fmt<W: fmt::Write>(&self, f: &mut fmt::Formatter<W>) -> fmt::Result {
        match self {
            ReplayError::Bad { line, kind } => write!(f, "line {line}: {kind}"),
            ReplayError::NoMemory => write!(f, "out of memory"),
        }
    }
}

impl Error for ReplayError {}

impl From<AllocError> for ReplayError {
    ghost from_gives = { λ _ e. e ≡ NoMemory };

    fn from(_: AllocError) -> ReplayError {
        ReplayError::NoMemory
    }
}

impl<T: Drop> From<AllocFailed<T>> for ReplayError {
    ghost from_gives = { λ _ e. e ≡ NoMemory };

    fn from(_: AllocFailed<T>) -> ReplayError {
        ReplayError::NoMemory
    }
}

impl From<NoMemory> for ReplayError {
    ghost from_gives = { λ _ e. e ≡ NoMemory };

    fn from(_: NoMemory) -> ReplayError {
        ReplayError::NoMemory
    }
}
