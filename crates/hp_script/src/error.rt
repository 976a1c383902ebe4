//! Why a script is refused, and the line that says so.

ghost use Rattle.std.specs.Prelude.{◌≡◌, Some};
ghost use Rattle.hp_script.specs.declared.error.ParseError.TheVariants.{NoMemory};
ghost use Rattle.hp_script.specs.Texts.{error_text, kind_text};

use hp_states::NoMemory;
use std::alloc::{AllocError, AllocFailed};
use std::error::Error;
use std::fmt;

/// What is wrong with a script. The kinds and their numbers are this project's own.
#[derive(Clone, Copy, Debug, PartialEq, Eq)]
pub enum ScriptKind {
    /// It has more bytes than a script may have.
    TooLong = 1,
    /// A line has a byte that is no printable one.
    BadByte,
    /// The first line does not say the processors.
    NoCpus,
    /// The first word of a line is none that a script knows.
    BadWord,
    /// A line cannot stand where it stands.
    BadOrder,
    /// An actor ends in a read section.
    StillLocked,
    /// The words of a line are not of its form.
    BadForm,
    /// A number is out of its range.
    BadNumber,
    /// A subsystem is named that is not there.
    NoSub,
    /// There are more lines of a kind than may be.
    TooMany,
    /// There is no actor.
    NoActor,
}

impl ScriptKind {
    /// The words of the kind, as a refusal has them. Takes no memory.
    pub fn text(self) -> &'static str
        ensures { result.now ≡ kind_text self }
    {
        match self {
            ScriptKind::TooLong => "too long",
            ScriptKind::BadByte => "bad byte",
            ScriptKind::NoCpus => "no cpus",
            ScriptKind::BadWord => "bad word",
            ScriptKind::BadOrder => "bad order",
            ScriptKind::StillLocked => "still locked",
            ScriptKind::BadForm => "bad form",
            ScriptKind::BadNumber => "bad number",
            ScriptKind::NoSub => "no sub",
            ScriptKind::TooMany => "too many",
            ScriptKind::NoActor => "no actor",
        }
    }
}

/// Writes the words of the kind.
impl fmt::Display for ScriptKind {
    ghost output = { λ kind. Some (kind_text kind) };

    fn fmt<W: fmt::Write>(&self, f: &mut fmt::Formatter<W>) -> fmt::Result {
        f.write_str(self.text())
    }
}

/// Why there is no script.
#[derive(Clone, Copy, Debug, PartialEq, Eq)]
pub enum ParseError {
    /// The bytes are refused, at this line, counted from 1, or as a whole, at line 0.
    Bad { line: u32, kind: ScriptKind },
    /// Memory was wanting.
    NoMemory,
}

/// Writes `line 3: bad word`, or that memory was wanting.
impl fmt::Display for ParseError {
    ghost output = { λ error. Some (error_text error) };

    fn fmt<W: fmt::Write>(&self, f: &mut fmt::Formatter<W>) -> fmt::Result {
        match self {
            ParseError::Bad { line, kind } => write!(f, "line {line}: {kind}"),
            ParseError::NoMemory => write!(f, "out of memory"),
        }
    }
}

impl Error for ParseError {}

impl From<AllocError> for ParseError {
    ghost from_gives = { λ _ e. e ≡ NoMemory };

    fn from(_: AllocError) -> ParseError {
        ParseError::NoMemory
    }
}

impl<T: Drop> From<AllocFailed<T>> for ParseError {
    ghost from_gives = { λ _ e. e ≡ NoMemory };

    fn from(_: AllocFailed<T>) -> ParseError {
        ParseError::NoMemory
    }
}

impl From<NoMemory> for ParseError {
    ghost from_gives = { λ _ e. e ≡ NoMemory };

    fn from(_: NoMemory) -> ParseError {
        ParseError::NoMemory
    }
}
