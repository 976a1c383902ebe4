//! The statuses that a program ends with, and what it says of them. They are this project's own.

ghost use Rattle.std.specs.Prelude.{◌≡◌};
ghost use Rattle.std.specs.Option.{option_copied};
ghost use Rattle.hp_edge.specs.Causes.{cause_of};

/// What was asked for is done, and what it writes is written.
pub const DONE: u8 = 0;

/// The words are those of no command: the usage line is written.
pub const BAD_WORDS: u8 = 1;

/// The script is refused: the line that says why is written.
pub const BAD_SCRIPT: u8 = 2;

/// A read failed: nothing is written.
pub const READ_FAULT: u8 = 3;

/// A write failed: the first bytes of what was to be written are written.
pub const WRITE_FAULT: u8 = 4;

/// Memory was wanting: nothing is written.
pub const NO_MEMORY: u8 = 5;

/// The journal is refused: the line that says why is written.
pub const BAD_JOURNAL: u8 = 6;

/// Why a program ended so, where it writes no line that says it: under `READ_FAULT`, `WRITE_FAULT` and `NO_MEMORY`. None
/// under every other number.
///
/// There is no condition. Takes no memory. The words are this project's own.
pub fn cause_of(status: u8) -> Option<&'static str>
    ensures { option_copied result ≡ cause_of status }
{
    match status {
        READ_FAULT => Some("reading failed"),
        WRITE_FAULT => Some("writing failed"),
        NO_MEMORY => Some("out of memory"),
        _ => None,
    }
}
