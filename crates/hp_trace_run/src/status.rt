//! The exit statuses. They are this project's own, and those of the other programs where they say the same.

/// The lines are lawful, as far as they were judged: that is written, and how many they are.
pub const LAWFUL: u8 = 0;

/// There are words, and none is known: the usage line is written.
pub const BAD_WORDS: u8 = 1;

/// No event came before the judgement ended, or there are too many bytes: that is written.
pub const NO_TRACE: u8 = 2;

/// A read failed: nothing is written.
pub const READ_FAULT: u8 = 3;

/// A write failed: the first bytes of what was to be written are written.
pub const WRITE_FAULT: u8 = 4;

/// Memory was wanting: nothing is written.
pub const NO_MEMORY: u8 = 5;

/// A line can't stand: it is written which, and why.
pub const UNLAWFUL: u8 = 6;
