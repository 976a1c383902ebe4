//! The versions of the text of journals.

/// A version of the text of journals. The text and its versions are this project's own.
#[derive(Clone, Copy, Debug, PartialEq, Eq)]
pub enum Version {
    /// The lines of an operation's events don't tell it from others of its seat. It was written of
    /// machines of at most 64 processors and 96 seats.
    One,
    /// The lines of an operation's events have its number.
    Two,
}
