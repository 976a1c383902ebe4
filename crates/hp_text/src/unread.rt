//! Why words say no value.

/// Why words say no value. This project's own.
#[derive(Clone, Copy, Debug, PartialEq, Eq)]
pub enum Unread {
    /// The words aren't of the form.
    NotOfForm,
    /// The words are of the form, and a number in them is out of its range.
    OutOfRange,
}
