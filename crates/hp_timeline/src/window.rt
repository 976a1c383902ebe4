//! Which events a picture shows.

/// The window of a picture: the events that it shows, by their places in the journal. The oldest is at place 0.
#[derive(Clone, Copy, Debug, PartialEq, Eq)]
pub struct Window {
    /// How many events stand before the window.
    pub before: u32,
    /// How many events stand up to its end.
    pub until: u32,
}
