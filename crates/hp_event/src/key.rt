//! Keys: what a callback is registered for.

/// What a callback is registered for: a state and an instance. Keys are ordered by state, and at one
/// state by instance.
#[derive(Clone, Copy, Debug, PartialEq, Eq, PartialOrd, Ord)]
pub struct Key {
    /// The state, 0 to 200.
    pub state: u32,
    /// The instance, 1 to `MAX_INSTANCE`, or 0 at a state without instances.
    pub inst: u32,
}
