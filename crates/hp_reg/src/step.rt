//! What comes next of a registration.

use hp_event::{Answer, Key};
use hp_states::{Dir, Place};

/// What comes next of a registration: an entry, or its end.
#[derive(Clone, Copy, PartialEq, Eq)]
pub enum RegStep {
    /// The entry of a key on a processor, below `MAX_CPUS`, in this direction and for this purpose:
    /// `Add`, `Undo` or `Remove`.
    Call {
        cpu: u32,
        key: Key,
        dir: Dir,
        place: Place,
    },
    /// Nothing is left, and the registration answers this: `Ok`, or the `Fault` of the entry that
    /// failed.
    Ended(Answer),
}
