//! What a walk asks for.

use hp_event::{Answer, Key};
use hp_states::{Dir, Place};

/// What a walk asks for next: an entry, or its end.
#[derive(Clone, Copy)]
pub enum Step {
    /// An entry of this key in this direction, at this place of the walk; `first` says whether it
    /// is the first of its crossing.
    Call {
        key: Key,
        dir: Dir,
        place: Place,
        first: bool,
    },
    /// The end, with the walk's answer: Ok(0), Fault or Stuck.
    Ended(Answer),
}
