//! What the table of a lock keeps of each pass.

use hp_event::{Aside, Event, Head};
use std::collections::LinkedList;

/// Two fronts that a join brought together, and whether the first had the right to admit. No value
/// of it is made: it is there for contracts to speak of.
pub struct Heard {
    /// The front of the pass that took the other in.
    pub one: LinkedList<Event>,
    /// The front of the other.
    pub two: LinkedList<Event>,
    /// The first had the right to admit.
    pub had: bool,
    /// The head of the other pass.
    pub head: Head,
}

/// What a pass has of the value while it holds the lock: what it took, and from where it is told
/// what it puts back. No value of it is made: it is there for contracts to speak of.
pub struct Held {
    /// The story.
    pub story: LinkedList<Event>,
    /// The seats that have a hook lent, each with the entry that it is lent for.
    pub pairs: LinkedList<(u64, Aside)>,
}

/// What the table of a lock holds of one pass. No value of it is made: it is there for contracts to
/// speak of.
pub struct View {
    /// The pass was joined into another.
    pub spent: bool,
    /// The head of the value.
    pub head: Head,
    /// The story as the pass last saw it.
    pub front: LinkedList<Event>,
    /// The seat whose events the pass alone adds.
    pub seat: Option<u64>,
    /// The pass may admit a seat.
    pub admits: bool,
    /// What a join brought together, until the step after it.
    pub heard: Option<Heard>,
    /// How often the pass found the lock taken.
    pub misses: u64,
    /// What the pass took, or puts back, where it holds the lock.
    pub held: Option<Held>,
    /// The entry that a hook is lent to the pass's seat for.
    pub aside: Option<Aside>,
    /// The pairs as the pass last put them back.
    pub kept: LinkedList<(u64, Aside)>,
}
