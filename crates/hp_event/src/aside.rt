//! The entry that a hook is lent for.

use crate::key::Key;
use hp_states::{Dir, Rule};
use std::collections::LinkedList;

/// The entry that a hook is lent for, and what the hook had counted then.
///
/// No value of it is made: it is there for contracts to speak of. This project's own.
pub struct Aside {
    /// The processor.
    pub cpu: u32,
    /// The key.
    pub key: Key,
    /// The direction.
    pub dir: Dir,
    /// How many calls the hook had counted.
    pub base: u64,
    /// The hook's rules.
    pub plan: LinkedList<Rule>,
    /// How many calls each rule had matched.
    pub seen: LinkedList<u64>,
    /// How many calls the hook had answered by a fault.
    pub faults: u64,
}
