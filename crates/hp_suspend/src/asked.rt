//! What comes next of a sequence of walks.

use hp_event::Answer;

/// A walk that is to begin: of this processor, from where it stands to this state.
#[derive(Clone, Copy, PartialEq, Eq)]
pub struct WalkAsk {
    /// The processor, below `MAX_CPUS`.
    pub cpu: u32,
    /// OFFLINE for a freeze, ONLINE for a thaw and a boot.
    pub to: u32,
}

/// What comes next of a freeze, a thaw or a boot.
#[derive(Clone, Copy, PartialEq, Eq)]
pub enum Asked {
    /// A walk.
    Walk(WalkAsk),
    /// Nothing more walks, and the operation answers this.
    Ended(Answer),
}
