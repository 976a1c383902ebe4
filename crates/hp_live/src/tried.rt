//! What one try did.

ghost use Rattle.std.specs.Prelude.{◌≡◌};
ghost use Rattle.hp_live.specs.Tries.{tried_by};

use crate::step::Stepped;
use hp_board::Turn;

/// What one try of a pass did: what a section does, or nothing.
#[derive(Clone, Copy, Debug, PartialEq, Eq)]
pub enum Tried {
    /// Another pass holds the lock; nothing has changed.
    Busy,
    /// A turn was taken, or a hook was given back and its entry made.
    Turned(Turn),
    /// The hook of this state was lent, and called outside the lock: the pass carries its answer.
    Lent { state: u32 },
}

impl Stepped {
    /// What a try did that had the lock.
    pub(crate) fn tried(self) -> Tried
        ensures { result ≡ tried_by self }
    {
        match self {
            Stepped::Turned(turn) => Tried::Turned(turn),
            Stepped::Lent { state } => Tried::Lent { state },
        }
    }
}
