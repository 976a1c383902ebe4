//! Where a walk stands.

ghost use Rattle.std.specs.Prelude.{◌≡◌};
ghost use Rattle.hp_walk.specs.Faulted.{is_faultless as faultless};

use hp_event::Answer;

/// Where a walk stands: which key of which state comes next, and why.
///
/// Keys are counted from 0, in the order of the state's list. Codes are those of the faults so far.
#[derive(Clone, Copy)]
pub enum Position {
    /// On the way to the target, at a key of a state.
    Forward {
        state: u32,
        key: u32,
    },
    /// A key of the state faulted on the way to the target: the first `keys` of its keys, which
    /// come before that one, are undone.
    UndoingPart {
        state: u32,
        key: u32,
        keys: u32,
        code: u32,
    },
    /// In the rollback, at a key of a state.
    Back {
        state: u32,
        key: u32,
        code: u32,
    },
    /// A key of the state faulted in the rollback: the first `keys` of its keys are done again.
    RedoingPart {
        state: u32,
        key: u32,
        keys: u32,
        first: u32,
        second: u32,
    },
    /// At the end, with its answer.
    Ended(Answer),
}

impl Position {
    /// Whether no callback of the walk has faulted.
    pub fn is_faultless(self) -> bool
        ensures { result ≡ faultless self }
    {
        match self {
            Position::Forward { .. } | Position::Ended(Answer::Ok(_)) => true,
            _ => false,
        }
    }
}
