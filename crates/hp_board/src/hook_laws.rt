//! Laws of the hooks: no turn loses one, and none invents one. The functions have empty bodies: their
//! contracts are the laws, which callers cite.

ghost use Rattle.hp_board.specs.Contents.{Contents, with_event};
ghost use Rattle.hp_board.specs.Turns.{IsServed};
ghost use Rattle.hp_event.specs.declared.event.Event.TheVariants.{Admit, Leave};
ghost use Rattle.hp_board.specs.HookLaws.{LosesNoHook, HasAsManyHooks};

use crate::turn::Turn;
use hp_event::{Op, Role};

/// A turn of a client's seat loses no hook and invents none: those of the states and the one that is asked
/// with are as many after it as before. The board is as `Board::sound` says.
pub fn turn_keeps_hooks(by: u32, op: Op, turn: &Turn)
    ensures { LosesNoHook by op turn.now }
{}

/// A turn of a thread's seat leaves as many hooks as there were.
pub fn serve_keeps_hooks(by: u32, turn: &Turn)
    ensures { (old new : Contents) → IsServed by old new turn.now → HasAsManyHooks old new }
{}

/// A seat that comes in leaves as many hooks as there were.
pub fn admit_keeps_hooks(seat: u32, role: Role)
    ensures { (old : Contents) → HasAsManyHooks old (with_event old (Admit seat role)) }
{}

/// A seat that goes leaves as many hooks as there were.
pub fn leave_keeps_hooks(seat: u32)
    ensures { (old : Contents) → HasAsManyHooks old (with_event old (Leave seat)) }
{}
