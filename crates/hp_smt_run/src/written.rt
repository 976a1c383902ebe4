//! Writes of control that are answered.

ghost use Rattle.std.specs.Prelude.{◌≡◌, IfOk};
ghost use Rattle.hp_model.specs.Processors.{online};

use hp_board::Board;
use hp_event::Answer;
use hp_hook::Hook;
use hp_smt::Control;
use hp_states::NoMemory;
use std::alloc::Global;

/// A write of control that is answered.
#[derive(Drop)]
pub struct Written {
    pub want: Control,
    pub answer: Answer,
    /// The processors that were online then, in rising number.
    pub online: Vec<u32>,
}

/// The processors that are online, in rising number. Takes memory for the list.
pub(crate) fn online_on<H: Hook>(alloc: Global, board: &Board<H>) -> Result<Vec<u32>, NoMemory>
    ensures { IfOk result (λ found. found.items ≡ online board.now.head board.now.events) }
{
    let mut found = Vec::new(alloc);
    for cpu in 0..board.journal().head().possible {
        if board.online(cpu) {
            found.push(cpu)?;
        }
    }
    Ok(found)
}
