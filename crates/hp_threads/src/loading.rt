//! Operations are given their hooks.

ghost use Rattle.std.specs.Prelude.{◌≡◌, ◌+◌, ◌≤◌, ◌<◌, ◌++◌, ◌∷◌, [], true, is_some, IfNone, IfOk, IfSome, OnOk, length, map};
ghost use Rattle.hp_account.specs.TableChanges.{is_setup};
ghost use Rattle.hp_actors.specs.Actors.{AreLoaded};
ghost use Rattle.hp_actors.specs.Positions.{op_of};
ghost use Rattle.hp_script.specs.Playable.{setups_in};

use hp_board::Ask;
use hp_event::Op;
use hp_hook::Rack;
use hp_states::NoMemory;
use std::alloc::Global;

/// Some operations, each setup with a hook of its own: one after the other they take the rack's last. No other
/// operation has one.
///
/// The rack has at least as many hooks as there are setups. Takes memory; where that is wanting, some hooks of
/// the rack are lost: `NoMemory`. This project's own.
pub(crate) fn load<H: Drop>(
    alloc: Global,
    ops: &[Op],
    rack: &mut Rack<H>,
) -> Result<Vec<Ask<H>>, NoMemory>
    requires { setups_in ops.now ≤ length rack.old.hooks.items }
    ensures ops { IfOk result (λ asks. map op_of asks.items ≡ ops.now) }
    ensures loaded { IfOk result (λ asks. AreLoaded asks.items) }
    ensures rack { OnOk result (length rack.old.hooks.items ≡ length rack.new.hooks.items + setups_in ops.now) }
{
    let mut asks = Vec::new(alloc);
    for op in ops {
        let hook = hook_for(op, rack);
        asks.push(Ask { op: *op, hook })?;
    }
    Ok(asks)
}

/// The hook of an operation: a setup takes the rack's last.
fn hook_for<H>(op: &Op, rack: &mut Rack<H>) -> Option<H>
    requires { is_setup op.now ≡ true → 0 < length rack.old.hooks.items }
    ensures setup { is_some result ≡ is_setup op.now }
    ensures last { IfSome result (λ hook. rack.old.hooks.items ≡ rack.new.hooks.items ++ hook ∷ []) }
    ensures none { IfNone result (rack.old.hooks.items ≡ rack.new.hooks.items) }
{
    match op {
        Op::Setup { .. } => rack.hooks.pop(),
        _ => None,
    }
}
