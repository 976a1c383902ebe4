//! What the thread of a processor does.

ghost use Rattle.std.specs.Prelude.{◌≡◌, None};
ghost use Rattle.hp_live.specs.Known.{IsOf};
ghost use Rattle.hp_threads.specs.Jobs.{HasStayed};

use hp_hook::Hook;
use hp_live::{Gate, Hotplug, ParkedAp};
use std::sync::Wait;

/// The entries of a processor's thread as they come due, until no client is in.
pub(crate) fn serve<H: Hook + Send, R: Wait, G: Gate>(
    rt: &R,
    machine: &Hotplug<H>,
    gate: &G,
    parked: ParkedAp<H>,
) -> ParkedAp<H>
    requires own { IsOf machine.now parked.lock }
    requires nothing { parked.lent ≡ None }
    ensures { HasStayed parked result }
{
    let mut pass = parked.resume();
    machine.ap_loop(rt, gate, &mut pass);
    pass.park()
}
