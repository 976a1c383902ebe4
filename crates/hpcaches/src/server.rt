//! The threads of the processors.

ghost use Rattle.std.specs.Prelude.{◌≡◌};
ghost use Rattle.hp_live.specs.Known.{IsOf};

use hp_hook::Hook;
use hp_live::{FreeGate, Hotplug, ParkedAp};
use std::sync::Wait;

/// The thread of a processor on its way.
#[derive(Drop)]
pub(crate) struct Server<'m, H: Hook + Send> {
    pub(crate) machine: &'m Hotplug<H>,
    pub(crate) pass: ParkedAp<H>,
    ghost own: { IsOf machine.now pass.lock },
}

impl<'m, H: Hook + Send> Server<'m, H> {
    /// The entries of the processor's thread as they come due, until no client is in, and its leave.
    pub(crate) fn serves<R: Wait>(self, rt: &R) {
        let Server { machine, pass } = self;
        let mut pass = pass.resume();
        machine.ap_loop(rt, &FreeGate, &mut pass);
        machine.leave_ap(rt, &FreeGate, pass);
    }
}
