//! After the threads: the root hears what they left, the processors' seats leave, and the machine is closed.

ghost use Rattle.std.specs.Prelude.{◌≡◌, true, None, All};
ghost use mathlib.Core.List.{IsPrefix};
ghost use Rattle.hp_live.specs.Known.{IsOf};
ghost use Rattle.hp_model.specs.Lawful.{IsLawful};
ghost use Rattle.hp_threads.specs.Ending.{HasGone, HaveGone};
ghost use Rattle.hp_threads.specs.Jobs.{CanServe};
ghost use Rattle.hp_turn.specs.Story.{Knows};

use hp_event::Journal;
use hp_hook::Hook;
use hp_live::{Gate, Hotplug, Left, ParkedAp, Root};
use std::sync::Wait;

/// The root hears what all actors have seen that left.
pub(crate) fn meet_all<H: Hook + Send>(
    machine: &Hotplug<H>,
    root: &mut Root<H>,
    lefts: Vec<Left<H>>,
)
    requires own { IsOf machine.now root.old.lock }
    requires lefts { All (λ left. IsOf machine.now left.lock) lefts.items }
    ensures same { (root.new.lock ≡ root.old.lock) × (root.new.head ≡ root.old.head) }
    ensures begins { Knows None true root.old.front root.new.front }
    ensures met { All (λ left. IsPrefix left.front root.new.front) lefts.items }
{
    for left in lefts {
        machine.meet(root, left);
    }
}

/// The seats of the processors' threads leave, one after another.
pub(crate) fn leave_all<H: Hook + Send, R: Wait, G: Gate>(
    rt: &R,
    machine: &Hotplug<H>,
    gate: &G,
    root: &mut Root<H>,
    passes: Vec<ParkedAp<H>>,
)
    requires own { IsOf machine.now root.old.lock }
    requires passes { All (CanServe machine.now) passes.items }
    ensures same { (root.new.lock ≡ root.old.lock) × (root.new.head ≡ root.old.head) }
    ensures gone { HaveGone passes.items root.old.front root.new.front }
{
    for pass in passes {
        leave_one(rt, machine, gate, root, pass);
    }
}

/// The seat of a processor's thread is told what the root has seen, and leaves; the root hears of it.
fn leave_one<H: Hook + Send, R: Wait, G: Gate>(
    rt: &R,
    machine: &Hotplug<H>,
    gate: &G,
    root: &mut Root<H>,
    parked: ParkedAp<H>,
)
    requires own { IsOf machine.now root.old.lock }
    requires pass { CanServe machine.now parked }
    ensures same { (root.new.lock ≡ root.old.lock) × (root.new.head ≡ root.old.head) }
    ensures gone { HasGone parked root.old.front root.new.front }
{
    let mut pass = parked.resume();
    machine.tell_ap(root, &mut pass);
    let left = machine.leave_ap(rt, gate, pass);
    machine.meet(root, left);
}

/// The machine is closed: its journal.
pub(crate) fn close<H: Hook + Send, R: Wait>(rt: &R, machine: Hotplug<H>, root: Root<H>) -> Journal
    requires own { IsOf machine root.lock }
    ensures head { result.head ≡ root.head }
    ensures lawful { IsLawful result.head result.events }
    ensures begins { Knows None true root.front result.events }
{
    let board = machine.close(rt, root);
    board.sound();
    board.into_journal()
}
