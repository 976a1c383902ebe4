//! Read sections of an actor.

ghost use Rattle.std.specs.Prelude.{◌≡◌, ◌≢◌, None, true, false};
ghost use Rattle.hp_event.specs.declared.op.Op.TheVariants.{Lock, Unlock};
ghost use Rattle.hp_live.specs.Known.{IsOf, IsSamePass};
ghost use Rattle.hp_model.specs.Seats.{is_busy};
ghost use Rattle.hp_threads.specs.Acting.{IsDone};
ghost use Rattle.hp_threads.specs.Jobs.{IsReady};
ghost use Rattle.hp_threads.specs.Standings.{pass_of};

use crate::standing::Standing;
use hp_board::Ask;
use hp_event::Op;
use hp_hook::Hook;
use hp_live::{Gate, Hotplug, Pass, ReadPass, ReadRefusal};
use std::sync::Wait;
use std::thread::yield_now;

/// Whether an operation ends a read section.
pub(crate) fn is_unlock(op: &Op) -> bool
    ensures unlock { result ≡ true → op.now ≡ Unlock }
    ensures other { result ≡ false → op.now ≢ Unlock }
{
    matches!(op, Op::Unlock)
}

/// A lock outside of read sections: the actor is in one then, unless the journal has no room. Where memory is wanting it is
/// asked for again.
pub(crate) fn begin_reading<H: Hook + Send, R: Wait, G: Gate>(
    rt: &R,
    machine: &Hotplug<H>,
    gate: &G,
    mut pass: Pass<H>,
) -> Standing<H>
    requires own { IsOf machine.now pass.lock }
    requires idle { is_busy pass.seat pass.front ≡ false }
    ensures same { IsSamePass pass (pass_of result) }
    ensures idle { is_busy (pass_of result).seat (pass_of result).front ≡ false }
    ensures nothing { (pass_of result).lent ≡ None }
    ensures done { IsDone pass.head pass.seat Lock pass.front (pass_of result).front }
{
    for _ in rt.forever() {
        match machine.read_lock(rt, gate, pass) {
            Ok(read) => {
                read.sound();
                return Standing::Inside(read);
            }
            Err((ReadRefusal::LogFull, back)) => return Standing::Outside(back),
            Err((ReadRefusal::NoMemory, back)) => {
                pass = back;
                yield_now();
            }
        }
    }
    unreachable!()
}

/// An operation in a read section that doesn't end it, until it is answered.
pub(crate) fn do_inside<H: Hook + Send, R: Wait, G: Gate>(
    rt: &R,
    machine: &Hotplug<H>,
    gate: &G,
    mut read: ReadPass<H>,
    ask: Ask<H>,
) -> ReadPass<H>
    requires own { IsOf machine.now read.pass.lock }
    requires op { ask.op ≢ Unlock }
    requires ready { IsReady read.pass.head ask }
    ensures same { IsSamePass read.pass result.pass }
    ensures idle { is_busy result.pass.seat result.pass.front ≡ false }
    ensures nothing { result.pass.lent ≡ None }
    ensures done { IsDone read.pass.head read.pass.seat ask.op read.pass.front result.pass.front }
{
    ask_inside(rt, machine, gate, &mut read, ask);
    read
}

/// The same with a pass that is lent. Where memory is wanting the operation is asked for again.
fn ask_inside<H: Hook + Send, R: Wait, G: Gate>(
    rt: &R,
    machine: &Hotplug<H>,
    gate: &G,
    read: &mut ReadPass<H>,
    mut ask: Ask<H>,
)
    requires own { IsOf machine.now read.old.pass.lock }
    requires op { ask.op ≢ Unlock }
    requires ready { IsReady read.old.pass.head ask }
    ensures same { IsSamePass read.old.pass read.new.pass }
    ensures idle { is_busy read.new.pass.seat read.new.pass.front ≡ false }
    ensures nothing { read.new.pass.lent ≡ None }
    ensures done { IsDone read.old.pass.head read.old.pass.seat ask.op read.old.pass.front read.new.pass.front }
{
    read.sound();
    for _ in rt.forever() {
        match machine.run_reading(rt, gate, read, &mut ask) {
            Ok(_) => {
                read.sound();
                return;
            }
            Err(_) => {
                read.sound();
                yield_now();
            }
        }
    }
    unreachable!()
}
