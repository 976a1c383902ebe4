//! Operations outside of read sections.

ghost use Rattle.std.specs.Prelude.{◌≡◌, ◌≢◌, None, true, false};
ghost use Rattle.hp_event.specs.declared.op.Op.TheVariants.{Lock};
ghost use Rattle.hp_live.specs.Known.{IsOf, IsSamePass};
ghost use Rattle.hp_model.specs.Seats.{is_busy};
ghost use Rattle.hp_threads.specs.Acting.{IsDone};
ghost use Rattle.hp_threads.specs.Jobs.{IsReady};

use hp_board::Ask;
use hp_event::Op;
use hp_hook::Hook;
use hp_live::{Gate, Hotplug, Pass};
use std::sync::Wait;
use std::thread::yield_now;

/// Whether an operation begins a read section.
pub(crate) fn is_lock(op: &Op) -> bool
    ensures lock { result ≡ true → op.now ≡ Lock }
    ensures other { result ≡ false → op.now ≢ Lock }
{
    matches!(op, Op::Lock)
}

/// An operation that begins no read section, until it is answered.
pub(crate) fn do_outside<H: Hook + Send, R: Wait, G: Gate>(
    rt: &R,
    machine: &Hotplug<H>,
    gate: &G,
    mut pass: Pass<H>,
    ask: Ask<H>,
) -> Pass<H>
    requires own { IsOf machine.now pass.lock }
    requires op { ask.op ≢ Lock }
    requires idle { is_busy pass.seat pass.front ≡ false }
    requires ready { IsReady pass.head ask }
    ensures same { IsSamePass pass result }
    ensures idle { is_busy result.seat result.front ≡ false }
    ensures nothing { result.lent ≡ None }
    ensures done { IsDone pass.head pass.seat ask.op pass.front result.front }
{
    ask_outside(rt, machine, gate, &mut pass, ask);
    pass
}

/// The same with a pass that is lent. Where memory is wanting the operation is asked for again.
fn ask_outside<H: Hook + Send, R: Wait, G: Gate>(
    rt: &R,
    machine: &Hotplug<H>,
    gate: &G,
    pass: &mut Pass<H>,
    mut ask: Ask<H>,
)
    requires own { IsOf machine.now pass.old.lock }
    requires op { ask.op ≢ Lock }
    requires idle { is_busy pass.old.seat pass.old.front ≡ false }
    requires ready { IsReady pass.old.head ask }
    ensures same { IsSamePass pass.old pass.new }
    ensures idle { is_busy pass.new.seat pass.new.front ≡ false }
    ensures nothing { pass.new.lent ≡ None }
    ensures done { IsDone pass.old.head pass.old.seat ask.op pass.old.front pass.new.front }
{
    pass.sound();
    for _ in rt.forever() {
        match machine.run(rt, gate, pass, &mut ask) {
            Ok(_) => {
                pass.sound();
                return;
            }
            Err(_) => {
                pass.sound();
                yield_now();
            }
        }
    }
    unreachable!()
}
