//! What the thread of an actor does.

ghost use Rattle.std.specs.Prelude.{◌≡◌, None, true, false};
ghost use Rattle.hp_live.specs.Known.{IsOf, IsSamePass};
ghost use Rattle.hp_model.specs.Scripts.{lock_step};
ghost use Rattle.hp_model.specs.Seats.{is_busy};
ghost use Rattle.hp_threads.specs.Acting.{IsDone};
ghost use Rattle.hp_threads.specs.Jobs.{CanAct, HasRun, IsReady};
ghost use Rattle.hp_threads.specs.Standings.{is_inside, pass_of};

use crate::job::Job;
use crate::outside::{do_outside, is_lock};
use crate::reading::{begin_reading, do_inside, is_unlock};
use crate::standing::Standing;
use hp_board::Ask;
use hp_hook::Hook;
use hp_live::{Gate, Hotplug, Left};
use std::sync::Wait;

/// The operations of an actor, one after another, and then its leave. Where memory is wanting for one it is asked
/// for again.
pub(crate) fn act<H: Hook + Send, R: Wait, G: Gate>(
    rt: &R,
    machine: &Hotplug<H>,
    gate: &G,
    job: Job<H>,
) -> Left<H>
    requires { CanAct machine.now job }
    ensures { HasRun job result }
{
    let Job { pass, asks } = job;
    let mut standing = Standing::Outside(pass.resume());
    for ask in asks {
        standing = do_one(rt, machine, gate, standing, ask);
    }
    let Standing::Outside(pass) = standing else {
        unreachable!()
    };
    machine.leave(rt, gate, pass)
}

/// One operation of an actor: outside of read sections it may begin one, and inside end it.
fn do_one<H: Hook + Send, R: Wait, G: Gate>(
    rt: &R,
    machine: &Hotplug<H>,
    gate: &G,
    standing: Standing<H>,
    ask: Ask<H>,
) -> Standing<H>
    requires own { IsOf machine.now (pass_of standing).lock }
    requires idle { is_busy (pass_of standing).seat (pass_of standing).front ≡ false }
    requires nothing { (pass_of standing).lent ≡ None }
    requires ready { IsReady (pass_of standing).head ask }
    ensures same { IsSamePass (pass_of standing) (pass_of result) }
    ensures idle { is_busy (pass_of result).seat (pass_of result).front ≡ false }
    ensures nothing { (pass_of result).lent ≡ None }
    ensures done { IsDone (pass_of standing).head (pass_of standing).seat ask.op (pass_of standing).front
        (pass_of result).front }
    ensures inside { is_inside result ≡ true → lock_step (is_inside standing) ask.op ≡ true }
{
    match standing {
        Standing::Outside(pass) => {
            if is_lock(&ask.op) {
                return begin_reading(rt, machine, gate, pass);
            }
            Standing::Outside(do_outside(rt, machine, gate, pass, ask))
        }
        Standing::Inside(read) => {
            if is_unlock(&ask.op) {
                return Standing::Outside(machine.read_unlock(rt, gate, read));
            }
            Standing::Inside(do_inside(rt, machine, gate, read, ask))
        }
    }
}
