//! What the client that administers does.

ghost use Rattle.std.specs.Prelude.{◌≡◌, true, false, None};
ghost use Rattle.hp_event.specs.declared.op.Op.TheVariants.{Setup};
ghost use Rattle.hp_live.specs.Forms.{unlocked};
ghost use Rattle.hp_live.specs.Known.{IsOf};
ghost use Rattle.hp_model.specs.Seats.{is_busy};
ghost use Rattle.hp_model.specs.Subsystems.{names_sub};
ghost use Rattle.hpcaches.specs.Passes.{IsNext, IsReady};
ghost use Rattle.hpcaches.specs.declared.admin.TheConstants.{STATE as STATE_OF};

use crate::trouble::Trouble;
use hp_caches::CPUS;
use hp_event::Answer;
use hp_hook::Hook;
use hp_live::{FreeGate, Hotplug, Parked, Pass};
use hp_states::NoMemory;
use std::sync::{Barrier, Wait};

/// The state whose startup opens a cache: the thread of the processor calls its hook.
pub(crate) const STATE: u32 = 150;

/// The client that administers on its way, with the hook of the caches; its machine has their subsystem.
#[derive(Drop)]
pub(crate) struct Admin<'m, H: Hook + Send> {
    pub(crate) machine: &'m Hotplug<H>,
    pub(crate) pass: Parked<H>,
    pub(crate) hook: H,
    ghost own: { IsOf machine.now pass.lock },
    ghost idle: { is_busy pass.seat pass.front ≡ false },
    ghost nothing: { pass.lent ≡ None },
    ghost named: { names_sub pass.head (Setup STATE_OF 1 (unlocked false)) ≡ true },
}

impl<'m, H: Hook + Send> Admin<'m, H> {
    /// Opens the caches, and lets the workers begin; takes all processors but the first down and up in each round, freezes
    /// and thaws once, and leaves. What failed first is answered, and ends the rounds.
    pub(crate) fn administers<R: Wait>(
        self,
        rt: &R,
        rounds: u32,
        caches_open: &Barrier,
    ) -> Result<(), Trouble> {
        let Admin {
            machine,
            pass,
            hook,
        } = self;
        let mut pass = pass.resume();
        let opened = opens(rt, machine, &mut pass, hook);
        caches_open.wait(rt);
        let done = takes_up_and_down(rt, machine, &mut pass, rounds);
        machine.leave(rt, &FreeGate, pass);
        opened.and(done)
    }
}

/// Registers the hook while the threads of the processors serve, and brings all processors up.
fn opens<H: Hook + Send, R: Wait>(
    rt: &R,
    machine: &Hotplug<H>,
    pass: &mut Pass<H>,
    hook: H,
) -> Result<(), Trouble>
    requires ready { IsReady machine.now pass.old }
    requires named { names_sub pass.old.head (Setup STATE_OF 1 (unlocked false)) ≡ true }
    ensures { IsNext pass.old pass.new }
{
    sets_up(rt, machine, pass, hook)?;
    is_ok(machine.boot(rt, &FreeGate, pass, CPUS))
}

/// Registers the hook.
fn sets_up<H: Hook + Send, R: Wait>(
    rt: &R,
    machine: &Hotplug<H>,
    pass: &mut Pass<H>,
    hook: H,
) -> Result<(), Trouble>
    requires ready { IsReady machine.now pass.old }
    requires named { names_sub pass.old.head (Setup STATE_OF 1 (unlocked false)) ≡ true }
    ensures { IsNext pass.old pass.new }
{
    match machine.setup_state(rt, &FreeGate, pass, STATE, 1, hook) {
        Ok(done) => is_ok(Ok(done.answer)),
        Err(_) => Err(Trouble::NoMemory),
    }
}

/// The rounds, and then all processors but the first down at once, and up what that took down.
fn takes_up_and_down<H: Hook + Send, R: Wait>(
    rt: &R,
    machine: &Hotplug<H>,
    pass: &mut Pass<H>,
    rounds: u32,
) -> Result<(), Trouble>
    requires { IsReady machine.now pass.old }
    ensures { IsNext pass.old pass.new }
{
    go_rounds(rt, machine, pass, rounds)?;
    is_ok(machine.freeze(rt, &FreeGate, pass, 0))?;
    is_ok(machine.thaw(rt, &FreeGate, pass))
}

/// Each processor but the first down, and then up again, so many times.
fn go_rounds<H: Hook + Send, R: Wait>(
    rt: &R,
    machine: &Hotplug<H>,
    pass: &mut Pass<H>,
    rounds: u32,
) -> Result<(), Trouble>
    requires { IsReady machine.now pass.old }
    ensures { IsNext pass.old pass.new }
{
    for _ in 0..rounds {
        all_down(rt, machine, pass)?;
        all_up(rt, machine, pass)?;
    }
    Ok(())
}

/// Takes each processor but the first down.
fn all_down<H: Hook + Send, R: Wait>(
    rt: &R,
    machine: &Hotplug<H>,
    pass: &mut Pass<H>,
) -> Result<(), Trouble>
    requires { IsReady machine.now pass.old }
    ensures { IsNext pass.old pass.new }
{
    for cpu in 1..CPUS {
        is_ok(machine.cpu_down(rt, &FreeGate, pass, cpu))?;
    }
    Ok(())
}

/// Brings each processor but the first up.
fn all_up<H: Hook + Send, R: Wait>(
    rt: &R,
    machine: &Hotplug<H>,
    pass: &mut Pass<H>,
) -> Result<(), Trouble>
    requires { IsReady machine.now pass.old }
    ensures { IsNext pass.old pass.new }
{
    for cpu in 1..CPUS {
        is_ok(machine.cpu_up(rt, &FreeGate, pass, cpu))?;
    }
    Ok(())
}

/// Whether an operation was answered Ok.
fn is_ok(answer: Result<Answer, NoMemory>) -> Result<(), Trouble> {
    match answer {
        Ok(Answer::Ok(_)) => Ok(()),
        Ok(other) => Err(Trouble::Answered(other)),
        Err(NoMemory) => Err(Trouble::NoMemory),
    }
}
