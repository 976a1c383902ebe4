//! Registrations of states by name.

ghost use Rattle.std.specs.Prelude.{◌≡◌, ◌≢◌, true, false, None, Some, is_some};
ghost use Rattle.hp_account.specs.TableChanges.{is_setup};
ghost use Rattle.hp_event.specs.declared.op.Op.TheVariants as an_op;
ghost use Rattle.hp_live.specs.Forms.{RanWith, unlocked as unlocked_form};
ghost use Rattle.hp_live.specs.Known.{IsOf};
ghost use Rattle.hp_model.specs.Seats.{is_busy};
ghost use Rattle.hp_model.specs.Subsystems.{names_sub};

use crate::forms::unlocked;
use crate::gate::Gate;
use crate::hotplug::Hotplug;
use crate::pass::Pass;
use hp_board::Ask;
use hp_event::{Answer, Op};
use hp_hook::Hook;
use hp_states::NoMemory;
use std::sync::Wait;

/// How a setup or a remove ended.
#[derive(Drop)]
pub struct Done<H> {
    /// Its answer.
    pub answer: Answer,
    /// The hook that comes back: of a setup that isn't answered Ok, and of a remove that is.
    pub hook: Option<H>,
}

/// What comes back of a setup or a remove that memory was wanting for.
#[derive(Drop)]
pub struct HookBack<H> {
    /// The hook of a setup, the one that was handed in.
    pub hook: Option<H>,
}

impl<H: Hook + Send> Hotplug<H> {
    /// Registers a subsystem of the head at a state, with its callbacks: `Setup`, as `cpu_up`.
    ///
    /// Conditions: those of `cpu_up`, and the head has the subsystem. A hook comes back where the answer isn't Ok: where
    /// the setup didn't begin, the one that was handed in, and else that of the state, with its subsystem's plan and the
    /// counts of the calls that the journal before the answer has of the state. Where memory was wanting the one that was
    /// handed in does. After `cpuhp_setup_state` of `linux/cpuhotplug.h`; that a fault in STARTING is overruled is this
    /// project's own.
    pub fn setup_state<R: Wait, G: Gate>(
        &self,
        rt: &R,
        gate: &G,
        pass: &mut Pass<H>,
        state: u32,
        sub: u32,
        hook: H,
    ) -> Result<Done<H>, HookBack<H>>
        requires own { IsOf self.now pass.old.lock }
        requires idle { is_busy pass.old.seat pass.old.front ≡ false }
        requires named { names_sub pass.old.head (an_op.Setup state sub (unlocked_form false)) ≡ true }
        ensures { RanWith H.counts pass.old pass.new (an_op.Setup state sub (unlocked_form false)) (Some hook) result }
    {
        let form = unlocked(false);
        self.register(rt, gate, pass, Op::Setup { state, sub, form }, Some(hook))
    }

    /// Registers a subsystem of the head at a state, without its callbacks: `Setup`, as `cpu_up`.
    ///
    /// Conditions: those of `cpu_up`, and the head has the subsystem. A hook comes back as of `setup_state`. After
    /// `cpuhp_setup_state_nocalls` of `linux/cpuhotplug.h`.
    pub fn setup_state_nocalls<R: Wait, G: Gate>(
        &self,
        rt: &R,
        gate: &G,
        pass: &mut Pass<H>,
        state: u32,
        sub: u32,
        hook: H,
    ) -> Result<Done<H>, HookBack<H>>
        requires own { IsOf self.now pass.old.lock }
        requires idle { is_busy pass.old.seat pass.old.front ≡ false }
        requires named { names_sub pass.old.head (an_op.Setup state sub (unlocked_form true)) ≡ true }
        ensures { RanWith H.counts pass.old pass.new (an_op.Setup state sub (unlocked_form true)) (Some hook) result }
    {
        let form = unlocked(true);
        self.register(rt, gate, pass, Op::Setup { state, sub, form }, Some(hook))
    }

    /// Takes a state's registration away, with its callbacks: `Remove`, as `cpu_up`.
    ///
    /// The state's hook comes back where the answer is Ok, with its subsystem's plan and the counts of the calls that the
    /// journal before the answer has of the state since its setup began. After `cpuhp_remove_state` of
    /// `linux/cpuhotplug.h`; that it can be refused, and never fails, is this project's own.
    pub fn remove_state<R: Wait, G: Gate>(
        &self,
        rt: &R,
        gate: &G,
        pass: &mut Pass<H>,
        state: u32,
    ) -> Result<Done<H>, HookBack<H>>
        requires own { IsOf self.now pass.old.lock }
        requires idle { is_busy pass.old.seat pass.old.front ≡ false }
        ensures { RanWith H.counts pass.old pass.new (an_op.Remove state (unlocked_form false)) None result }
    {
        let form = unlocked(false);
        self.register(rt, gate, pass, Op::Remove { state, form }, None)
    }

    /// Takes a state's registration away, without its callbacks: `Remove`, as `cpu_up`.
    ///
    /// The state's hook comes back as of `remove_state`. After `cpuhp_remove_state_nocalls` of `linux/cpuhotplug.h`; that
    /// it can be refused, and never fails, is this project's own.
    pub fn remove_state_nocalls<R: Wait, G: Gate>(
        &self,
        rt: &R,
        gate: &G,
        pass: &mut Pass<H>,
        state: u32,
    ) -> Result<Done<H>, HookBack<H>>
        requires own { IsOf self.now pass.old.lock }
        requires idle { is_busy pass.old.seat pass.old.front ≡ false }
        ensures { RanWith H.counts pass.old pass.new (an_op.Remove state (unlocked_form true)) None result }
    {
        let form = unlocked(true);
        self.register(rt, gate, pass, Op::Remove { state, form }, None)
    }

    /// One whole registration.
    fn register<R: Wait, G: Gate>(
        &self,
        rt: &R,
        gate: &G,
        pass: &mut Pass<H>,
        op: Op,
        hook: Option<H>,
    ) -> Result<Done<H>, HookBack<H>>
        requires own { IsOf self.now pass.old.lock }
        requires idle { is_busy pass.old.seat pass.old.front ≡ false }
        requires op { op ≢ an_op.Lock }
        requires named { names_sub pass.old.head op ≡ true }
        requires hook { is_some hook ≡ is_setup op }
        ensures { RanWith H.counts pass.old pass.new op hook result }
    {
        let mut ask = Ask { op, hook };
        let ran = self.finish(rt, gate, pass, &mut ask);
        let Ask { hook, .. } = ask;
        match ran {
            Ok(answer) => Ok(Done { answer, hook }),
            Err(NoMemory) => Err(HookBack { hook }),
        }
    }
}
