//! Operations by name.

ghost use Rattle.std.specs.Prelude.{◌≡◌, ◌≢◌, true, false, None, IfOk, OnErr, is_some};
ghost use Rattle.hp_account.specs.TableChanges.{is_setup, hands_out};
ghost use Rattle.hp_event.specs.declared.event.File.TheVariants.{States as StatesFile};
ghost use Rattle.hp_event.specs.declared.op.Op.TheVariants as an_op;
ghost use Rattle.hp_live.specs.Forms.{Ran, unlocked as unlocked_form};
ghost use Rattle.hp_live.specs.Known.{IsOf};
ghost use Rattle.hp_live.specs.Runs.{ComesBack};
ghost use Rattle.hp_model.specs.Events.{showing};
ghost use Rattle.hp_model.specs.Seats.{is_busy};
ghost use Rattle.hp_model.specs.Subsystems.{names_sub};

use crate::gate::Gate;
use crate::hotplug::Hotplug;
use crate::pass::Pass;
use hp_board::Ask;
use hp_event::{Answer, File, Form, Op};
use hp_hook::Hook;
use hp_states::NoMemory;
use std::sync::Wait;

impl<H: Hook + Send> Hotplug<H> {
    /// Brings a processor up: `run` with `Up`.
    ///
    /// Conditions: this machine gave the pass, and no operation of its seat is in flight by its front. What it
    /// begins it finishes: once an event of it is made it waits for memory.
    /// - `NoMemory` where memory was wanting for the first event; no event is made then.
    ///
    /// After `cpu_up` of `kernel/cpu.c`; what a second fault does is this project's own.
    pub fn cpu_up<R: Wait, G: Gate>(
        &self,
        rt: &R,
        gate: &G,
        pass: &mut Pass<H>,
        cpu: u32,
    ) -> Result<Answer, NoMemory>
        requires own { IsOf self.now pass.old.lock }
        requires idle { is_busy pass.old.seat pass.old.front ≡ false }
        ensures { Ran pass.old pass.new (an_op.Up cpu) result }
    {
        self.call(rt, gate, pass, Op::Up(cpu))
    }

    /// Takes a processor down: as `cpu_up`, with `Down`. After `cpu_down` of `kernel/cpu.c`; that nothing fails in
    /// PREPARE, and what a second fault does, is this project's own.
    pub fn cpu_down<R: Wait, G: Gate>(
        &self,
        rt: &R,
        gate: &G,
        pass: &mut Pass<H>,
        cpu: u32,
    ) -> Result<Answer, NoMemory>
        requires own { IsOf self.now pass.old.lock }
        requires idle { is_busy pass.old.seat pass.old.front ≡ false }
        ensures { Ran pass.old pass.new (an_op.Down cpu) result }
    {
        self.call(rt, gate, pass, Op::Down(cpu))
    }

    /// Writes the `target` file of a processor: as `cpu_up`, with `Target`. After `target_store` of `kernel/cpu.c`;
    /// which states are refused is this project's own.
    pub fn write_target<R: Wait, G: Gate>(
        &self,
        rt: &R,
        gate: &G,
        pass: &mut Pass<H>,
        cpu: u32,
        value: i32,
    ) -> Result<Answer, NoMemory>
        requires own { IsOf self.now pass.old.lock }
        requires idle { is_busy pass.old.seat pass.old.front ≡ false }
        ensures { Ran pass.old pass.new (an_op.Target cpu value) result }
    {
        self.call(rt, gate, pass, Op::Target(cpu, value))
    }

    /// Writes the `fail` file of a processor: as `cpu_up`, with `Arm`. After `fail_store` of `kernel/cpu.c`; what
    /// takes the fault is this project's own.
    pub fn write_fail<R: Wait, G: Gate>(
        &self,
        rt: &R,
        gate: &G,
        pass: &mut Pass<H>,
        cpu: u32,
        value: i32,
    ) -> Result<Answer, NoMemory>
        requires own { IsOf self.now pass.old.lock }
        requires idle { is_busy pass.old.seat pass.old.front ≡ false }
        ensures { Ran pass.old pass.new (an_op.Arm cpu value) result }
    {
        self.call(rt, gate, pass, Op::Arm(cpu, value))
    }

    /// Brings processors up until so many are online: as `cpu_up`, with `Boot`. After `bringup_nonboot_cpus` of
    /// `kernel/cpu.c`; that it answers how many walks failed is this project's own.
    pub fn boot<R: Wait, G: Gate>(
        &self,
        rt: &R,
        gate: &G,
        pass: &mut Pass<H>,
        max: u32,
    ) -> Result<Answer, NoMemory>
        requires own { IsOf self.now pass.old.lock }
        requires idle { is_busy pass.old.seat pass.old.front ≡ false }
        ensures { Ran pass.old pass.new (an_op.Boot max) result }
    {
        self.call(rt, gate, pass, Op::Boot(max))
    }

    /// Disables hotplug once more: as `cpu_up`, with `Disable`. After `cpu_hotplug_disable` of `kernel/cpu.c`.
    pub fn disable<R: Wait, G: Gate>(
        &self,
        rt: &R,
        gate: &G,
        pass: &mut Pass<H>,
    ) -> Result<Answer, NoMemory>
        requires own { IsOf self.now pass.old.lock }
        requires idle { is_busy pass.old.seat pass.old.front ≡ false }
        ensures { Ran pass.old pass.new an_op.Disable result }
    {
        self.call(rt, gate, pass, Op::Disable)
    }

    /// Enables hotplug once more: as `cpu_up`, with `Enable`. After `cpu_hotplug_enable` of `kernel/cpu.c`, which
    /// warns where hotplug isn't disabled, and goes on.
    pub fn enable<R: Wait, G: Gate>(
        &self,
        rt: &R,
        gate: &G,
        pass: &mut Pass<H>,
    ) -> Result<Answer, NoMemory>
        requires own { IsOf self.now pass.old.lock }
        requires idle { is_busy pass.old.seat pass.old.front ≡ false }
        ensures { Ran pass.old pass.new an_op.Enable result }
    {
        self.call(rt, gate, pass, Op::Enable)
    }

    /// Takes all processors down but one: as `cpu_up`, with `Freeze`. After `freeze_secondary_cpus` of
    /// `kernel/cpu.c`.
    pub fn freeze<R: Wait, G: Gate>(
        &self,
        rt: &R,
        gate: &G,
        pass: &mut Pass<H>,
        primary: i32,
    ) -> Result<Answer, NoMemory>
        requires own { IsOf self.now pass.old.lock }
        requires idle { is_busy pass.old.seat pass.old.front ≡ false }
        ensures { Ran pass.old pass.new (an_op.Freeze primary) result }
    {
        self.call(rt, gate, pass, Op::Freeze(primary))
    }

    /// Brings up again what a freeze took down: as `cpu_up`, with `Thaw`. After `thaw_secondary_cpus` of
    /// `kernel/cpu.c`; that it answers how many walks failed is this project's own.
    pub fn thaw<R: Wait, G: Gate>(
        &self,
        rt: &R,
        gate: &G,
        pass: &mut Pass<H>,
    ) -> Result<Answer, NoMemory>
        requires own { IsOf self.now pass.old.lock }
        requires idle { is_busy pass.old.seat pass.old.front ≡ false }
        ensures { Ran pass.old pass.new an_op.Thaw result }
    {
        self.call(rt, gate, pass, Op::Thaw)
    }

    /// Makes a wakeup pending: as `cpu_up`, with `Wakeup`. After `pm_wakeup_pending` of
    /// `drivers/base/power/wakeup.c`.
    pub fn wakeup<R: Wait, G: Gate>(
        &self,
        rt: &R,
        gate: &G,
        pass: &mut Pass<H>,
    ) -> Result<Answer, NoMemory>
        requires own { IsOf self.now pass.old.lock }
        requires idle { is_busy pass.old.seat pass.old.front ≡ false }
        ensures { Ran pass.old pass.new an_op.Wakeup result }
    {
        self.call(rt, gate, pass, Op::Wakeup)
    }

    /// Shows a file of a processor, `state`, `target` or `fail`: as `cpu_up`, with the operation that shows it.
    ///
    /// Condition: the file isn't `States`. After the attributes of `kernel/cpu.c`.
    pub fn read_file<R: Wait, G: Gate>(
        &self,
        rt: &R,
        gate: &G,
        pass: &mut Pass<H>,
        cpu: u32,
        file: File,
    ) -> Result<Answer, NoMemory>
        requires own { IsOf self.now pass.old.lock }
        requires idle { is_busy pass.old.seat pass.old.front ≡ false }
        requires file { file ≢ StatesFile }
        ensures { Ran pass.old pass.new (showing file cpu) result }
    {
        let op = match file {
            File::State => Op::ShowState(cpu),
            File::Target => Op::ShowTarget(cpu),
            File::Fail => Op::ShowFail(cpu),
            File::States => unreachable!(),
        };
        self.call(rt, gate, pass, op)
    }

    /// Adds an instance to a state: as `cpu_up`, with `Add`. After `cpuhp_state_add_instance` of
    /// `linux/cpuhotplug.h`; that an instance which is there already is refused is this project's own.
    pub fn add_instance<R: Wait, G: Gate>(
        &self,
        rt: &R,
        gate: &G,
        pass: &mut Pass<H>,
        state: u32,
        inst: u32,
    ) -> Result<Answer, NoMemory>
        requires own { IsOf self.now pass.old.lock }
        requires idle { is_busy pass.old.seat pass.old.front ≡ false }
        ensures { Ran pass.old pass.new (an_op.Add state inst (unlocked_form false)) result }
    {
        let form = unlocked(false);
        self.call(rt, gate, pass, Op::Add { state, inst, form })
    }

    /// Takes an instance from a state: as `cpu_up`, with `Del`. After `cpuhp_state_remove_instance` of
    /// `linux/cpuhotplug.h`.
    pub fn remove_instance<R: Wait, G: Gate>(
        &self,
        rt: &R,
        gate: &G,
        pass: &mut Pass<H>,
        state: u32,
        inst: u32,
    ) -> Result<Answer, NoMemory>
        requires own { IsOf self.now pass.old.lock }
        requires idle { is_busy pass.old.seat pass.old.front ≡ false }
        ensures { Ran pass.old pass.new (an_op.Del state inst (unlocked_form false)) result }
    {
        let form = unlocked(false);
        self.call(rt, gate, pass, Op::Del { state, inst, form })
    }

    /// One whole operation that brings no hook and gets none.
    fn call<R: Wait, G: Gate>(
        &self,
        rt: &R,
        gate: &G,
        pass: &mut Pass<H>,
        op: Op,
    ) -> Result<Answer, NoMemory>
        requires own { IsOf self.now pass.old.lock }
        requires idle { is_busy pass.old.seat pass.old.front ≡ false }
        requires op { op ≢ an_op.Lock }
        requires named { names_sub pass.old.head op ≡ true }
        requires plain { is_setup op ≡ false }
        ensures { Ran pass.old pass.new op result }
    {
        let mut ask = Ask { op, hook: None };
        self.finish(rt, gate, pass, &mut ask)
    }

    /// One whole operation of the pass's seat, which has none in flight: it finishes what it begins.
    pub(crate) fn finish<R: Wait, G: Gate>(
        &self,
        rt: &R,
        gate: &G,
        pass: &mut Pass<H>,
        ask: &mut Ask<H>,
    ) -> Result<Answer, NoMemory>
        requires own { IsOf self.now pass.old.lock }
        requires idle { is_busy pass.old.seat pass.old.front ≡ false }
        requires op { ask.old.op ≢ an_op.Lock }
        requires named { names_sub pass.old.head ask.old.op ≡ true }
        requires hook { is_some ask.old.hook ≡ is_setup ask.old.op }
        ensures ran { Ran pass.old pass.new ask.old.op result }
        ensures hook { IfOk result (λ answer. is_some ask.new.hook ≡ hands_out ask.old.op answer) }
        ensures back { IfOk result (ComesBack H.counts pass.old.head pass.old.seat ask.old.op
            pass.old.front pass.new.front ask.old.hook ask.new.hook) }
        ensures as_before { OnErr result (ask.new ≡ ask.old) }
    {
        pass.sound();
        let ran = self.run_seat(rt, gate, &mut pass.own, ask, true);
        pass.sound();
        ran
    }
}

/// A form without the read lock.
pub(crate) fn unlocked(nocalls: bool) -> Form
    ensures { result ≡ unlocked_form nocalls }
{
    Form {
        nocalls,
        locked: false,
    }
}
