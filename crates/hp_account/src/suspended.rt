//! What a suspend leaves.

ghost use Rattle.std.specs.Prelude.{◌≡◌, ◌<◌, ◌+◌, IfOk, false, get_or, length, replicate};
ghost use Rattle.hp_states.specs.declared.limits.TheConstants.{MAX_EVENTS};
ghost use Rattle.hp_account.specs.Suspended.{once_entered, walked, ended, woken, nothing_suspended};

use hp_event::{Answer, Op};
use hp_states::{MAX_EVENTS, NoMemory};
use std::alloc::Global;
use std::marker::Model;

/// How often hotplug is disabled, which processors are frozen, and whether a wakeup is pending.
///
/// Contracts see these three (`Suspension`), of each possible processor whether it is frozen. After
/// `cpu_hotplug_disabled`, `frozen_cpus` and `pm_wakeup_pending` of `kernel/cpu.c`.
#[derive(Drop)]
pub struct Suspended {
    disabled: u32,
    frozen: Vec<bool>,
    wakeup: bool,
}

impl Model for Suspended {
    ghost use Rattle.hp_account.specs.Suspended.{SuspendedView};

    ghost Value = { SuspendedView };

    ghost view = { λ s. record { disabled = s.disabled; frozen = s.frozen.items; wakeup = s.wakeup } };
}

impl Suspended {
    /// What stands at the start: hotplug is enabled, no processor is frozen, no wakeup pending. Takes
    /// memory for a place for each possible processor.
    pub fn new(alloc: Global, cpus: u32) -> Result<Suspended, NoMemory>
        ensures { IfOk result (λ s. s ≡ nothing_suspended cpus) }
    {
        Ok(Suspended {
            disabled: 0,
            frozen: vec![in alloc; false; cpus as usize]?,
            wakeup: false,
        })
    }

    /// How often hotplug is disabled. Takes no memory.
    pub fn disabled(&self) -> u32
        ensures { result ≡ self.now.disabled }
    {
        self.disabled
    }

    /// Of each processor whether it is frozen. Takes no memory.
    pub fn frozen(&self) -> &[bool]
        ensures { result.now ≡ self.now.frozen }
    {
        self.frozen.as_slice()
    }

    /// Whether a processor is frozen, which is one of the machine's. Takes no memory.
    pub fn is_frozen(&self, cpu: u32) -> bool
        requires { cpu < length self.now.frozen }
        ensures { result ≡ get_or self.now.frozen cpu false }
    {
        self.frozen[cpu as usize]
    }

    /// Whether a wakeup is pending. Takes no memory.
    pub fn wakeup(&self) -> bool
        ensures { result ≡ self.now.wakeup }
    {
        self.wakeup
    }

    /// An operation begins: a thaw takes back a count of a freeze, and a freeze begins its record.
    /// Takes no memory. After `thaw_secondary_cpus` and `freeze_secondary_cpus` of `kernel/cpu.c`.
    pub fn enter(&mut self, op: Op)
        ensures { self.new ≡ once_entered op self.old }
    {
        match op {
            Op::Thaw => self.disabled = self.disabled.saturating_sub(1),
            Op::Freeze(_) => self.thaw_all(),
            _ => {}
        }
    }

    /// A walk of an operation ends: a freeze records a processor that it took down. Takes no memory.
    pub fn end_walk(&mut self, op: Op, cpu: u32, answer: Answer)
        requires { cpu < length self.old.frozen }
        ensures { self.new ≡ walked op cpu answer self.old }
    {
        if let (Op::Freeze(_), Answer::Ok(_)) = (op, answer) {
            self.frozen[cpu as usize] = true;
        }
    }

    /// An operation ends: a disable and a freeze count once more, an enable takes a count back, a
    /// freeze clears the pending wakeup, and a thaw empties the record. Takes no memory.
    pub fn leave(&mut self, op: Op)
        requires { self.old.disabled < MAX_EVENTS }
        ensures { self.new ≡ ended op self.old }
    {
        match op {
            Op::Disable => self.disabled += 1,
            Op::Enable => self.disabled = self.disabled.saturating_sub(1),
            Op::Freeze(_) => {
                self.disabled += 1;
                self.wakeup = false;
            }
            Op::Thaw => self.thaw_all(),
            _ => {}
        }
    }

    /// A wakeup is pending from here. Takes no memory.
    pub fn wake(&mut self)
        ensures { self.new ≡ woken self.old }
    {
        self.wakeup = true;
    }

    /// Empties the record of frozen processors.
    fn thaw_all(&mut self)
        ensures { self.new ≡ record self.old { frozen = replicate (length self.old.frozen) false } }
    {
        self.frozen.fill(false);
    }
}
