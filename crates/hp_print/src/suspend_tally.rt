//! How often hotplug is disabled, and which processors are frozen.

ghost use Rattle.std.specs.Prelude.{◌≡◌, if◌then◌else◌, OnOk, []};
ghost use Rattle.hp_model.specs.Suspend.{is_freeze};
ghost use Rattle.hp_print.specs.Counting.{disabled_entered, disabled_ended, frozen_walked, frozen_ended};

use hp_event::{Answer, Op};
use std::alloc::{AllocError, Global};

/// What is tallied of what operations of the map lock left behind.
#[derive(Drop)]
pub struct SuspendTally {
    /// The operation that holds the map lock.
    pub op: Option<Op>,
    /// How often hotplug is disabled.
    pub disabled: usize,
    /// The processors that a freeze recorded.
    pub frozen: Vec<u32>,
}

impl SuspendTally {
    /// What is left behind before any event.
    pub fn new(alloc: Global) -> SuspendTally
        ensures op { result.op ≡ None }
        ensures disabled { result.disabled ≡ 0 }
        ensures frozen { result.frozen.items ≡ [] }
    {
        SuspendTally {
            op: None,
            disabled: 0,
            frozen: Vec::new(alloc),
        }
    }

    /// An operation takes the map lock.
    pub fn enter(&mut self, op: Op)
        ensures op { self.new.op ≡ Some op }
        ensures disabled { self.new.disabled ≡ disabled_entered self.old op }
        ensures frozen { self.new.frozen.items ≡ (if is_freeze op then [] else self.old.frozen.items) }
    {
        match op {
            Op::Thaw => self.disabled = self.disabled.saturating_sub(1),
            Op::Freeze(_) => self.frozen.clear(),
            _ => {}
        }
        self.op = Some(op);
    }

    /// A walk of the operation ends.
    pub fn end_walk(&mut self, cpu: u32, answer: Answer) -> Result<(), AllocError>
        ensures op { self.new.op ≡ self.old.op }
        ensures disabled { self.new.disabled ≡ self.old.disabled }
        ensures frozen { OnOk result (self.new.frozen.items ≡ frozen_walked self.old cpu answer) }
    {
        if matches!(self.op, Some(Op::Freeze(_))) && answer.is_ok() {
            self.frozen.push(cpu)?;
        }
        Ok(())
    }

    /// The operation gives the map lock back.
    pub fn end(&mut self)
        ensures op { self.new.op ≡ None }
        ensures disabled { self.new.disabled ≡ disabled_ended self.old }
        ensures frozen { self.new.frozen.items ≡ frozen_ended self.old }
    {
        match self.op {
            Some(Op::Disable | Op::Freeze(_)) => self.disabled = self.disabled.saturating_add(1),
            Some(Op::Enable) => self.disabled = self.disabled.saturating_sub(1),
            Some(Op::Thaw) => self.frozen.clear(),
            _ => {}
        }
        self.op = None;
    }
}
