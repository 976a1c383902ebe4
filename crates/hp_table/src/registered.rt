//! What is registered at one state.

ghost use Rattle.std.specs.Prelude.{◌≡◌, ◌<◌, ◌≤◌, ◌↔◌, true, false, Some, IsSome, IfSome, OnOk, OnErr, IfErr, length, slice_index};
ghost use Rattle.hp_states.specs.declared.limits.TheConstants.{MAX_INSTANCES};
ghost use Rattle.hp_states.specs.Rules.{site_at};
ghost use Rattle.hp_table.specs.Kept.{answer_at};
ghost use Rattle.hp_table.specs.Step.{bare, called_step, loaded_step, lent_step, step_with};
ghost use Rattle.hp_table.specs.Instances.{with_instance, without_instance};
ghost use Rattle.hp_table.specs.Keys.{insts_of, keys_of};

use crate::error::TableError;
use crate::record::Record;
use hp_hook::Hook;
use hp_states::{Dir, HookPlan, MAX_EVENTS};
use std::alloc::Global;
use std::marker::Model;

/// A registered state: its record, and its instances, newest first.
#[derive(Drop)]
pub struct Registered<H: Hook> {
    record: Record<H>,
    insts: Vec<u32>,
}

impl<H: Hook> Model for Registered<H> {
    ghost use Rattle.hp_table.specs.Step.{Step};

    ghost Value = { Step };

    ghost view = { λ r. record { kept = r.record; insts = r.insts.items } };
}

impl<H: Hook> Registered<H> {
    /// A record without instances.
    pub fn new(alloc: Global, rec: Record<H>) -> Registered<H>
        ensures { result ≡ bare rec }
    {
        Registered {
            record: rec,
            insts: Vec::new(alloc),
        }
    }

    /// The record, given back.
    pub fn into_record(self) -> Record<H>
        ensures { result ≡ self.kept }
    {
        let Registered { record, insts: _ } = self;
        record
    }

    /// The record.
    pub fn record(&self) -> &Record<H>
        ensures { result.now ≡ self.now.kept }
    {
        &self.record
    }

    /// The instances, newest first.
    pub fn instances(&self) -> &[u32]
        ensures { result.now ≡ self.now.insts }
    {
        self.insts.as_slice()
    }

    /// Whether the state has an instance list.
    pub fn is_multi(&self) -> bool
        ensures { result ≡ self.now.kept.multi }
    {
        self.record.multi
    }

    /// How many keys the state has.
    pub fn key_count(&self) -> u32
        requires { length self.now.insts ≤ MAX_INSTANCES }
        ensures { result ≡ keys_of (Some self.now) }
    {
        if self.record.multi {
            self.insts.len() as u32
        } else {
            1
        }
    }

    /// The instance of a key: of a state without an instance list 0.
    pub fn key_inst(&self, key: u32) -> u32
        requires { key < length (insts_of (Some self.now)) }
        ensures { result ≡ slice_index (insts_of (Some self.now)) key }
    {
        if self.record.multi {
            self.insts[key as usize]
        } else {
            0
        }
    }

    /// Adds an instance, which becomes the newest.
    pub fn add(&mut self, inst: u32) -> Result<(), TableError>
        ensures ok { OnOk result (self.new ≡ with_instance inst self.old) }
        ensures no_memory { IfErr result (λ error. error ≡ TableError.NoMemory) }
        ensures err { OnErr result (self.new ≡ self.old) }
    {
        match self.insts.insert(0, inst) {
            Ok(()) => Ok(()),
            Err(_) => Err(TableError::NoMemory),
        }
    }

    /// Takes an instance out; the others keep their order.
    pub fn remove(&mut self, inst: u32)
        ensures { self.new ≡ without_instance inst self.old }
    {
        self.insts.retain(|other| *other != inst);
    }

    /// Takes all instances out.
    pub fn clear(&mut self)
        ensures { self.new ≡ bare self.old.kept }
    {
        self.insts.clear();
    }

    /// Calls the hook.
    pub fn call(&mut self, cpu: u32, inst: u32, dir: Dir) -> u32
        requires home { self.old.kept.home ≡ true }
        requires few { self.old.kept.counts.made < MAX_EVENTS }
        ensures answer { result ≡ answer_at self.old.kept (site_at cpu inst dir) }
        ensures called { self.new ≡ called_step (site_at cpu inst dir) self.old }
    {
        match &mut self.record.hook {
            Some(hook) => hook.call(cpu, inst, dir),
            None => unreachable!(),
        }
    }

    /// Loads the hook.
    pub fn load(&mut self, plan: HookPlan)
        requires { self.old.kept.home ≡ true }
        ensures { self.new ≡ loaded_step plan self.old }
    {
        match &mut self.record.hook {
            Some(hook) => hook.load(plan),
            None => unreachable!(),
        }
    }

    /// Lends the hook, if it is there.
    pub fn lend(&mut self) -> Option<H>
        ensures some { IsSome result ↔ (self.old.kept.home ≡ true) }
        ensures hook { IfSome result (λ h. H.counts h ≡ self.old.kept.counts) }
        ensures lent { self.new ≡ lent_step self.old }
    {
        self.record.lend()
    }

    /// Takes a hook, in place of the one that is lent.
    pub fn restore(&mut self, hook: H)
        requires { self.old.kept.home ≡ false }
        ensures { self.new ≡ step_with (H.counts hook) self.old }
    {
        self.record.restore(hook);
    }
}
