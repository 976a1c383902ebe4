//! Where processors stand, and how often the entries of their keys are done.

ghost use Rattle.std.specs.Prelude.{◌≡◌, ℕ, IfOk, OnOk, [], slice_set, slice_index_or, replicate};
ghost use Rattle.hp_states.specs.declared.limits.TheConstants.{ONLINE};
ghost use Rattle.hp_print.specs.Tallies.{IsProcessorTally};
ghost use Rattle.hp_print.specs.Counts.{AreInOrder, counted_at};
ghost use Rattle.hp_print.specs.Counting.{settled_walked};

use crate::keys::KeyCounts;
use hp_event::{Answer, Key};
use hp_states::{Dir, OFFLINE, first_state};
use std::alloc::{AllocError, Global};

/// What is tallied of the processors of a journal, each at its number.
#[derive(Drop)]
pub struct ProcessorTally {
    /// The settled states.
    pub settled: Vec<u32>,
    /// The targets of the walks in flight.
    pub targets: Vec<Option<u32>>,
    /// How often the entries of each key are done.
    pub keys: Vec<KeyCounts>,
}

/// The settled states before any event: processor 0 is up, the others are down.
fn first_settled(alloc: Global, many: usize) -> Result<Vec<u32>, AllocError>
    ensures { IfOk result (λ v. v.items ≡ slice_set (replicate many OFFLINE) 0 ONLINE) }
{
    let mut settled = vec![in alloc; OFFLINE; many]?;
    if many > 0 {
        settled[0] = first_state(0);
    }
    Ok(settled)
}

impl ProcessorTally {
    /// The processors before any event.
    pub fn new(alloc: Global, possible: u32) -> Result<ProcessorTally, AllocError>
        ensures { IfOk result (λ w. IsProcessorTally possible [] w) }
    {
        let many = possible as usize;
        let settled = first_settled(alloc, many)?;
        let mut targets = Vec::new(alloc);
        let mut keys = Vec::new(alloc);
        for _ in 0..many {
            targets.push(None)?;
            keys.push(KeyCounts::new(alloc))?;
        }
        Ok(ProcessorTally {
            settled,
            targets,
            keys,
        })
    }

    /// A walk begins.
    pub fn begin(&mut self, cpu: u32, to: u32)
        ensures targets { self.new.targets.items ≡ slice_set self.old.targets.items cpu (Some to) }
        ensures settled { self.new.settled.items ≡ self.old.settled.items }
        ensures keys { self.new.keys.items ≡ self.old.keys.items }
    {
        let at = cpu as usize;
        if at < self.targets.len() {
            self.targets[at] = Some(to);
        }
    }

    /// An entry of a key.
    pub fn call(&mut self, cpu: u32, key: Key, dir: Dir, done: bool) -> Result<(), AllocError>
        requires order { (c : ℕ) → AreInOrder (slice_index_or self.old.keys.items c []) }
        ensures targets { self.new.targets.items ≡ self.old.targets.items }
        ensures settled { self.new.settled.items ≡ self.old.settled.items }
        ensures keys { OnOk result (self.new.keys.items ≡ counted_at cpu key dir done self.old.keys.items) }
    {
        let at = cpu as usize;
        if at < self.keys.len() {
            self.keys[at].count(key, dir, done)
        } else {
            Ok(())
        }
    }

    /// A walk ends.
    pub fn end(&mut self, cpu: u32, answer: Answer)
        ensures targets { self.new.targets.items ≡ slice_set self.old.targets.items cpu None }
        ensures settled { self.new.settled.items ≡ settled_walked self.old cpu answer }
        ensures keys { self.new.keys.items ≡ self.old.keys.items }
    {
        let at = cpu as usize;
        let target = self.targets.get(at).copied().unwrap_or(None);
        if at < self.settled.len() {
            let stood = self.settled[at];
            self.settled[at] = answer.leaves_at(target.unwrap_or(stood), stood);
        }
        if at < self.targets.len() {
            self.targets[at] = None;
        }
    }
}
