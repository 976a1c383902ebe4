//! What is registered at each state, and what its hook did.

ghost use Rattle.std.specs.Prelude.{◌≡◌, ◌+◌, IfOk, OnOk, [], slice_set};
ghost use Rattle.hp_model.specs.Calls.{is_called};
ghost use Rattle.hp_model.specs.Summary.{is_hook_fault};
ghost use Rattle.hp_event.specs.declared.head.Head.{Head};
ghost use Rattle.hp_print.specs.Counts.{one_more_at};
ghost use Rattle.hp_print.specs.Tallies.{IsStateTally};
ghost use Rattle.hp_print.specs.Steps.{subs_applied, sub_after, insts_after, begun_anew, with_call};
ghost use Rattle.hp_print.specs.Counting.{subs_ended, insts_with, insts_ended};

use crate::instance_list::InstanceList;
use hp_event::{Answer, How, Op};
use hp_states::ONLINE;
use std::alloc::{AllocError, Global};

/// The registration in flight: its resolved state and its operation.
#[derive(Clone, Copy)]
pub struct Asked {
    pub state: u32,
    pub op: Op,
}

/// What is tallied of the states of a journal, each at its number.
#[derive(Drop)]
pub struct StateTally {
    /// The registration in flight.
    pub asked: Option<Asked>,
    /// The number of the subsystem that is registered.
    pub subs: Vec<Option<u32>>,
    /// The instances.
    pub insts: Vec<InstanceList>,
    /// How often the hook was called since its setup began.
    pub made: Vec<usize>,
    /// How often it answered a code.
    pub faults: Vec<usize>,
}

/// Counts one more at a state.
fn raise(counts: &mut Vec<usize>, state: u32)
    ensures { counts.new.items
        ≡ one_more_at state counts.old.items }
{
    let at = state as usize;
    if at < counts.len() {
        counts[at] = counts[at].saturating_add(1);
    }
}

/// Begins the count of a state anew.
fn reset(counts: &mut Vec<usize>, state: u32)
    ensures { counts.new.items ≡ slice_set counts.old.items state 0 }
{
    let at = state as usize;
    if at < counts.len() {
        counts[at] = 0;
    }
}

/// Makes of the instances of a state what an operation makes of them.
fn apply_to(insts: &mut InstanceList, found: Option<u32>, op: Op) -> Result<(), AllocError>
    ensures { OnOk result (insts.new ≡ insts_after op found insts.old) }
{
    match op {
        Op::Setup { .. } | Op::Remove { .. } => insts.clear(),
        Op::Add { inst, .. } => {
            if found.is_some() {
                insts.add(inst)?;
            }
        }
        Op::Del { inst, .. } => insts.remove(inst),
        _ => {}
    }
    Ok(())
}

/// The subsystem of a state after an operation.
fn sub_of(op: Op, found: Option<u32>) -> Option<u32>
    ensures { result ≡ sub_after op found }
{
    match op {
        Op::Setup { sub, .. } => Some(sub),
        Op::Remove { .. } => None,
        _ => found,
    }
}

impl StateTally {
    /// The states before any event: nothing is registered.
    pub fn new(alloc: Global) -> Result<StateTally, AllocError>
        ensures { IfOk result (λ t. (head : Head) → IsStateTally head (ONLINE + 1) [] t) }
    {
        let many = ONLINE as usize + 1;
        let mut subs = Vec::new(alloc);
        let mut insts = Vec::new(alloc);
        for _ in 0..many {
            subs.push(None)?;
            insts.push(InstanceList::new(alloc))?;
        }
        let made = vec![in alloc; 0; many]?;
        let faults = vec![in alloc; 0; many]?;
        Ok(StateTally {
            asked: None,
            subs,
            insts,
            made,
            faults,
        })
    }

    /// A registration begins.
    pub fn begin(&mut self, state: u32, op: Op)
        ensures asked { self.new.asked ≡ Some (record { state = state; op = op }) }
        ensures subs { self.new.subs.items ≡ self.old.subs.items }
        ensures insts { self.new.insts.items ≡ self.old.insts.items }
        ensures made { self.new.made.items ≡ begun_anew op state self.old.made.items }
        ensures faults { self.new.faults.items ≡ begun_anew op state self.old.faults.items }
    {
        if op.is_setup() {
            reset(&mut self.made, state);
            reset(&mut self.faults, state);
        }
        self.asked = Some(Asked { state, op });
    }

    /// An entry of a state.
    pub fn call(&mut self, state: u32, how: How)
        ensures asked { self.new.asked ≡ self.old.asked }
        ensures subs { self.new.subs.items ≡ self.old.subs.items }
        ensures insts { self.new.insts.items ≡ self.old.insts.items }
        ensures made { self.new.made.items ≡ with_call is_called how state self.old.made.items }
        ensures faults { self.new.faults.items ≡ with_call is_hook_fault how state self.old.faults.items }
    {
        if how.is_called() {
            raise(&mut self.made, state);
        }
        if how.is_hook_fault() {
            raise(&mut self.faults, state);
        }
    }

    /// The registration ends.
    pub fn end(&mut self, answer: Answer) -> Result<(), AllocError>
        ensures asked { OnOk result (self.new.asked ≡ None) }
        ensures subs { OnOk result (self.new.subs.items ≡ subs_ended self.old answer) }
        ensures insts { OnOk result (self.new.insts.items ≡ insts_ended self.old answer) }
        ensures made { self.new.made.items ≡ self.old.made.items }
        ensures faults { self.new.faults.items ≡ self.old.faults.items }
    {
        let asked = self.asked;
        self.asked = None;
        match asked {
            Some(asked) if answer.is_ok() => self.apply(asked),
            _ => Ok(()),
        }
    }

    /// Makes of what is registered what an operation that is done makes of it.
    fn apply(&mut self, asked: Asked) -> Result<(), AllocError>
        ensures asked { self.new.asked ≡ self.old.asked }
        ensures subs { OnOk result (self.new.subs.items ≡ subs_applied (Some asked) self.old.subs.items) }
        ensures insts { OnOk result (self.new.insts.items ≡ insts_with self.old asked) }
        ensures made { self.new.made.items ≡ self.old.made.items }
        ensures faults { self.new.faults.items ≡ self.old.faults.items }
    {
        let at = asked.state as usize;
        let found = self.subs.get(at).copied().unwrap_or(None);
        if at < self.insts.len() {
            apply_to(&mut self.insts[at], found, asked.op)?;
        }
        if at < self.subs.len() {
            self.subs[at] = sub_of(asked.op, found);
        }
        Ok(())
    }
}
