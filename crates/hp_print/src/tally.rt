//! A tally of a journal's events, made in one pass.

ghost use Rattle.std.specs.Prelude.{◌≡◌, ℕ, [], IfOk, OnOk, slice_index_or};
ghost use Rattle.hp_model.specs.Summary.{ok, refused, fault, stuck, full};
ghost use Rattle.hp_print.specs.Counts.{AreInOrder};
ghost use Rattle.hp_print.specs.Steps.{op_after, asked_after};
ghost use Rattle.hp_print.specs.Tallies.{IsTally};
ghost use Rattle.hp_print.specs.Counting.{disabled_and, frozen_and, targets_and, settled_and, keys_and, subs_and, insts_and, made_and, faults_and, answered_and};

use crate::answer_counts::AnswerCounts;
use crate::processor_tally::ProcessorTally;
use crate::state_tally::StateTally;
use crate::suspend_tally::SuspendTally;
use hp_event::{Answer, Event, Head, Key};
use std::alloc::{AllocError, Global};

/// What a summary needs of some events.
#[derive(Drop)]
pub struct Tally {
    pub suspended: SuspendTally,
    pub processors: ProcessorTally,
    pub states: StateTally,
    pub answers: AnswerCounts,
}

impl Tally {
    /// The tally before any event.
    fn new(alloc: Global, head: &Head) -> Result<Tally, AllocError>
        ensures { IfOk result (λ t. IsTally head.now [] t) }
    {
        Ok(Tally {
            suspended: SuspendTally::new(alloc),
            processors: ProcessorTally::new(alloc, head.possible)?,
            states: StateTally::new(alloc)?,
            answers: AnswerCounts::new(),
        })
    }

    /// Counts one event more, in the parts that it concerns.
    fn count(&mut self, event: &Event) -> Result<(), AllocError>
        requires order { (c : ℕ) → AreInOrder (slice_index_or self.old.processors.keys.items c []) }
        ensures op { OnOk result (self.new.suspended.op ≡ op_after self.old.suspended.op event.now) }
        ensures disabled { OnOk result (self.new.suspended.disabled ≡ disabled_and self.old event.now) }
        ensures frozen { OnOk result (self.new.suspended.frozen.items ≡ frozen_and self.old event.now) }
        ensures targets { OnOk result (self.new.processors.targets.items ≡ targets_and self.old event.now) }
        ensures settled { OnOk result (self.new.processors.settled.items ≡ settled_and self.old event.now) }
        ensures keys { OnOk result (self.new.processors.keys.items ≡ keys_and self.old event.now) }
        ensures asked { OnOk result (self.new.states.asked ≡ asked_after self.old.states.asked event.now) }
        ensures subs { OnOk result (self.new.states.subs.items ≡ subs_and self.old event.now) }
        ensures insts { OnOk result (self.new.states.insts.items ≡ insts_and self.old event.now) }
        ensures made { OnOk result (self.new.states.made.items ≡ made_and self.old event.now) }
        ensures faults { OnOk result (self.new.states.faults.items ≡ faults_and self.old event.now) }
        ensures ok { OnOk result (self.new.answers.ok ≡ answered_and ok self.old event.now) }
        ensures refused { OnOk result (self.new.answers.refused ≡ answered_and refused self.old event.now) }
        ensures fault { OnOk result (self.new.answers.fault ≡ answered_and fault self.old event.now) }
        ensures stuck { OnOk result (self.new.answers.stuck ≡ answered_and stuck self.old event.now) }
        ensures full { OnOk result (self.new.answers.full ≡ answered_and full self.old event.now) }
    {
        match *event {
            Event::Call {
                cpu,
                state,
                inst,
                dir,
                how,
                ..
            } => {
                self.states.call(state, how);
                self.processors
                    .call(cpu, Key { state, inst }, dir, how.is_done())?;
            }
            Event::WalkBegin { cpu, to, .. } => self.processors.begin(cpu, to),
            Event::WalkEnd { cpu, answer, .. } => {
                self.processors.end(cpu, answer);
                self.suspended.end_walk(cpu, answer)?;
            }
            Event::Enter { op, .. } => self.suspended.enter(op),
            Event::OpEnd { answer, .. } => {
                self.suspended.end();
                self.answers.count(answer);
            }
            Event::RegBegin { state, op, .. } => self.states.begin(state, op),
            Event::RegEnd { answer, .. } => {
                self.answers.count(answer);
                self.states.end(answer)?;
            }
            Event::Refused { errno, .. } => self.answers.count(Answer::Refused(errno)),
            Event::Shown { value, .. } => self.answers.count(Answer::Ok(value)),
            Event::ReadLock { .. }
            | Event::ReadUnlock { .. }
            | Event::Armed { .. }
            | Event::Wakeup { .. } => self.answers.count(Answer::Ok(0)),
            Event::Admit { .. } | Event::Leave { .. } => {}
        }
        Ok(())
    }
}

/// The tally of the events of a journal.
pub fn tally_of(alloc: Global, head: &Head, events: &[Event]) -> Result<Tally, AllocError>
    ensures { IfOk result (λ t. IsTally head.now events.now t) }
{
    let mut tally = Tally::new(alloc, head)?;
    for event in events {
        tally.count(event)?;
    }
    Ok(tally)
}
