//! The numbers of operations, counted as a journal's events are gone over.

ghost use Rattle.std.specs.Prelude.{◌≡◌, ◌<◌, ℕ, Some, [], length, IfOk, OnOk};
ghost use Rattle.hp_event.specs.Events.{seat_of};
ghost use Rattle.hp_model.specs.OperationNumber.{begun_by};
ghost use Rattle.hp_print.specs.OperationNumbers.{begun, begun_with, IsNumbered};

use hp_event::Event;
use std::alloc::{AllocError, Global};

/// How many operations of each seat have an event among those that were counted.
///
/// The events of an operation have its number in their lines: its place, from 1, among those of its
/// seat. The rule is `operation_number` of `specs/OperationNumber.antt` of hp_model.
#[derive(Drop)]
pub struct OperationNumbers {
    /// Those of the seat of each place; of a seat behind the last there is none.
    begun: Vec<u32>,
}

impl OperationNumbers {
    /// The numbers before any event. Takes no memory.
    pub fn new(alloc: Global) -> OperationNumbers
        ensures { IsNumbered [] result }
    {
        OperationNumbers {
            begun: Vec::new(alloc),
        }
    }

    /// How many operations of a seat have an event.
    fn of(&self, seat: u32) -> u32
        ensures { result ≡ begun self.now seat }
    {
        self.begun.get(seat as usize).copied().unwrap_or(0)
    }

    /// Makes a place for a seat.
    fn reach(&mut self, seat: u32) -> Result<(), AllocError>
        ensures same { OnOk result ((k : ℕ) → begun self.new k ≡ begun self.old k) }
        ensures reached { OnOk result (seat < length self.new.begun.items) }
    {
        let missing = (seat as usize + 1).saturating_sub(self.begun.len());
        for _ in 0..missing {
            self.begun.push(0)?;
        }
        Ok(())
    }

    /// One operation more of a seat has an event.
    fn begin(&mut self, seat: u32) -> Result<(), AllocError>
        requires { begun self.old seat < u32.MAX }
        ensures { OnOk result ((k : ℕ) → begun self.new k ≡ begun_with self.old (Some seat) k) }
    {
        self.reach(seat)?;
        self.begun[seat as usize] += 1;
        Ok(())
    }

    /// Goes on over an event, and answers the number of its operation; of an event of no operation, how many
    /// operations of its seat have an event.
    ///
    /// No seat has `u32::MAX` operations before. Takes memory where the seat is above those of the
    /// operations before, up to it; where it is wanting nothing more may be asked.
    pub fn take(&mut self, event: &Event) -> Result<u32, AllocError>
        requires { (seat : ℕ) → begun self.old seat < u32.MAX }
        ensures taken { OnOk result ((k : ℕ) → begun self.new k ≡ begun_with self.old (begun_by event.now) k) }
        ensures number { IfOk result (λ n. n ≡ begun self.new (seat_of event.now)) }
    {
        match *event {
            Event::Enter { seat, .. }
            | Event::Refused { seat, .. }
            | Event::RegBegin { seat, .. }
            | Event::ReadLock { seat }
            | Event::ReadUnlock { seat }
            | Event::Armed { seat, .. }
            | Event::Shown { seat, .. }
            | Event::Wakeup { seat } => {
                self.begin(seat)?;
                Ok(self.of(seat))
            }
            Event::Admit { seat, .. }
            | Event::Leave { seat }
            | Event::WalkBegin { seat, .. }
            | Event::Call { seat, .. }
            | Event::WalkEnd { seat, .. }
            | Event::OpEnd { seat, .. }
            | Event::RegEnd { seat, .. } => Ok(self.of(seat)),
        }
    }
}
