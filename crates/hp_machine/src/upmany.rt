//! What comes next of an upmany that walks.

ghost use Rattle.std.specs.Prelude.{◌≡◌, ◌↔◌, ℕ, true, Some, IfSome, IfNone};
ghost use Rattle.hp_account.specs.UnderWay.{IsDueOn, IsNextDue, NoneDueFrom, IsNextThreadDue, NoThreadDueFrom};
ghost use Rattle.hp_account.specs.WalkComing.{IsNextOnIf};
ghost use Rattle.hp_event.specs.declared.op.Op.{Op as AnOp};
ghost use Rattle.hp_machine.specs.Next.{IsNext, IsDue};
ghost use Rattle.hp_account.specs.Batches.{IsKnown, IsUpmanyAt};
ghost use Rattle.hp_machine.specs.Upmany.{IsHoldersTurn, lower};
ghost use Rattle.hp_model.specs.ApTurn.{IsApTurn};
ghost use Rattle.hp_model.specs.BatchTurn.{brings_up, turn_of};
ghost use Rattle.hp_model.specs.MapLock.{operation};

use crate::entries::due_from;
use crate::machine::Machine;
use crate::next::{Next, next_from};
use hp_account::{Entry, NextStep};
use hp_event::Event;
use hp_hook::Hook;
use hp_locks::Why;
use hp_states::ONLINE;
use hp_suspend::Batch;

impl<H: Hook> Machine<H> {
    /// What comes next of the seat of an upmany that walks, the lowest of whose processors that walk is given:
    /// the begin of the next walk, while one is left to begin, which has its room; else what comes next in the
    /// walk whose turn it is, where it is one's; else it waits for the thread of the lowest that walks.
    ///
    /// Takes no memory, and a time that doesn't grow with the processors.
    #[inline(never)]
    pub(crate) fn next_in_batch(&self, seat: u32, batch: &Batch, lowest: u32) -> Next
        requires { IsHoldersTurn self.now.head self.now.events seat batch.now lowest }
        ensures { (op : AnOp) → IsNext self.now.head self.now.events seat op result }
    {
        let turns = &self.account.turns;
        if let Some(cpu) = batch.next() {
            return Next::Event {
                event: Event::WalkBegin {
                    seat,
                    cpu,
                    from: self.state(cpu),
                    to: ONLINE,
                },
                need: 0,
            };
        }
        match turns.first() {
            Some(cpu) => self.next_in_turn(seat, cpu),
            None => Next::Wait(Why::ApTurn(lowest)),
        }
    }

    /// What comes next of the seat of an upmany in the walk of the processor whose turn it is.
    fn next_in_turn(&self, seat: u32, cpu: u32) -> Next
        requires upmany { brings_up seat (operation self.now.events) ≡ true }
        requires turn { turn_of self.now.head self.now.events seat ≡ Some cpu }
        ensures { (op : AnOp) → IsNext self.now.head self.now.events seat op result }
    {
        // what is so of every machine
        let _ = &self.journal;
        match next_from(&self.next_on(cpu), seat) {
            Some(next) => next,
            None => Next::Wait(Why::ApTurn(cpu)),
        }
    }

    /// What comes next in the walk of a processor, if it walks. Takes no memory, and looks at no event.
    #[inline(always)]
    fn next_on(&self, cpu: u32) -> Option<NextStep>
        ensures { IsNextOnIf self.now.head self.now.events cpu result }
    {
        let account = &self.account;
        if !account.flights.walks(cpu) {
            return None;
        }
        let armed = account.processors.armed(cpu);
        let thread = account.seats.thread(cpu);
        Some(account.flights.next(&self.table, cpu, armed, thread))
    }

    /// The entry that is due from a seat in an upmany that walks: of its own seat in the walk whose turn it
    /// is, and of a thread in that of its processor. None where no upmany walks.
    ///
    /// Takes no memory, and a time that doesn't grow with the processors.
    #[inline(never)]
    pub(crate) fn due_in_batch(&self, seat: u32) -> Option<Entry>
        requires { IsKnown self.now.head self.now.events }
        ensures { IsDue self.now.head self.now.events seat result }
    {
        let (holder, batch) = self.account.batch()?;
        if holder == seat {
            let cpu = self.turn((holder, batch))?;
            return due_from(&self.next_on(cpu), seat);
        }
        let cpu = self.processor_of(seat)?;
        due_from(&self.next_on(cpu), seat)
    }

    /// The lowest processor from one on of which an entry is due in an upmany that walks, with the seat that
    /// it is due from. None where no upmany walks.
    ///
    /// Takes no memory, and time for the processors that walk.
    #[inline(never)]
    pub(crate) fn next_due_in_batch(&self, from: u32) -> Option<(u32, u32)>
        requires { IsKnown self.now.head self.now.events }
        ensures some { IfSome result (IsNextDue self.now.head self.now.events from) }
        ensures none { IfNone result (NoneDueFrom self.now.head self.now.events from) }
    {
        let (holder, batch) = self.account.batch()?;
        let own = self.own_due((holder, batch));
        let due = self.next_thread_due_in_batch(from);
        lower(own, from, holder, due)
    }

    /// The lowest processor from one on of which an entry is due from its thread in an upmany that walks, with the
    /// thread's seat. None where no upmany walks.
    ///
    /// Takes no memory, and time for the processors whose threads make the next entries.
    #[inline(never)]
    pub(crate) fn next_thread_due_in_batch(&self, from: u32) -> Option<(u32, u32)>
        requires { IsKnown self.now.head self.now.events }
        ensures some { IfSome result (IsNextThreadDue self.now.head self.now.events from) }
        ensures none { IfNone result (NoThreadDueFrom self.now.head self.now.events from) }
    {
        let _ = self.account.batch()?;
        self.account.thread_due(from)
    }

    /// The processor of which an entry is due from the seat of an upmany itself, if one is: that whose turn it
    /// is, where an entry comes next in its walk.
    fn own_due(&self, upmany: (u32, &Batch)) -> Option<u32>
        requires known { IsKnown self.now.head self.now.events }
        requires upmany { IsUpmanyAt self.now.head self.now.events upmany.0 upmany.1.now }
        ensures { (cpu : ℕ) → IsDueOn self.now.head self.now.events cpu upmany.entry.0 ↔ (result ≡ Some cpu) }
    {
        let flights = &self.account.flights;
        let cpu = self.turn(upmany)?;
        flights.has_entry(&self.table, cpu).then_some(cpu)
    }

    /// The processor whose thread the seat of an upmany waits for, if it waits for one: all its walks have
    /// begun, none has its turn, and this is the lowest that walks.
    ///
    /// Takes no memory, and a time that doesn't grow with the processors.
    pub(crate) fn ap_turn_in_batch(&self, seat: u32) -> Option<u32>
        requires { IsKnown self.now.head self.now.events }
        ensures { (cpu : ℕ) → IsApTurn self.now.head self.now.events seat cpu ↔ (result ≡ Some cpu) }
    {
        let (holder, batch) = self.account.batch()?;
        let turns = &self.account.turns;
        if holder != seat || batch.next().is_some() || turns.first().is_some() {
            return None;
        }
        self.account.flights.walking_from(0)
    }

    /// The processor whose turn it is in an upmany, once all walks have begun.
    fn turn(&self, upmany: (u32, &Batch)) -> Option<u32>
        requires { IsUpmanyAt self.now.head self.now.events upmany.0 upmany.1.now }
        ensures { result ≡ turn_of self.now.head self.now.events upmany.entry.0 }
    {
        match upmany.1.next() {
            Some(_) => None,
            None => self.account.turns.first(),
        }
    }
}

/// Of the processor of an upmany's own entry, where that is one from `from` on, and of a thread's entry the lower
/// one, with the seat that the entry is due from.
fn lower(own: Option<u32>, from: u32, holder: u32, due: Option<(u32, u32)>) -> Option<(u32, u32)>
    ensures { result ≡ lower own from holder due }
{
    match (own, due) {
        (Some(own), None) if from <= own => Some((own, holder)),
        (Some(own), Some((cpu, _))) if from <= own && own < cpu => Some((own, holder)),
        _ => due,
    }
}
