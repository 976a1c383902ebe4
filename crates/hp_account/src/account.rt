//! The account: what a journal's events amount to.

ghost use Rattle.std.specs.Prelude.{◌≡◌, ◌<◌, ◌⊎◌, ◌∷◌, ◌++◌, [], false, None, Some, IfOk, IfSome, IfNone, OnOk, OnErr, length, option_map};
ghost use Rattle.hp_states.specs.CpuSets.{HasNoneFrom};
ghost use Rattle.hp_states.specs.declared.limits.TheConstants.{MAX_CPUS};
ghost use Rattle.hp_event.specs.declared.event.Event.TheVariants.{Admit};
ghost use Rattle.hp_model.specs.Events.{is_call};
ghost use Rattle.hp_model.specs.Heads.{IsHead};
ghost use Rattle.hp_model.specs.Lawful.{Stands};
ghost use Rattle.hp_model.specs.Needs.{need as need_of, taken};
ghost use Rattle.hp_walk.specs.Keys.{keys_by};
ghost use Rattle.hp_account.specs.Account.{IsAccount};
ghost use Rattle.hp_account.specs.Accounted.{IsAccounted, NoAdmission, admission_to};
ghost use Rattle.hp_account.specs.After.{disarmed_after};
ghost use Rattle.hp_account.specs.Appending.{CanAdmit, Admitted, CanAppend, Appended, WalkWentOnIf, RegistrationWentOnIf};
ghost use Rattle.hp_account.specs.Batches.{batch_of, IsWalking, IsServedFrom, NoneServedFrom};
ghost use Rattle.hp_account.specs.BatchTurns.{is_batch, CanTurn, TurnTaken, HasPlaceInSet, Awaited};
ghost use Rattle.hp_account.specs.Entries.{entry_made};
ghost use Rattle.hp_account.specs.FlightChanges.{IfFlies, CanGoOn};
ghost use Rattle.hp_account.specs.Places.{at_place};
ghost use Rattle.hp_account.specs.Table.{IsTableOf};
ghost use Rattle.hp_account.specs.UnderWay.{IsUnderWay};

use crate::effects::{
    depart, fly, hold, operate, register, room_of_walk, stand, suspend, walked_to,
};
use crate::flights::Flights;
use crate::operation::{MapOperation, Walks};
use crate::processors::Processors;
use crate::registering::Registering;
use crate::seats::Seats;
use crate::suspended::Suspended;
use crate::under_way::{Entry, NextStep};
use hp_event::{Event, Head, How, Journal, Role};
use hp_hook::Hook;
use hp_locks::Locks;
use hp_states::{CpuSet, NoMemory};
use hp_suspend::{Batch, Turns};
use hp_table::Table;
use std::alloc::Global;

/// What a journal's events amount to, part by part.
#[derive(Drop)]
pub struct Account {
    /// Who is in.
    pub seats: Seats,
    /// Who holds which lock.
    pub locks: Locks,
    /// Where processors stand.
    pub processors: Processors,
    /// The operation that holds the map lock, if one does.
    pub operation: Option<MapOperation>,
    /// The walks in flight.
    pub flights: Flights,
    /// The registration in flight, if one is.
    pub registration: Option<Registering>,
    /// What a suspend leaves.
    pub suspended: Suspended,
    /// The processors with whose walks the seat of an upmany goes on, in the order of their turns.
    pub turns: Turns,
    /// The processors whose threads make the next entries of the walks of an upmany.
    pub awaited: CpuSet,
}

impl Account {
    /// The account of a journal with no events.
    ///
    /// The head is one that a machine can be started with. Takes memory for some places for each
    /// possible processor.
    pub fn new(alloc: Global, head: &Head) -> Result<Account, NoMemory>
        requires { IsHead head.now }
        ensures { IfOk result (λ p. IsAccount head.now [] p) }
    {
        Ok(Account {
            seats: Seats::new(alloc, head.possible)?,
            locks: Locks::new(alloc),
            processors: Processors::new(alloc, head)?,
            operation: None,
            flights: Flights::new(alloc, head.possible)?,
            registration: None,
            suspended: Suspended::new(alloc, head.possible)?,
            turns: Turns::new(alloc, head.possible)?,
            awaited: CpuSet::none(),
        })
    }

    /// Appends an event that stands to the journal, and takes it into account. What is under way then
    /// is in `coming`.
    ///
    /// It is neither an entry nor an admission (`append_entry` and `admit` make those), `need` is the room that it
    /// takes, which the journal has promised, and the table is that of the journal with the event. Takes no memory, and
    /// a time that doesn't grow with the journal or the table.
    #[inline(always)]
    pub fn append<H: Hook>(
        &mut self,
        journal: &mut Journal,
        coming: &mut Option<NextStep>,
        table: &Table<H>,
        event: &Event,
        need: u32,
    )
        requires kept { IsAccounted journal.old need self.old }
        requires stands { Stands journal.old.head journal.old.events event.now }
        requires no_entry { is_call event.now ≡ false }
        requires no_admission { NoAdmission event.now }
        requires need { need ≡ taken (need_of journal.old.head journal.old.events event.now) }
        requires table { IsTableOf journal.old.head (journal.old.events ++ event.now ∷ []) table.now }
        ensures head { journal.new.head ≡ journal.old.head }
        ensures events { journal.new.events ≡ journal.old.events ++ event.now ∷ [] }
        ensures kept { IsAccounted journal.new 0 self.new }
        ensures under_way { IsUnderWay journal.new.head journal.new.events coming.new }
    {
        table.sound();
        let freed = self.take(table, event, need);
        journal.push(*event);
        journal.give_back(freed);
        *coming = self.under_way(journal, table);
    }

    /// Appends an entry that stands, made so, to the journal, and takes it into account. What is under way then is in
    /// `coming`.
    ///
    /// Its room is what the journal has promised to its walk or its registration, and the table is that of the journal
    /// with the entry. Takes no memory, and a time that doesn't grow with the journal or the table.
    #[inline(always)]
    pub fn append_entry<H: Hook>(
        &mut self,
        journal: &mut Journal,
        coming: &mut Option<NextStep>,
        table: &Table<H>,
        entry: &Entry,
        how: How,
    )
        requires kept { IsAccounted journal.old 0 self.old }
        requires stands { Stands journal.old.head journal.old.events (entry_made entry.now how) }
        requires table { IsTableOf journal.old.head (journal.old.events ++ entry_made entry.now how ∷ []) table.now }
        ensures head { journal.new.head ≡ journal.old.head }
        ensures events { journal.new.events ≡ journal.old.events ++ entry_made entry.now how ∷ [] }
        ensures kept { IsAccounted journal.new 0 self.new }
        ensures under_way { IsUnderWay journal.new.head journal.new.events coming.new }
    {
        table.sound();
        let event = entry.event(how);
        let batch = self.is_batch();
        self.take_entry(table, entry.cpu, how);
        take_turn(
            &mut self.turns,
            &mut self.awaited,
            &self.flights,
            table,
            &event,
            batch,
        );
        journal.push(event);
        *coming = self.under_way(journal, table);
    }

    /// Lets the next seat in, with this role, and appends its admission. What is under way then is
    /// in `coming`.
    ///
    /// The admission stands, the journal has promised the room for it and for the seat's leave, and the table is
    /// the journal's. Takes memory; where that is wanting nothing has changed: `NoMemory`.
    pub fn admit<H: Hook>(
        &mut self,
        journal: &mut Journal,
        coming: &mut Option<NextStep>,
        table: &Table<H>,
        role: Role,
    ) -> Result<(), NoMemory>
        requires kept { IsAccounted journal.old 2 self.old }
        requires stands { Stands journal.old.head journal.old.events (admission_to journal.old role) }
        requires table { IsTableOf journal.old.head journal.old.events table.now }
        ensures head { OnOk result (journal.new.head ≡ journal.old.head) }
        ensures events { OnOk result (journal.new.events ≡ journal.old.events ++ admission_to journal.old role ∷ []) }
        ensures kept { OnOk result (IsAccounted journal.new 0 self.new) }
        ensures under_way { OnOk result (IsUnderWay journal.new.head journal.new.events coming.new) }
        ensures err { OnErr result ((journal.new ≡ journal.old) × (self.new ≡ self.old)) }
        ensures still { OnErr result (coming.new ≡ coming.old) }
    {
        let seat = self.seats.admitted();
        self.let_in(role)?;
        journal.push(Event::Admit { seat, role });
        *coming = self.under_way(journal, table);
        Ok(())
    }

    /// Lets the next seat in. Takes memory; where that is wanting nothing has changed.
    fn let_in(&mut self, role: Role) -> Result<(), NoMemory>
        requires { CanAdmit role self.old }
        ensures ok { OnOk result (Admitted role self.old self.new) }
        ensures err { OnErr result (self.new ≡ self.old) }
    {
        self.seats.admit(role)?;
        if self.locks.admit().is_err() {
            self.seats.retract(role);
            return Err(NoMemory);
        }
        Ok(())
    }

    /// Takes one event more into account, but an entry or an admission. Answers how much room is given back,
    /// which a walk or a registration that ends has left. `need` is the room that the event took.
    ///
    /// Takes no memory.
    fn take<H: Hook>(&mut self, table: &Table<H>, event: &Event, need: u32) -> u32
        requires no_entry { is_call event.now ≡ false }
        requires parts { CanAppend (keys_by table.now) need event.now self.old }
        ensures { Appended (keys_by table.now) need result event.now self.old self.new }
    {
        let batch = self.is_batch();
        let to = walked_to(&self.flights, event);
        depart(&mut self.seats, event);
        hold(&mut self.locks, event, batch);
        suspend(&mut self.suspended, &self.operation, event);
        operate(&mut self.operation, event, &self.processors);
        stand(&mut self.processors, event, to);
        let room = room_of_walk(table, event, batch, need);
        let freed_by_walk = fly(&mut self.flights, table, event, room);
        let freed_by_registration = register(&mut self.registration, event, need);
        take_turn(
            &mut self.turns,
            &mut self.awaited,
            &self.flights,
            table,
            event,
            batch,
        );
        freed_by_walk + freed_by_registration
    }

    /// Whether the operation that holds the map lock is an upmany. Takes no memory.
    pub fn is_batch(&self) -> bool
        ensures { result ≡ is_batch self.now.operation }
    {
        match &self.operation {
            Some(held) => held.is_upmany(),
            None => false,
        }
    }

    /// Takes an entry into account: the walk or the registration in flight goes on past it, and where it is
    /// the fault at which its processor is armed, that is armed no more.
    fn take_entry<H: Hook>(&mut self, table: &Table<H>, cpu: u32, how: How)
        requires processors { cpu < length self.old.processors.armed }
        requires flights { IfFlies (at_place self.old.flights.by_cpu.items cpu) (CanGoOn (keys_by table.now) how) }
        requires registration { cpu < MAX_CPUS }
        ensures processors { self.new.processors ≡ disarmed_after how cpu self.old.processors }
        ensures flights { WalkWentOnIf (at_place self.old.flights.by_cpu.items cpu) (keys_by table.now) cpu how
            self.old.flights self.new.flights }
        ensures registration { RegistrationWentOnIf cpu how self.old.registration self.new.registration }
        ensures seats { self.new.seats ≡ self.old.seats }
        ensures locks { self.new.locks ≡ self.old.locks }
        ensures operation { self.new.operation ≡ self.old.operation }
        ensures suspended { self.new.suspended ≡ self.old.suspended }
        ensures turns { self.new.turns ≡ self.old.turns }
        ensures awaited { self.new.awaited ≡ self.old.awaited }
    {
        if matches!(how, How::Injected) {
            self.processors.arm(cpu, None);
        }
        if self.flights.walks(cpu) {
            self.flights.entry(table, cpu, how);
        }
        if let Some(registration) = &mut self.registration {
            registration.took(cpu, how);
        }
    }
}

impl Account {
    /// The upmany in flight, with its seat, if one is. Takes no memory.
    pub fn batch(&self) -> Option<(u32, &Batch)>
        ensures { batch_of self.now.operation ≡ option_map (λ found. (found.0, found.1.now)) result }
    {
        match &self.operation {
            Some(
                MapOperation {
                    seat,
                    sequence: Walks::Batch(batch),
                    ..
                },
            ) => Some((*seat, batch)),
            _ => None,
        }
    }

    /// The upmany in flight, with the lowest of its processors that walks, if one does. Takes no memory.
    pub fn batch_walking(&self) -> Option<(&Batch, u32)>
        ensures some { IfSome result (λ found. IsWalking self.now found.0.now found.1) }
        ensures none { IfNone result ((batch_of self.now.operation ≡ None) ⊎ HasNoneFrom self.now.flights.walking 0) }
    {
        let (_, batch) = self.batch()?;
        let lowest = self.flights.walking_from(0)?;
        Some((batch, lowest))
    }

    /// The lowest processor from one on whose thread has to make the next entry of an upmany's walk and is in,
    /// with its seat.
    ///
    /// Takes no memory, and time for the processors whose threads have to.
    pub fn thread_due(&self, from: u32) -> Option<(u32, u32)>
        ensures some { IfSome result (λ due. IsServedFrom self.now from due.0 due.1) }
        ensures none { IfNone result (NoneServedFrom self.now from) }
    {
        let mut at = from;
        while let Some(cpu) = self.awaited.first_from(at) {
            if let Some(seat) = self.seats.thread(cpu) {
                return Some((cpu, seat));
            }
            at = cpu + 1;
        }
        None
    }
}

/// In an upmany (`batch`) the walk of which an event was made goes to the end of the queue where its next
/// event is the operation's seat's, and out of it where not; and its thread is awaited where that makes the next
/// entry.
#[inline(always)]
fn take_turn<H: Hook>(
    turns: &mut Turns,
    awaited: &mut CpuSet,
    flights: &Flights,
    table: &Table<H>,
    event: &Event,
    batch: bool,
)
    requires turn { CanTurn (keys_by table.now) batch event.now flights.now turns.old }
    requires place { HasPlaceInSet event.now }
    ensures turn { TurnTaken (keys_by table.now) batch event.now flights.now turns.old turns.new }
    ensures awaited { Awaited (keys_by table.now) batch event.now flights.now awaited.old awaited.new }
{
    if !batch {
        return;
    }
    match *event {
        Event::WalkBegin { cpu, .. } | Event::Call { cpu, .. } | Event::WalkEnd { cpu, .. } => {
            let own = flights.is_own(table, cpu);
            turns.moved(cpu, own);
            if flights.walks(cpu) && !own {
                awaited.put(cpu);
            } else {
                awaited.take(cpu);
            }
        }
        _ => {}
    }
}
