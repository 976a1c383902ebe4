//! Room: how many events more the journal can promise, and how many an event takes.

ghost use Rattle.std.specs.Prelude.{◌≡◌, ◌+◌, ℕ, length};
ghost use Rattle.hp_account.specs.Batches.{IsUpmanyAt};
ghost use Rattle.hp_states.specs.declared.limits.TheConstants.{MAX_EVENTS as MAX_EVENTS_OF};
ghost use Rattle.hp_event.specs.declared.event.Event.TheVariants.{WalkBegin};
ghost use Rattle.hp_model.specs.Needs.{registration_need};
ghost use Rattle.hp_model.specs.Promised.{promised};
ghost use Rattle.hp_machine.specs.Room.{CountsKeys};
ghost use Rattle.hp_machine.specs.StandsNext.{room_of, CanMake};

use crate::machine::Machine;
use hp_account::need_of_walk;
use hp_event::Event;
use hp_hook::Hook;
use hp_states::{MAX_CPUS, MAX_EVENTS, ONLINE};
use hp_suspend::Batch;

impl<H: Hook> Machine<H> {
    /// How many events more the journal can promise. Takes no memory.
    pub fn room(&self) -> u32
        ensures { result + length self.now.events + promised self.now.head self.now.events ≡ MAX_EVENTS_OF }
    {
        MAX_EVENTS - (self.journal.len() + self.journal.promised())
    }

    /// The room that an event takes which stands: for itself and for what has to follow it.
    ///
    /// Takes no memory, and time for the processors or for the states that a walk crosses.
    pub fn need(&self, event: &Event) -> u32
        requires { CanMake self.now event.now }
        ensures { result ≡ room_of self.now event.now }
    {
        // what is so of every machine
        let _ = &self.journal;
        self.room_taken(event)
    }

    /// The room that an event takes, which need not stand: two events for an admission, an operation of the map
    /// lock and a read section; one for a refusal and for what is done with one event; for a registration two
    /// for each present processor and two besides; for a walk three for each key that it crosses and four
    /// besides, for the first of an upmany what all of its batch take, and for a later one none. Others take
    /// none.
    ///
    /// For a walk the table has the keys that are registered. Takes no memory, and time for the
    /// processors or for the states that the walk crosses.
    pub(crate) fn room_taken(&self, event: &Event) -> u32
        requires { CountsKeys self.now.head self.now.events self.now.places event.now }
        ensures { result ≡ room_of self.now event.now }
    {
        match *event {
            Event::Admit { .. } | Event::Enter { .. } | Event::ReadLock { .. } => 2,
            Event::WalkBegin { from, to, .. } => self.room_of_walk(from, to),
            Event::RegBegin { .. } => self.room_of_registration(),
            Event::Refused { .. }
            | Event::Armed { .. }
            | Event::Shown { .. }
            | Event::Wakeup { .. } => 1,
            _ => 0,
        }
    }

    /// The room that the begin of a walk takes.
    fn room_of_walk(&self, from: u32, to: u32) -> u32
        requires { CountsKeys self.now.head self.now.events self.now.places (WalkBegin 0 0 from to) }
        ensures { (seat cpu : ℕ) → result ≡ room_of self.now (WalkBegin seat cpu from to) }
    {
        match self.account.batch() {
            Some((_, batch)) => self.room_of_batch(batch),
            None => need_of_walk(&self.table, from, to),
        }
    }

    /// The room that the begin of a walk of an upmany takes: for its first walk what the walks of its batch take,
    /// and nothing for a later one.
    fn room_of_batch(&self, batch: &Batch) -> u32
        requires upmany { (seat : ℕ) × IsUpmanyAt self.now.head self.now.events seat batch.now }
        requires counts { CountsKeys self.now.head self.now.events self.now.places (WalkBegin 0 0 0 0) }
        ensures { (seat cpu from to : ℕ) → result ≡ room_of self.now (WalkBegin seat cpu from to) }
    {
        if batch.is_begun() {
            return 0;
        }
        let settled = self.account.processors.settled();
        let mut sum = 0;
        for cpu in 0..settled.len() as u32 {
            if batch.is_left(cpu) {
                sum += need_of_walk(&self.table, settled[cpu as usize], ONLINE);
            }
        }
        sum
    }

    /// The room that a registration takes.
    fn room_of_registration(&self) -> u32
        ensures { result ≡ registration_need self.now.head }
    {
        let possible = self.account.processors.present();
        let places = possible.len().min(MAX_CPUS as usize);
        let present = possible[..places].iter().filter(|is_present| **is_present);
        2 * present.count() as u32 + 2
    }
}
