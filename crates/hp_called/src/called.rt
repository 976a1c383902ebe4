//! The called set.

ghost use Rattle.std.specs.Prelude.{◌≡◌, ◌<◌, ◌++◌, ◌∷◌, [], ℕ, List, None, IfOk, OnOk, OnErr};
ghost use Rattle.hp_event.specs.declared.event.Event.{Event as AnEvent};
ghost use Rattle.hp_event.specs.declared.head.Head.{Head as AHead};
ghost use Rattle.hp_event.specs.declared.key.Key.{Key as AKey};
ghost use Rattle.hp_model.specs.Lawful.{IsLawful, Stands};
ghost use Rattle.hp_called.specs.Rows.{has_row, is_on};
ghost use Rattle.hp_model.specs.Net.{is_key_in_force};
ghost use Rattle.hp_called.specs.Steps.{row_after, on_after, ending_after, row_begun, on_begun, left, HasRoomIf, HasRoomFor, IsOnSomeCpu, AddsRow, BringsRow};
ghost use Rattle.hp_called.specs.Called.{IsCalled};

use crate::ending::Ending;
use crate::rows::Rows;
use hp_event::{Answer, Event, Head, Key};
use hp_states::NoMemory;
use std::alloc::Global;

/// The called set of a journal: for each key that is registered, and for the one that is being added, the processors on
/// which it is in force.
///
/// Contracts say of it that it is a journal's (`IsCalled`).
#[derive(Drop)]
pub struct Called {
    pub(crate) rows: Rows,
    /// What goes at the end of the registration in flight.
    pub(crate) ending: Option<Ending>,
}

impl Called {
    /// The called set of a journal without events, whatever its head is: no key has a row.
    ///
    /// Takes memory for a fixed number of guesses; where there is none: `NoMemory`. This project's own.
    pub fn new(alloc: Global) -> Result<Called, NoMemory>
        ensures { IfOk result (λ called. (head : AHead) → IsCalled head [] called) }
    {
        Ok(Called {
            rows: Rows::new(alloc)?,
            ending: None,
        })
    }

    /// Makes room for the row that an event brings, which is the begin of a setup of a state without instances, or of an
    /// add: then the set can follow the event.
    ///
    /// It stays the called set of whatever journal it is of. Takes memory where such a registration begins and there is no
    /// spare room; where that is wanting: `NoMemory`. This project's own.
    #[inline(always)]
    pub fn make_room(&mut self, head: &Head, event: &Event) -> Result<(), NoMemory>
        ensures stays { (h : AHead) (events : List AnEvent) → IsCalled h events self.old → IsCalled h events self.new }
        ensures room { OnOk result (HasRoomFor head.now event.now self.new) }
        ensures brings { OnErr result (BringsRow head.now event.now) }
    {
        match event {
            Event::RegBegin { state, op, .. } => self.make_room_for(Ending::of(head, op, *state)),
            _ => Ok(()),
        }
    }

    /// Follows one event more. Of the begin of a registration that adds a key it makes the key's row, for which there is
    /// room; of the end of one it takes the row out, where what it adds has failed or what it takes away is gone; of an
    /// entry that is done it writes into its row whether the key is in force on the entry's processor, whose number is at
    /// most 255; and of all other events nothing.
    ///
    /// Of each journal of which it was the called set, and after which the event stands, it is that of the journal with the
    /// event. Takes no memory, and a time that doesn't grow with the journal. This project's own.
    #[inline(always)]
    pub fn follow(&mut self, head: &Head, event: &Event)
        requires room { HasRoomFor head.now event.now self.old }
        requires place { IsOnSomeCpu event.now }
        ensures { (events : List AnEvent) → IsLawful head.now events → Stands head.now events event.now →
            IsCalled head.now events self.old → IsCalled head.now (events ++ event.now ∷ []) self.new }
    {
        self.take(head, event);
    }

    /// Takes one event.
    #[inline(always)]
    fn take(&mut self, head: &Head, event: &Event)
        requires room { HasRoomFor head.now event.now self.old }
        requires place { IsOnSomeCpu event.now }
        ensures rows { (k : AKey) → has_row self.new.rows k
            ≡ row_after head.now event.now self.old.ending k (has_row self.old.rows k) }
        ensures sets { (k : AKey) (c : ℕ) → is_on self.new.rows k c
            ≡ on_after head.now event.now self.old.ending k c (has_row self.old.rows k) (is_on self.old.rows k c) }
        ensures ending { self.new.ending ≡ ending_after head.now event.now self.old.ending }
    {
        match *event {
            Event::Call {
                cpu,
                state,
                inst,
                dir,
                how,
                ..
            } => {
                if how.is_done() {
                    self.rows.write(Key { state, inst }, cpu, dir);
                }
            }
            Event::RegBegin { state, op, .. } => self.begin(Ending::of(head, &op, state)),
            Event::RegEnd { answer, .. } => self.end(answer),
            _ => {}
        }
    }

    /// Makes room for the row of what a registration adds, if it adds something.
    fn make_room_for(&mut self, ending: Option<Ending>) -> Result<(), NoMemory>
        ensures stays { (h : AHead) (events : List AnEvent) → IsCalled h events self.old → IsCalled h events self.new }
        ensures room { OnOk result (HasRoomIf ending self.new) }
        ensures adds { OnErr result (AddsRow ending) }
    {
        match ending {
            Some(Ending { adds: true, .. }) => self.rows.reserve(),
            _ => Ok(()),
        }
    }

    /// Makes the row of what a registration adds, if it adds something.
    fn begin(&mut self, ending: Option<Ending>)
        requires { HasRoomIf ending self.old }
        ensures rows { (k : AKey) → has_row self.new.rows k ≡ row_begun ending k (has_row self.old.rows k) }
        ensures sets { (k : AKey) (c : ℕ) → is_on self.new.rows k c ≡ on_begun ending k (is_on self.old.rows k c) }
        ensures ending { self.new.ending ≡ ending }
    {
        self.ending = ending;
        if let Some(Ending { key, adds: true }) = ending {
            self.rows.insert(key);
        }
    }

    /// Takes out what goes at the end of the registration in flight, which answers so.
    fn end(&mut self, answer: Answer)
        ensures rows { (k : AKey) → has_row self.new.rows k ≡ left self.old.ending answer k (has_row self.old.rows k) }
        ensures sets { (k : AKey) (c : ℕ) → is_on self.new.rows k c
            ≡ left self.old.ending answer k (is_on self.old.rows k c) }
        ensures ending { self.new.ending ≡ None }
    {
        if let Some(ending) = self.ending.take() {
            if ending.takes_row(answer) {
                self.rows.remove(ending.key);
            }
        }
    }

    /// Whether a key is in force on a processor, after the journal of which this is the called set. Any number may be asked
    /// for: one that is no processor's has none in force.
    ///
    /// Takes no memory, and a time that doesn't grow with the keys. That a key is in force is this project's own.
    pub fn has(&self, key: Key, cpu: u32) -> bool
        ensures { (head : AHead) (events : List AnEvent) → IsCalled head events self.now →
            result ≡ is_key_in_force cpu events key }
    {
        self.rows.has(key, cpu)
    }
}
