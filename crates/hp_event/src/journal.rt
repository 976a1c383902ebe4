//! The journal: a head, a list of events, and room that was promised.
//!
//! An operation promises itself room before it begins, by `reserve`, so that no `push` on its way
//! wants memory or finds the journal full; what it did not use it gives back. That is this
//! project's own.

ghost use Rattle.std.specs.Prelude.{◌≡◌, ◌+◌, ◌-◌, ◌<◌, ◌≤◌, ◌↔◌, [], length, slice_get, OnOk, OnErr, Some, IsErrOf, IsTrue, vec_capacity};
ghost use Rattle.std.specs.Vec.{VecUnchanged};
ghost use Rattle.hp_event.specs.Texts.{text_of};
ghost use Rattle.hp_event.specs.Story.{FitsMore, IsFullFor, with_event};
ghost use Rattle.hp_event.specs.Room.{Doubles};

use crate::event::Event;
use crate::head::Head;
use hp_states::MAX_EVENTS;
use std::alloc::{AllocError, Global};
use std::error::Error;
use std::fmt;
use std::marker::Model;

/// Why a journal promises no room.
#[derive(Clone, Copy, Debug, PartialEq, Eq)]
pub enum JournalError {
    /// The events, those promised and those asked for are more than a journal holds.
    Full = 1,
    /// Memory was wanting.
    NoMemory = 2,
}

impl fmt::Display for JournalError {
    ghost output = { λ e. Some (text_of e) };

    fn fmt<W: fmt::Write>(&self, f: &mut fmt::Formatter<W>) -> fmt::Result {
        match self {
            JournalError::Full => write!(f, "the journal is full"),
            JournalError::NoMemory => write!(f, "out of memory"),
        }
    }
}

impl Error for JournalError {}

/// A journal. Contracts see its head, its events, oldest first, and how many are promised.
///
/// Each promise has its place in memory already, and there are at most `MAX_EVENTS` places, so that
/// the events and the promises together are at most `MAX_EVENTS`.
#[derive(Drop)]
pub struct Journal {
    head: Head,
    events: Vec<Event>,
    promised: u32,
}

impl Model for Journal {
    ghost use Rattle.std.specs.Prelude.{ℕ, List, vec_len, vec_capacity};
    ghost use Rattle.hp_event.specs.declared.event.Event.{Event};
    ghost use Rattle.hp_event.specs.declared.head.Head.{Head};
    ghost use Rattle.hp_event.specs.Story.{Story};
    ghost use Rattle.hp_event.specs.Room.{HasRoom};

    ghost Value = { Story };

    ghost view = { λ j. record { head = j.head; events = j.events.items; promised = j.promised } };

    ghost invariant = { λ j. HasRoom (vec_len j.events) (vec_capacity j.events) j.promised };
}

impl Journal {
    /// The journal of this head that has no events and nothing promised. Takes no memory.
    pub fn new(alloc: Global, head: Head) -> Journal
        ensures { result ≡ record { head = head; events = []; promised = 0 } }
    {
        Journal {
            head,
            events: Vec::new(alloc),
            promised: 0,
        }
    }

    /// The allocator that it was made with. Takes no memory.
    pub fn allocator(&self) -> Global {
        *self.events.allocator()
    }

    /// The head, which no call changes. Takes no memory.
    pub fn head(&self) -> &Head
        ensures { result.now ≡ self.now.head }
    {
        &self.head
    }

    /// How many events there are, 0 to `MAX_EVENTS`. Takes no memory.
    pub fn len(&self) -> u32
        ensures count { result ≡ length self.now.events }
        ensures within { length self.now.events + self.now.promised ≤ MAX_EVENTS }
    {
        self.events.len() as u32
    }

    /// Whether there are no events. Takes no memory.
    pub fn is_empty(&self) -> bool
        ensures { IsTrue result ↔ (self.now.events ≡ []) }
    {
        self.events.is_empty()
    }

    /// How many events are promised a place, 0 to `MAX_EVENTS`. Takes no memory.
    pub fn promised(&self) -> u32
        ensures count { result ≡ self.now.promised }
        ensures within { length self.now.events + self.now.promised ≤ MAX_EVENTS }
    {
        self.promised
    }

    /// How many events more have a place in memory already: those that are promised, and what is
    /// spare beside them. Takes no memory.
    pub fn spare(&self) -> u32
        ensures promises { self.now.promised ≤ result }
        ensures within { length self.now.events + result ≤ MAX_EVENTS }
    {
        (self.events.capacity() - self.events.len()) as u32
    }

    /// The events, oldest first. Takes no memory.
    pub fn events(&self) -> &[Event]
        ensures { result.now ≡ self.now.events }
    {
        self.events.as_slice()
    }

    /// The event at a place, counted from 0 at the oldest.
    ///
    /// `at` is below the number of events. Takes no memory.
    pub fn get(&self, at: u32) -> &Event
        requires { at < length self.now.events }
        ensures { slice_get self.now.events at ≡ Some result.now }
    {
        &self.events[at as usize]
    }

    /// Promises places to `n` events more.
    ///
    /// - `Full` exactly where the events, those promised and `n` are above `MAX_EVENTS`.
    /// - `NoMemory` where they would fit and memory was wanting.
    ///
    /// After a refusal the journal is as before. Takes memory where the journal has not so many
    /// spare places; its places then at least double, up to `MAX_EVENTS`, so that a run of
    /// reservations and pushes costs a time linear in its length.
    pub fn reserve(&mut self, n: u32) -> Result<(), JournalError>
        ensures ok { OnOk result (self.new ≡ record self.old { promised = self.old.promised + n }) }
        ensures room { OnOk result (FitsMore self.old n) }
        ensures full { IsErrOf result JournalError.Full ↔ IsFullFor self.old n }
        ensures no_memory { IsErrOf result JournalError.NoMemory → FitsMore self.old n }
        ensures err { OnErr result (self.new ≡ self.old) }
    {
        let taken = self.events.len() as u32 + self.promised;
        if n > MAX_EVENTS - taken {
            return Err(JournalError::Full);
        }
        if make_places(&mut self.events, taken + n).is_err() {
            return Err(JournalError::NoMemory);
        }
        self.promised += n;
        Ok(())
    }

    /// Appends an event at a promised place, and so keeps one promise.
    ///
    /// At least one event is promised. Takes no memory.
    pub fn push(&mut self, event: Event)
        requires { 0 < self.old.promised }
        ensures { self.new ≡ with_event event self.old }
    {
        self.events.push_reserved(event);
        self.promised -= 1;
    }

    /// Takes back the promise of a place to `n` events.
    ///
    /// At least `n` events are promised. Takes no memory, and gives none back: the places stay
    /// spare.
    pub fn give_back(&mut self, n: u32)
        requires { n ≤ self.old.promised }
        ensures { self.new ≡ record self.old { promised = self.old.promised - n } }
    {
        self.promised -= n;
    }
}

/// Sees to it that a list has so many places, its events counted: at least twice as many as before
/// where it has fewer, and never more than `MAX_EVENTS`. On `Err` the list is as before.
fn make_places(events: &mut Vec<Event>, wanted: u32) -> Result<(), AllocError>
    requires within { wanted ≤ MAX_EVENTS }
    requires bounded { vec_capacity events.old ≤ MAX_EVENTS }
    ensures items { VecUnchanged events.old events.new }
    ensures made { OnOk result (wanted ≤ vec_capacity events.new) }
    ensures doubled { OnOk result (Doubles (vec_capacity events.old) wanted (vec_capacity events.new)) }
    ensures bounded { vec_capacity events.new ≤ MAX_EVENTS }
    ensures err { OnErr result (vec_capacity events.new ≡ vec_capacity events.old) }
{
    let wanted = wanted as usize;
    let places = events.capacity();
    if wanted <= places {
        return Ok(());
    }
    let doubled = wanted.max(2 * places).min(MAX_EVENTS as usize);
    events.reserve_exact(doubled - events.len())
}
