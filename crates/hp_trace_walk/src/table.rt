//! What is known of the table of states.

ghost use Rattle.std.specs.Prelude.{◌≡◌};
ghost use Rattle.hp_trace_walk.specs.Tables as spec;
ghost use Rattle.hp_trace_walk.specs.Tables.{kept};

use crate::ask::{Ask, Asks, MOST_CALLS};
use crate::walk::{Borders, is_starting};

/// What is known of a state: how many calls a crossing of it shows, up and down.
#[derive(Clone, Copy)]
pub struct Known {
    /// As many at least up.
    pub least_up: u32,
    /// And at most.
    pub most_up: u32,
    /// As many at least down.
    pub least_down: u32,
    /// And at most.
    pub most_down: u32,
}

/// What is known of each state.
#[derive(Drop)]
pub struct Table {
    /// Of the states below `MOST_STATES`.
    pub known: Vec<Known>,
    /// A state that can't be as it was asked, if there is one.
    pub shut: Option<u32>,
}

/// The larger of two.
fn larger(one: u32, other: u32) -> u32
    ensures { result ≡ spec.larger one other }
{
    if one < other { other } else { one }
}

/// The smaller of two.
fn smaller(one: u32, other: u32) -> u32
    ensures { result ≡ spec.smaller one other }
{
    if one < other { one } else { other }
}

impl Known {
    /// Nothing is known.
    pub fn unknown() -> Known
        ensures { result ≡ spec.unknown }
    {
        Known {
            least_up: 0,
            most_up: MOST_CALLS,
            least_down: 0,
            most_down: MOST_CALLS,
        }
    }

    /// Whether some number is between what is known up, and some down.
    fn is_ordered(&self) -> bool
        ensures { result ≡ spec.is_ordered self.now }
    {
        self.least_up <= self.most_up && self.least_down <= self.most_down
    }

    /// Whether the same number can be both.
    fn is_even(&self) -> bool
        ensures { result ≡ spec.is_even self.now }
    {
        self.least_up <= self.most_down && self.least_down <= self.most_up
    }

    /// Whether it can be so, or there is no teardown.
    fn is_up_alone(&self) -> bool
        ensures { result ≡ spec.is_up_alone self.now }
    {
        self.least_down == 0 || self.is_even()
    }

    /// Whether a state can be so: a crossing up shows as many calls as one down, or one of them shows none.
    pub fn is_open(&self) -> bool
        ensures { result ≡ spec.is_open self.now }
    {
        self.is_ordered() && (self.least_up == 0 || self.is_up_alone())
    }

    /// What is known once this is asked, too.
    pub fn with_ask(&self, ask: &Ask) -> Known
        ensures { result ≡ spec.with_ask self.now ask.now }
    {
        if ask.up {
            Known {
                least_up: larger(self.least_up, ask.least),
                most_up: smaller(self.most_up, ask.most),
                least_down: self.least_down,
                most_down: self.most_down,
            }
        } else {
            Known {
                least_up: self.least_up,
                most_up: self.most_up,
                least_down: larger(self.least_down, ask.least),
                most_down: smaller(self.most_down, ask.most),
            }
        }
    }
}

impl Table {
    /// Asks one state.
    fn ask_one(&mut self, ask: &Ask, state: u32)
        ensures { kept self.new ≡ spec.asked_one ask.now state (kept self.old) }
    {
        let place = state as usize;
        if let Some(known) = self.known.get(place) {
            let known = known.with_ask(ask);
            self.known[place] = known;
            if !known.is_open() {
                self.shut = Some(state);
            }
        }
    }

    /// Asks a state, if lines can show it.
    fn ask_if(&mut self, borders: Borders, ask: &Ask, state: u32)
        ensures { kept self.new ≡ spec.asked_if borders ask.now state (kept self.old) }
    {
        if !is_starting(borders, state) {
            self.ask_one(ask, state);
        }
    }

    /// Asks each of the states that lines can show.
    fn ask(&mut self, borders: Borders, ask: &Ask)
        ensures { kept self.new ≡ spec.asked borders ask.now (kept self.old) }
    {
        let mut state = ask.from;
        while state < ask.below {
            self.ask_if(borders, ask, state);
            state += 1;
        }
    }

    /// Asks what an event asks.
    pub fn ask_all(&mut self, borders: Borders, asks: &Asks)
        ensures { kept self.new ≡ spec.asked_all borders asks.now (kept self.old) }
    {
        self.ask(borders, &asks.whole);
        self.ask(borders, &asks.passed);
        self.ask(borders, &asks.back);
        self.ask(borders, &asks.before);
        self.ask(borders, &asks.made);
        self.ask(borders, &asks.other);
    }

    /// Nothing is known of a state any more, where one is named.
    pub fn forget(&mut self, state: Option<u32>)
        ensures { kept self.new ≡ spec.forgotten state (kept self.old) }
    {
        if let Some(state) = state {
            let place = state as usize;
            if place < self.known.len() {
                self.known[place] = Known::unknown();
            }
        }
    }
}
