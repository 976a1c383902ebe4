//! Where a reader of walks stands.

use hp_trace::Function;
use hp_trace_walk::{Asks, Walk, Wrong};

/// A function that was entered and not left.
#[derive(Clone, Copy)]
pub struct Entered {
    /// The number of the line of its enter.
    pub line: u32,
    /// The processor that goes up or down.
    pub cpu: u32,
    /// The state whose callback it is.
    pub step: u32,
    /// The state that is asked for.
    pub target: u32,
    /// Whether it is that of one instance.
    pub multi: bool,
    /// The function.
    pub function: Function,
}

/// Where a reader stands behind some lines.
#[derive(Clone, Copy)]
pub struct Place {
    /// The walk that is open.
    pub walk: Option<Walk>,
    /// The function in which others are called.
    pub mark: Option<Entered>,
    /// The callback, in it or alone.
    pub call: Option<Entered>,
}

/// What a line that is named is of.
#[derive(Clone, Copy)]
pub enum Way {
    /// A startup.
    Startup,
    /// A teardown.
    Teardown,
    /// A callback of a registration.
    Registration,
    /// The enter of a function in which others are called, with which a walk begins.
    Begin,
    /// The answer of one.
    Answer,
}

/// A line as it is named.
#[derive(Clone, Copy)]
pub struct Named {
    /// Its number; of a callback that of its enter.
    pub line: u32,
    /// The processor that goes up or down.
    pub cpu: u32,
    /// The state whose callback it is.
    pub step: u32,
    /// What it is of.
    pub way: Way,
}

/// A line that can't be one of lawful walks, and why.
#[derive(Clone, Copy)]
pub struct Misfit {
    /// The line.
    pub named: Named,
    /// Why.
    pub wrong: Wrong,
}

/// What an event does.
#[derive(Clone, Copy)]
pub struct Turn {
    /// The line by which it is named.
    pub named: Named,
    /// Where a reader stands behind it.
    pub place: Place,
    /// What the walk that ends with it asks.
    pub closed: Asks,
    /// The state that it registers.
    pub forget: Option<u32>,
    /// What it asks itself.
    pub asked: Asks,
}

/// Why an event does nothing that can be judged.
#[derive(Clone, Copy)]
pub enum Halt {
    /// It can't be one of a walk.
    Misfit(Misfit),
    /// A table can't have a state of such a number.
    Far,
}
