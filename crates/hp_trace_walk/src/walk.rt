//! A walk as lines show it.

ghost use Rattle.std.specs.Prelude.{◌≡◌};
ghost use Rattle.hp_trace_walk.specs.Walks as spec;

use crate::ask::one_more;

/// The states between which a processor is booted and taken down.
#[derive(Clone, Copy)]
pub struct Borders {
    /// The one whose startup boots the processor.
    pub boot: u32,
    /// The one whose teardown takes it down.
    pub take: u32,
}

/// How far a walk has come.
#[derive(Clone, Copy)]
pub enum Phase {
    /// No call of it was seen.
    Begun,
    /// It has made so many calls at a state, and they were all well.
    Forward {
        /// The state.
        at: u32,
        /// How many.
        count: u32,
    },
    /// A callback failed.
    Failed {
        /// Its state.
        at: u32,
        /// How many instances were called before it.
        parts: u32,
        /// How many of them were called to undo that.
        undone: u32,
    },
    /// It goes back.
    Back {
        /// The last state that was called.
        at: u32,
        /// How often.
        count: u32,
    },
    /// A callback failed on the way back.
    Stuck {
        /// Its state.
        at: u32,
        /// How many instances were called before it.
        parts: u32,
        /// How many of them were called to undo that.
        undone: u32,
    },
}

/// A walk of a processor, as far as lines have shown it.
#[derive(Clone, Copy)]
pub struct Walk {
    /// The processor.
    pub cpu: u32,
    /// Whether it is up.
    pub up: bool,
    /// The state that it asks for.
    pub to: u32,
    /// Whether the processor's own thread was asked for it by `cpuhp_kick_ap_work`.
    pub kicked: bool,
    /// The walk crosses states behind this one, where it is known from where it comes.
    pub edge: Option<u32>,
    /// The first state that lines show it to have crossed.
    pub first: Option<u32>,
    /// How far it has come.
    pub phase: Phase,
    /// Whether the function that boots the processor has failed.
    pub failing: bool,
}

/// A call of a walk.
#[derive(Clone, Copy)]
pub struct Call {
    /// The processor.
    pub cpu: u32,
    /// The state whose callback it is.
    pub state: u32,
    /// Whether it is a startup.
    pub up: bool,
    /// The state that is asked for.
    pub target: u32,
    /// Whether it is that of one instance.
    pub multi: bool,
    /// Whether it failed, where it may.
    pub fails: bool,
}

/// Why a line can't be one of a walk.
#[derive(Clone, Copy)]
pub enum Wrong {
    /// The state was passed.
    OutOfOrder,
    /// It isn't between where the walk begins and what it asks for.
    OutOfWalk,
    /// It goes on forward after a fault.
    AfterFault,
    /// It goes on after a second fault.
    AfterSecondFault,
    /// It undoes what wasn't done.
    NotDone,
    /// Of the instances that were called not all were undone.
    PartNotUndone,
    /// It goes back, and no state is left at which it can have failed.
    NoFault,
    /// No walk stops at the state that it asks for.
    NoStop,
    /// A fault is answered with 0.
    NoAnswer,
    /// It answers 0 elsewhere than where it was asked for.
    NotThere,
    /// No line shows a callback of this state.
    Starting,
    /// No table agrees with what the state has shown before.
    Shows(u32),
}

/// Whether one state comes behind another in a walk.
pub fn is_after(up: bool, one: u32, other: u32) -> bool
    ensures { result ≡ spec.is_after up one other }
{
    if up { other < one } else { one < other }
}

/// The one of two states that comes later in a walk.
pub fn later(up: bool, one: u32, other: u32) -> u32
    ensures { result ≡ spec.later up one other }
{
    if is_after(up, one, other) { one } else { other }
}

/// The state before which a walk ends.
pub fn limit(walk: &Walk) -> u32
    ensures { result ≡ spec.limit walk.now }
{
    if walk.up { one_more(walk.to) } else { walk.to }
}

/// Whether a state is called where no line can show it.
pub fn is_starting(borders: Borders, state: u32) -> bool
    ensures { result ≡ spec.is_starting borders state }
{
    borders.boot < state && state < borders.take
}

/// Whether a fault of this callback turns a walk.
pub fn can_fail(borders: Borders, up: bool, state: u32) -> bool
    ensures { result ≡ spec.can_fail borders up state }
{
    borders.take <= state || (up && state <= borders.boot)
}

/// Whether a walk can have failed behind this state.
pub fn may_turn(borders: Borders, up: bool, behind: u32, to: u32) -> bool
    ensures { result ≡ spec.may_turn borders up behind to }
{
    if up {
        behind < to && (behind < borders.boot || borders.take <= to)
    } else {
        one_more(to) < behind && borders.take < behind
    }
}

/// Whether a walk can stop at a state.
pub fn is_stop(borders: Borders, state: u32) -> bool
    ensures { result ≡ spec.is_stop borders state }
{
    state < borders.boot || one_more(borders.take) < state
}

/// Whether a walk has turned.
pub fn is_turned(walk: &Walk) -> bool
    ensures { result ≡ spec.is_turned walk.now }
{
    match walk.phase {
        Phase::Begun => walk.failing,
        Phase::Forward { .. } => walk.failing,
        Phase::Failed { .. } | Phase::Back { .. } | Phase::Stuck { .. } => true,
    }
}
