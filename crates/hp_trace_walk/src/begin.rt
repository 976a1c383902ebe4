//! Whether a call goes on with the walk that is open.

ghost use Rattle.std.specs.Prelude.{◌≡◌};
ghost use Rattle.hp_trace_walk.specs.Begins as spec;

use crate::ask::is_same;
use crate::ends::How;
use crate::walk::{Borders, Call, Phase, Walk, is_after, is_turned, later};

/// What a call is.
#[derive(Clone, Copy)]
pub enum Next {
    /// One of the walk that is open, of which it says more.
    Goes(Walk),
    /// The first of another walk; the one that is open ended so, if its own lines don't say how.
    Begins(Option<How>),
    /// One of a registration; the walk that is open ended so.
    Registers(Option<How>),
}

/// The walk, where it asks for this state.
fn with_target(walk: &Walk, to: u32, edge: Option<u32>) -> Walk
    ensures { result ≡ spec.with_target walk.now to edge }
{
    Walk {
        cpu: walk.cpu,
        up: walk.up,
        to,
        kicked: walk.kicked,
        edge,
        first: walk.first,
        phase: walk.phase,
        failing: walk.failing,
    }
}

/// Whether a call in the direction of a walk comes behind its last.
fn is_further(walk: &Walk, call: &Call) -> bool
    ensures { result ≡ spec.is_further walk.now call.now }
{
    match walk.phase {
        Phase::Forward { at, .. } => {
            is_after(walk.up, call.state, at) || (call.state == at && call.multi)
        }
        Phase::Begun | Phase::Failed { .. } | Phase::Back { .. } | Phase::Stuck { .. } => true,
    }
}

/// A call in the direction of a walk that hasn't turned.
fn next_forward(borders: Borders, walk: &Walk, call: &Call) -> Next
    ensures { result ≡ spec.next_forward borders walk.now call.now }
{
    if is_further(walk, call) {
        if call.target == walk.to {
            Next::Goes(*walk)
        } else if !walk.up && walk.kicked && walk.to == borders.take {
            Next::Goes(with_target(walk, call.target, walk.edge))
        } else {
            Next::Begins(Some(How::Went))
        }
    } else {
        Next::Begins(Some(How::Returned))
    }
}

/// A walk that goes on with a call against its direction: of a walk up it says from where the walk comes.
fn from_call(walk: &Walk, call: &Call) -> Walk
    ensures { result ≡ spec.from_call walk.now call.now }
{
    match walk.edge {
        None => {
            if walk.up {
                with_target(walk, walk.to, Some(call.target))
            } else {
                *walk
            }
        }
        Some(_) => *walk,
    }
}

/// Whether a walk can come from this state.
fn may_come_from(walk: &Walk, state: u32) -> bool
    ensures { result ≡ spec.may_come_from walk.now state }
{
    match walk.edge {
        None => true,
        Some(edge) => edge == state,
    }
}

/// The furthest state that was called, up to a call.
fn furthest(walk: &Walk, call: &Call) -> u32
    ensures { result ≡ spec.furthest walk.now call.now }
{
    match walk.phase {
        Phase::Forward { at, .. } => later(walk.up, at, call.state),
        Phase::Begun | Phase::Failed { .. } | Phase::Back { .. } | Phase::Stuck { .. } =>
            call.state,
    }
}

/// Whether the part of a walk down is over that the processor's own thread makes, and no more.
fn is_high(borders: Borders, walk: &Walk) -> bool
    ensures { result ≡ spec.is_high borders walk.now }
{
    match walk.phase {
        Phase::Forward { at, .. } => borders.take < at,
        Phase::Begun | Phase::Failed { .. } | Phase::Back { .. } | Phase::Stuck { .. } => true,
    }
}

/// Whether a walk turns with a call against its direction, and didn't end before it.
fn turns(borders: Borders, walk: &Walk, call: &Call) -> bool
    ensures { result ≡ spec.turns borders walk.now call.now }
{
    if walk.up {
        borders.boot <= walk.to
            || (may_come_from(walk, call.target) && furthest(walk, call) < walk.to)
    } else {
        walk.kicked && walk.to == borders.take && is_high(borders, walk)
    }
}

/// A call against the direction of a walk that hasn't turned.
fn next_against(borders: Borders, walk: &Walk, call: &Call) -> Next
    ensures { result ≡ spec.next_against borders walk.now call.now }
{
    if turns(borders, walk, call) {
        Next::Goes(from_call(walk, call))
    } else {
        Next::Begins(Some(How::Went))
    }
}

/// Whether a call is that of an instance that is undone.
fn is_part(walk: &Walk, call: &Call) -> bool
    ensures { result ≡ spec.is_part walk.now call.now }
{
    match walk.phase {
        Phase::Failed { at, parts, undone } => call.multi && call.state == at && undone < parts,
        Phase::Begun | Phase::Forward { .. } | Phase::Back { .. } | Phase::Stuck { .. } => false,
    }
}

/// Whether a call is at a state that a walk hasn't crossed, by where it comes from.
fn is_before(walk: &Walk, call: &Call) -> bool
    ensures { result ≡ spec.is_before walk.now call.now }
{
    match walk.edge {
        None => false,
        Some(edge) => !is_after(walk.up, call.state, edge),
    }
}

/// A call behind the turn of a walk.
fn next_turned(walk: &Walk, call: &Call) -> Next
    ensures { result ≡ spec.next_turned walk.now call.now }
{
    if is_part(walk, call) {
        Next::Goes(*walk)
    } else if is_same(call.up, walk.up) || is_before(walk, call) {
        Next::Begins(None)
    } else {
        Next::Goes(from_call(walk, call))
    }
}

/// What a call is outside of the functions in which others are called.
fn next_outside(borders: Borders, walk: &Walk, call: &Call) -> Next
    ensures { result ≡ spec.next_outside borders walk.now call.now }
{
    if is_turned(walk) {
        next_turned(walk, call)
    } else if is_same(call.up, walk.up) {
        next_forward(borders, walk, call)
    } else {
        next_against(borders, walk, call)
    }
}

/// A call up at the very state that is asked for, with which a walk would begin, is a registration's: that asks less.
fn or_registers(next: Next, call: &Call) -> Next
    ensures { result ≡ spec.or_registers next call.now }
{
    match next {
        Next::Begins(how) => {
            if call.up && call.state == call.target {
                Next::Registers(how)
            } else {
                Next::Begins(how)
            }
        }
        Next::Goes(walk) => Next::Goes(walk),
        Next::Registers(how) => Next::Registers(how),
    }
}

/// What a call is of the processor of a walk, or of another.
fn next_in(borders: Borders, walk: &Walk, call: &Call, inside: bool) -> Next
    ensures { result ≡ spec.next_in borders walk.now call.now inside }
{
    if walk.cpu == call.cpu {
        if inside {
            Next::Goes(*walk)
        } else {
            or_registers(next_outside(borders, walk, call), call)
        }
    } else {
        or_registers(Next::Begins(None), call)
    }
}

/// What a call is behind the walk that is open, inside of a function in which others are called, or not.
pub fn next_of(borders: Borders, walk: Option<Walk>, call: &Call, inside: bool) -> Next
    ensures { result ≡ spec.next_of borders walk call.now inside }
{
    match walk {
        None => or_registers(Next::Begins(None), call),
        Some(walk) => next_in(borders, &walk, call, inside),
    }
}
