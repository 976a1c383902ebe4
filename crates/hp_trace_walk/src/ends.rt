//! How a walk ends, and what that asks of the table.

ghost use Rattle.std.specs.Prelude.{◌≡◌};
ghost use Rattle.hp_trace_walk.specs.Ends as spec;

use crate::ask::{
    Ask, Asks, exactly, no_asks, none_between, none_up_to, nothing, one_less, one_more,
};
use crate::step::part_ask;
use crate::walk::{Borders, Phase, Walk, Wrong, is_stop, is_turned, limit, may_turn};

/// How a walk has ended.
#[derive(Clone, Copy)]
pub enum How {
    /// It reached what it asked for.
    Went,
    /// A fault turned it, and it came back.
    Returned,
    /// A second fault stopped it.
    Stopped,
}

/// What a walk asks as it ends: of the state that it called last, of those that it passed forward, and of those that
/// it passed on the way back.
fn asks_at_end(whole: Ask, passed: Ask, back: Ask) -> Asks
    ensures { result ≡ spec.asks_at_end whole passed back }
{
    Asks {
        made: nothing(),
        other: nothing(),
        whole,
        passed,
        back,
        before: nothing(),
    }
}

/// What is asked by a walk that reached what it asked for, where it can stop there.
fn reached(walk: &Walk) -> Result<Asks, Wrong>
    ensures { result ≡ spec.reached walk.now }
{
    match (walk.phase, walk.edge) {
        (Phase::Forward { at, count }, _) => {
            let passed = none_between(walk.up, at, limit(walk), walk.up);
            Ok(asks_at_end(exactly(at, walk.up, count), passed, nothing()))
        }
        (Phase::Begun, Some(edge)) => {
            let passed = none_between(walk.up, edge, limit(walk), walk.up);
            Ok(asks_at_end(nothing(), passed, nothing()))
        }
        (Phase::Begun, None) => Ok(no_asks()),
        (Phase::Failed { .. }, _) => Err(Wrong::NoAnswer),
        (Phase::Back { .. }, _) => Err(Wrong::NoAnswer),
        (Phase::Stuck { .. }, _) => Err(Wrong::NoAnswer),
    }
}

/// What is asked by a walk that reached what it asked for.
fn went(borders: Borders, walk: &Walk) -> Result<Asks, Wrong>
    ensures { result ≡ spec.went borders walk.now }
{
    if is_stop(borders, walk.to) {
        reached(walk)
    } else {
        Err(Wrong::NoStop)
    }
}

/// The state behind which a walk that came back has called its states back.
fn home_of(walk: &Walk) -> Option<u32>
    ensures { result ≡ spec.home_of walk.now }
{
    match (walk.edge, walk.first) {
        (Some(edge), _) => Some(edge),
        (None, Some(first)) => {
            if walk.up {
                Some(one_less(first))
            } else {
                Some(one_more(first))
            }
        }
        (None, None) => None,
    }
}

/// The state beside the one from which a walk comes, where that is known.
fn beside_of(walk: &Walk) -> Option<u32>
    ensures { result ≡ spec.beside_of walk.now }
{
    match walk.edge {
        Some(edge) => {
            if walk.up {
                Some(one_more(edge))
            } else {
                Some(one_less(edge))
            }
        }
        None => None,
    }
}

/// What is asked by a walk that came back without a call, behind this state.
fn returned_silently(
    borders: Borders,
    walk: &Walk,
    home: u32,
    at: u32,
    count: u32,
) -> Result<Asks, Wrong>
    ensures { result ≡ spec.returned_silently borders walk.now home at count }
{
    if may_turn(borders, walk.up, at, walk.to) {
        let back = none_up_to(walk.up, home, at, !walk.up);
        Ok(asks_at_end(exactly(at, walk.up, count), nothing(), back))
    } else {
        Err(Wrong::NoFault)
    }
}

/// What is asked by a walk that came back from a fault at a state, without a call.
fn returned_from(walk: &Walk, home: u32, at: u32, parts: u32, undone: u32) -> Result<Asks, Wrong>
    ensures { result ≡ spec.returned_from walk.now home at parts undone }
{
    match part_ask(at, walk.up, parts, undone) {
        Ok(whole) => {
            let back = none_between(walk.up, home, at, !walk.up);
            Ok(asks_at_end(whole, nothing(), back))
        }
        Err(wrong) => Err(wrong),
    }
}

/// What is asked by a walk that came back to a state.
fn returned_to(borders: Borders, walk: &Walk, home: u32) -> Result<Asks, Wrong>
    ensures { result ≡ spec.returned_to borders walk.now home }
{
    match walk.phase {
        Phase::Begun => Ok(no_asks()),
        Phase::Forward { at, count } => returned_silently(borders, walk, home, at, count),
        Phase::Failed { at, parts, undone } => returned_from(walk, home, at, parts, undone),
        Phase::Back { at, count } => {
            let back = none_between(walk.up, home, at, !walk.up);
            Ok(asks_at_end(exactly(at, !walk.up, count), nothing(), back))
        }
        Phase::Stuck { .. } => stopped(walk),
    }
}

/// What is asked by a walk that came back.
fn returned(borders: Borders, walk: &Walk) -> Result<Asks, Wrong>
    ensures { result ≡ spec.returned borders walk.now }
{
    match home_of(walk) {
        None => Ok(no_asks()),
        Some(home) => returned_to(borders, walk, home),
    }
}

/// What is asked of the state of a last fault.
fn at_fault(at: u32, up: bool, parts: u32, undone: u32) -> Result<Asks, Wrong>
    ensures { result ≡ spec.at_fault at up parts undone }
{
    match part_ask(at, up, parts, undone) {
        Ok(whole) => Ok(asks_at_end(whole, nothing(), nothing())),
        Err(wrong) => Err(wrong),
    }
}

/// What is asked by a walk that a second fault stopped.
fn stopped(walk: &Walk) -> Result<Asks, Wrong>
    ensures { result ≡ spec.stopped walk.now }
{
    match walk.phase {
        Phase::Begun => Ok(no_asks()),
        Phase::Forward { at, count } => Ok(asks_at_end(
            exactly(at, walk.up, count),
            nothing(),
            nothing(),
        )),
        Phase::Failed { at, parts, undone } => at_fault(at, walk.up, parts, undone),
        Phase::Back { at, count } => Ok(asks_at_end(
            exactly(at, !walk.up, count),
            nothing(),
            nothing(),
        )),
        Phase::Stuck { at, parts, undone } => at_fault(at, !walk.up, parts, undone),
    }
}

/// How a walk has ended behind which another line comes.
fn how_of(walk: &Walk) -> How
    ensures { result ≡ spec.how_of walk.now }
{
    match walk.phase {
        Phase::Stuck { .. } => How::Stopped,
        Phase::Begun | Phase::Forward { .. } | Phase::Failed { .. } | Phase::Back { .. } => {
            if is_turned(walk) {
                How::Returned
            } else {
                How::Went
            }
        }
    }
}

/// What is asked by a walk that ended so.
pub fn ended(borders: Borders, walk: &Walk, how: How) -> Result<Asks, Wrong>
    ensures { result ≡ spec.ended borders walk.now how }
{
    match how {
        How::Went => went(borders, walk),
        How::Returned => returned(borders, walk),
        How::Stopped => stopped(walk),
    }
}

/// What is asked by a walk that is open where another begins, and that ended so, if it is said how.
pub fn closed(borders: Borders, walk: Option<Walk>, how: Option<How>) -> Result<Asks, Wrong>
    ensures { result ≡ spec.closed borders walk how }
{
    match (walk, how) {
        (None, _) => Ok(no_asks()),
        (Some(walk), Some(how)) => ended(borders, &walk, how),
        (Some(walk), None) => ended(borders, &walk, how_of(&walk)),
    }
}

/// Whether a state is the one from which a walk comes.
fn is_home(walk: &Walk, state: u32) -> bool
    ensures { result ≡ spec.is_home walk.now state }
{
    match walk.edge {
        None => false,
        Some(edge) => {
            if walk.up {
                edge == state
            } else {
                edge == one_more(state)
            }
        }
    }
}

/// What is asked by a walk of which `cpuhp_kick_ap_work` answers a fault, and that the processor is at this state.
/// Where that is the one from which the walk comes, the one beside it isn't asked: there a second fault that no line
/// shows has the same lines.
pub fn kicked_back(borders: Borders, walk: &Walk, state: u32) -> Result<Asks, Wrong>
    ensures { result ≡ spec.kicked_back borders walk.now state }
{
    match (is_home(walk, state), beside_of(walk)) {
        (true, Some(beside)) => returned_to(borders, walk, beside),
        (true, None) => stopped(walk),
        (false, _) => stopped(walk),
    }
}
