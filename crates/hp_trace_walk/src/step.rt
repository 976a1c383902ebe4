//! What a call does to a walk, and asks of the table.

ghost use Rattle.std.specs.Prelude.{◌≡◌};
ghost use Rattle.hp_trace_walk.specs.Steps as spec;

use crate::ask::{
    Ask, Asks, at_least, exactly, is_same, no_asks, none_between, none_from, none_up_to, nothing,
    one_less, one_more,
};
use crate::walk::{
    Borders, Call, Phase, Walk, Wrong, is_after, is_starting, later, limit, may_turn,
};

/// A walk and what is asked.
#[derive(Clone, Copy)]
pub struct Asked {
    /// The walk behind the call.
    pub walk: Walk,
    /// What the call asks.
    pub asks: Asks,
}

/// Where a walk stands behind a call forward that is its count-th of that state.
fn phase_forward(call: &Call, count: u32) -> Phase
    ensures { result ≡ spec.phase_forward call.now count }
{
    if call.fails {
        Phase::Failed {
            at: call.state,
            parts: one_less(count),
            undone: 0,
        }
    } else {
        Phase::Forward {
            at: call.state,
            count,
        }
    }
}

/// Where a walk stands behind a call back.
fn phase_back(call: &Call, count: u32) -> Phase
    ensures { result ≡ spec.phase_back call.now count }
{
    if call.fails {
        Phase::Stuck {
            at: call.state,
            parts: one_less(count),
            undone: 0,
        }
    } else {
        Phase::Back {
            at: call.state,
            count,
        }
    }
}

/// The walk at another place.
fn at_phase(walk: &Walk, first: Option<u32>, phase: Phase) -> Walk
    ensures { result ≡ spec.at_phase walk.now first phase }
{
    Walk {
        cpu: walk.cpu,
        up: walk.up,
        to: walk.to,
        kicked: walk.kicked,
        edge: walk.edge,
        first,
        phase,
        failing: walk.failing,
    }
}

/// What a call asks, as the count-th of its state, and of others.
fn asks_of(call: &Call, count: u32, whole: Ask, passed: Ask, back: Ask, before: Ask) -> Asks
    ensures { result ≡ spec.asks_of call.now count whole passed back before }
{
    Asks {
        made: at_least(call.state, call.up, count, call.multi),
        other: at_least(call.state, !call.up, 0, call.multi),
        whole,
        passed,
        back,
        before,
    }
}

/// What a call asks of its own state alone.
fn asks_of_call(call: &Call, count: u32) -> Asks
    ensures { result ≡ spec.asks_of_call call.now count }
{
    asks_of(call, count, nothing(), nothing(), nothing(), nothing())
}

/// The first call of a walk, forward.
fn begin_forward(walk: &Walk, call: &Call) -> Result<Asked, Wrong>
    ensures { result ≡ spec.begin_forward walk.now call.now }
{
    let begun = at_phase(walk, Some(call.state), phase_forward(call, 1));
    match walk.edge {
        None => Ok(Asked {
            walk: begun,
            asks: asks_of_call(call, 1),
        }),
        Some(edge) => {
            if is_after(walk.up, call.state, edge) {
                let passed = none_between(walk.up, edge, call.state, walk.up);
                Ok(Asked {
                    walk: begun,
                    asks: asks_of(call, 1, nothing(), passed, nothing(), nothing()),
                })
            } else {
                Err(Wrong::OutOfWalk)
            }
        }
    }
}

/// A further call forward.
fn more_forward(walk: &Walk, call: &Call, at: u32, count: u32) -> Result<Asked, Wrong>
    ensures { result ≡ spec.more_forward walk.now call.now at count }
{
    if call.state == at {
        Ok(Asked {
            walk: at_phase(walk, walk.first, phase_forward(call, one_more(count))),
            asks: asks_of_call(call, one_more(count)),
        })
    } else if is_after(walk.up, call.state, at) {
        let whole = exactly(at, walk.up, count);
        let passed = none_between(walk.up, at, call.state, walk.up);
        Ok(Asked {
            walk: at_phase(walk, walk.first, phase_forward(call, 1)),
            asks: asks_of(call, 1, whole, passed, nothing(), nothing()),
        })
    } else {
        Err(Wrong::OutOfOrder)
    }
}

/// An instance that was called before the one that failed is undone in the direction of the walk, or looks so.
fn part_forward(walk: &Walk, call: &Call, at: u32, parts: u32, undone: u32) -> Result<Asked, Wrong>
    ensures { result ≡ spec.part_forward walk.now call.now at parts undone }
{
    if call.state == at && undone < parts {
        let phase = Phase::Failed {
            at,
            parts,
            undone: one_more(undone),
        };
        Ok(Asked {
            walk: at_phase(walk, walk.first, phase),
            asks: no_asks(),
        })
    } else {
        Err(Wrong::AfterFault)
    }
}

/// An instance that was called on the way back before the one that failed is undone.
fn part_stuck(walk: &Walk, call: &Call, at: u32, parts: u32, undone: u32) -> Result<Asked, Wrong>
    ensures { result ≡ spec.part_stuck walk.now call.now at parts undone }
{
    if call.state == at && undone < parts {
        let phase = Phase::Stuck {
            at,
            parts,
            undone: one_more(undone),
        };
        Ok(Asked {
            walk: at_phase(walk, walk.first, phase),
            asks: asks_of_call(call, 1),
        })
    } else {
        Err(Wrong::AfterSecondFault)
    }
}

/// A call in the direction of the walk.
fn forward(walk: &Walk, call: &Call) -> Result<Asked, Wrong>
    ensures { result ≡ spec.forward walk.now call.now }
{
    if is_after(walk.up, limit(walk), call.state) {
        match walk.phase {
            Phase::Begun => begin_forward(walk, call),
            Phase::Forward { at, count } => more_forward(walk, call, at, count),
            Phase::Failed { at, parts, undone } => part_forward(walk, call, at, parts, undone),
            Phase::Back { .. } => Err(Wrong::AfterFault),
            Phase::Stuck { at, parts, undone } => part_stuck(walk, call, at, parts, undone),
        }
    } else {
        Err(Wrong::OutOfWalk)
    }
}

/// What is asked of the states that a walk crossed before the first that was seen.
fn before_first(walk: &Walk, state: u32) -> Ask
    ensures { result ≡ spec.before_first walk.now state }
{
    match (walk.edge, walk.first) {
        (Some(_), _) => nothing(),
        (None, None) => none_from(walk.up, state, state, walk.up),
        (None, Some(first)) => {
            if is_after(walk.up, first, state) {
                none_from(walk.up, state, first, walk.up)
            } else {
                nothing()
            }
        }
    }
}

/// The first state that a walk is known to have crossed, once it was seen to come back to this one.
fn first_with(walk: &Walk, state: u32) -> Option<u32>
    ensures { result ≡ spec.first_with walk.now state }
{
    match walk.first {
        None => Some(state),
        Some(first) => {
            if is_after(walk.up, first, state) {
                Some(state)
            } else {
                Some(first)
            }
        }
    }
}

/// A walk that was seen to come back to a state.
fn walk_back(walk: &Walk, call: &Call, count: u32) -> Walk
    ensures { result ≡ spec.walk_back walk.now call.now count }
{
    at_phase(walk, first_with(walk, call.state), phase_back(call, count))
}

/// What is asked of the states between the last that was called forward, or where the walk comes from, and the one
/// behind which it has turned.
fn passed_forward(walk: &Walk, near: Option<u32>, furthest: u32) -> Ask
    ensures { result ≡ spec.passed_forward walk.now near furthest }
{
    match (near, walk.edge) {
        (Some(near), _) => none_up_to(walk.up, near, furthest, walk.up),
        (None, Some(edge)) => none_up_to(walk.up, edge, furthest, walk.up),
        (None, None) => nothing(),
    }
}

/// The first call back, where no line shows the fault, which is behind this state.
fn turn(
    borders: Borders,
    walk: &Walk,
    call: &Call,
    near: Option<u32>,
    furthest: u32,
    whole: Ask,
) -> Result<Asked, Wrong>
    ensures { result ≡ spec.turn borders walk.now call.now near furthest whole }
{
    if may_turn(borders, walk.up, furthest, walk.to) {
        let passed = passed_forward(walk, near, furthest);
        let back = none_up_to(walk.up, call.state, furthest, !walk.up);
        let before = before_first(walk, call.state);
        Ok(Asked {
            walk: walk_back(walk, call, 1),
            asks: asks_of(call, 1, whole, passed, back, before),
        })
    } else {
        Err(Wrong::NoFault)
    }
}

/// What a state asks at which a callback failed behind so many others, of which so many were undone.
pub fn part_ask(at: u32, up: bool, parts: u32, undone: u32) -> Result<Ask, Wrong>
    ensures { result ≡ spec.part_ask at up parts undone }
{
    if parts == undone {
        Ok(nothing())
    } else if undone == 0 {
        Ok(exactly(at, !up, 0))
    } else {
        Err(Wrong::PartNotUndone)
    }
}

/// A call back at the state of the fault.
fn part_back(walk: &Walk, call: &Call, at: u32, parts: u32, undone: u32) -> Result<Asked, Wrong>
    ensures { result ≡ spec.part_back walk.now call.now at parts undone }
{
    if undone < parts {
        let phase = Phase::Failed {
            at,
            parts,
            undone: one_more(undone),
        };
        Ok(Asked {
            walk: at_phase(walk, walk.first, phase),
            asks: asks_of_call(call, 1),
        })
    } else {
        Err(Wrong::NotDone)
    }
}

/// The first call back behind the state of a fault, of which this is asked.
fn first_back(walk: &Walk, call: &Call, at: u32, whole: Ask) -> Asked
    ensures { result ≡ spec.first_back walk.now call.now at whole }
{
    let passed = none_between(walk.up, call.state, at, !walk.up);
    let before = before_first(walk, call.state);
    Asked {
        walk: walk_back(walk, call, 1),
        asks: asks_of(call, 1, whole, passed, nothing(), before),
    }
}

/// A call back behind a fault.
fn back_from_fault(
    walk: &Walk,
    call: &Call,
    at: u32,
    parts: u32,
    undone: u32,
) -> Result<Asked, Wrong>
    ensures { result ≡ spec.back_from_fault walk.now call.now at parts undone }
{
    if call.state == at {
        part_back(walk, call, at, parts, undone)
    } else if is_after(walk.up, at, call.state) {
        match part_ask(at, walk.up, parts, undone) {
            Ok(whole) => Ok(first_back(walk, call, at, whole)),
            Err(wrong) => Err(wrong),
        }
    } else {
        Err(Wrong::NotDone)
    }
}

/// A further call back.
fn more_back(walk: &Walk, call: &Call, at: u32, count: u32) -> Result<Asked, Wrong>
    ensures { result ≡ spec.more_back walk.now call.now at count }
{
    if call.state == at {
        Ok(Asked {
            walk: walk_back(walk, call, one_more(count)),
            asks: asks_of_call(call, one_more(count)),
        })
    } else if is_after(walk.up, at, call.state) {
        Ok(first_back(walk, call, at, exactly(at, !walk.up, count)))
    } else {
        Err(Wrong::OutOfOrder)
    }
}

/// Whether a walk can have crossed a state, by where it comes from.
fn is_behind_edge(walk: &Walk, state: u32) -> bool
    ensures { result ≡ spec.is_behind_edge walk.now state }
{
    match walk.edge {
        None => true,
        Some(edge) => is_after(walk.up, state, edge),
    }
}

/// A call against the direction of the walk.
fn back(borders: Borders, walk: &Walk, call: &Call) -> Result<Asked, Wrong>
    ensures { result ≡ spec.back borders walk.now call.now }
{
    if is_behind_edge(walk, call.state) {
        match walk.phase {
            Phase::Begun => turn(borders, walk, call, None, call.state, nothing()),
            Phase::Forward { at, count } => {
                let furthest = later(walk.up, at, call.state);
                let whole = exactly(at, walk.up, count);
                turn(borders, walk, call, Some(at), furthest, whole)
            }
            Phase::Failed { at, parts, undone } => back_from_fault(walk, call, at, parts, undone),
            Phase::Back { at, count } => more_back(walk, call, at, count),
            Phase::Stuck { .. } => Err(Wrong::AfterSecondFault),
        }
    } else {
        Err(Wrong::NotDone)
    }
}

/// A call of a walk.
pub fn called(borders: Borders, walk: &Walk, call: &Call) -> Result<Asked, Wrong>
    ensures { result ≡ spec.called borders walk.now call.now }
{
    if is_starting(borders, call.state) {
        Err(Wrong::Starting)
    } else if is_same(call.up, walk.up) {
        forward(walk, call)
    } else {
        back(borders, walk, call)
    }
}
