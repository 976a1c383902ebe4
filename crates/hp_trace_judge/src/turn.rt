//! What an event does to where a reader of walks stands, and what it asks of a table of states.

ghost use Rattle.std.specs.Prelude.{◌≡◌};
ghost use Rattle.hp_trace_judge.specs.Turns as spec;

use crate::place::{Entered, Halt, Misfit, Named, Place, Turn, Way};
use hp_trace_walk::{
    Asks, Borders, Call, How, MOST_STATES, Next, Phase, Walk, Wrong, called, can_fail, closed,
    ended, is_stop, is_turned, kicked_back, next_of, no_asks, one_more,
};

/// The number of a state that a table has.
pub fn state_of(number: i32) -> Option<u32>
    ensures { result ≡ spec.state_of number }
{
    if 0 <= number && number < MOST_STATES as i32 {
        Some(number as u32)
    } else {
        None
    }
}

/// Whether a code is a fault.
fn is_fault(code: i32) -> bool
    ensures { result ≡ spec.is_fault code }
{
    code != 0
}

/// A line as it is named.
pub fn named(entered: &Entered, line: u32, way: Way) -> Named
    ensures { result ≡ spec.named entered.now line way }
{
    Named {
        line,
        cpu: entered.cpu,
        step: entered.step,
        way,
    }
}

/// The way of a callback.
fn way_of(up: bool) -> Way
    ensures { result ≡ spec.way_of up }
{
    if up { Way::Startup } else { Way::Teardown }
}

/// A line can't be one of a walk.
fn misfit(named: Named, wrong: Wrong) -> Halt
    ensures { result ≡ spec.misfit named wrong }
{
    Halt::Misfit(Misfit { named, wrong })
}

/// An event that does this, and asks nothing.
pub fn quiet(named: Named, place: Place) -> Turn
    ensures { result ≡ spec.quiet named place }
{
    Turn {
        named,
        place,
        closed: no_asks(),
        forget: None,
        asked: no_asks(),
    }
}

/// An event with which a walk ends that asks this, and behind which this one is open.
fn ending(named: Named, place: &Place, walk: Option<Walk>, closed: Asks) -> Turn
    ensures { result ≡ spec.ending named place.now walk closed }
{
    Turn {
        named,
        place: Place { walk, ..*place },
        closed,
        forget: None,
        asked: no_asks(),
    }
}

/// The walk, where the function that boots the processor failed and no line shows a callback in it: then it failed itself,
/// unless the walk comes back from a state behind it.
fn settled(borders: Borders, walk: &Walk, back_to: u32) -> Walk
    ensures { result ≡ spec.settled borders walk.now back_to }
{
    match walk.phase {
        Phase::Forward { at, .. } => {
            if walk.failing && at == borders.boot && back_to < at {
                Walk {
                    phase: Phase::Failed {
                        at,
                        parts: 0,
                        undone: 0,
                    },
                    ..*walk
                }
            } else {
                *walk
            }
        }
        Phase::Begun | Phase::Failed { .. } | Phase::Back { .. } | Phase::Stuck { .. } => *walk,
    }
}

/// What is asked by the walk that is open, as it ends so.
fn closing(borders: Borders, place: &Place, how: Option<How>) -> Result<Asks, Wrong>
    ensures { result ≡ spec.closing borders place.now how }
{
    match place.walk {
        None => closed(borders, None, how),
        Some(walk) => closed(borders, Some(settled(borders, &walk, 0)), how),
    }
}

/// A call of this walk, which is open, or begins with it while another ends that asks this.
fn walk_call(
    borders: Borders,
    place: &Place,
    named: Named,
    walk: &Walk,
    call: &Call,
    closed: Asks,
) -> Result<Turn, Halt>
    ensures { result ≡ spec.walk_call borders place.now named walk.now call.now closed }
{
    match called(borders, walk, call) {
        Err(wrong) => Err(misfit(named, wrong)),
        Ok(asked) => Ok(Turn {
            named,
            place: Place {
                walk: Some(asked.walk),
                ..*place
            },
            closed,
            forget: None,
            asked: asked.asks,
        }),
    }
}

/// A walk before its first call.
fn begun(call: &Call) -> Walk
    ensures { result ≡ spec.begun call.now }
{
    Walk {
        cpu: call.cpu,
        up: call.up,
        to: call.target,
        kicked: false,
        edge: None,
        first: None,
        phase: Phase::Begun,
        failing: false,
    }
}

/// A call with which a walk begins, behind one that ended so.
fn begin(
    borders: Borders,
    place: &Place,
    named: Named,
    call: &Call,
    how: Option<How>,
) -> Result<Turn, Halt>
    ensures { result ≡ spec.begin borders place.now named call.now how }
{
    match closing(borders, place, how) {
        Err(wrong) => Err(misfit(named, wrong)),
        Ok(asks) => {
            if call.up && !is_stop(borders, call.target) {
                Err(misfit(named, Wrong::NoStop))
            } else {
                walk_call(borders, place, named, &begun(call), call, asks)
            }
        }
    }
}

/// A call of a registration, behind a walk that ended so.
fn register(borders: Borders, place: &Place, named: Named, how: Option<How>) -> Result<Turn, Halt>
    ensures { result ≡ spec.register borders place.now named how }
{
    match closing(borders, place, how) {
        Err(wrong) => Err(misfit(named, wrong)),
        Ok(asks) => Ok(Turn {
            named: Named {
                line: named.line,
                cpu: named.cpu,
                step: named.step,
                way: Way::Registration,
            },
            place: Place {
                walk: None,
                ..*place
            },
            closed: asks,
            forget: Some(named.step),
            asked: no_asks(),
        }),
    }
}

/// A call, inside of a function in which others are called, or not.
fn call_turn(
    borders: Borders,
    place: &Place,
    named: Named,
    call: &Call,
    inside: bool,
) -> Result<Turn, Halt>
    ensures { result ≡ spec.call_turn borders place.now named call.now inside }
{
    match next_of(borders, place.walk, call, inside) {
        Next::Goes(walk) => {
            let walk = settled(borders, &walk, call.state);
            walk_call(borders, place, named, &walk, call, no_asks())
        }
        Next::Begins(how) => begin(borders, place, named, call, how),
        Next::Registers(how) => register(borders, place, named, how),
    }
}

/// A call that was entered so, in a direction, with a code.
fn call_of(borders: Borders, entered: &Entered, up: bool, code: i32) -> Call
    ensures { result ≡ spec.call_of borders entered.now up code }
{
    Call {
        cpu: entered.cpu,
        state: entered.step,
        up,
        target: entered.target,
        multi: entered.multi,
        fails: is_fault(code) && can_fail(borders, up, entered.step),
    }
}

/// A callback that was left, in a direction.
pub fn left_call(
    borders: Borders,
    place: &Place,
    entered: &Entered,
    up: bool,
    code: i32,
    inside: bool,
) -> Result<Turn, Halt>
    ensures { result ≡ spec.left_call borders place.now entered.now up code inside }
{
    let named = named(entered, entered.line, way_of(up));
    let call = call_of(borders, entered, up, code);
    call_turn(borders, place, named, &call, inside)
}

/// A callback that was left, where the processor is at this state.
pub fn left_callback(
    borders: Borders,
    place: &Place,
    entered: &Entered,
    state: u32,
    code: i32,
) -> Result<Turn, Halt>
    ensures { result ≡ spec.left_callback borders place.now entered.now state code }
{
    let inside = place.mark.is_some();
    if state == entered.step {
        left_call(borders, place, entered, true, code, inside)
    } else if one_more(state) == entered.step {
        left_call(borders, place, entered, false, code, inside)
    } else {
        let named = named(entered, entered.line, Way::Registration);
        register(borders, place, named, None)
    }
}

/// A walk of which the processor's own thread makes its part.
fn kicked(entered: &Entered) -> Walk
    ensures { result ≡ spec.kicked entered.now }
{
    let up = entered.step < entered.target;
    Walk {
        cpu: entered.cpu,
        up,
        to: entered.target,
        kicked: true,
        edge: Some(if up {
            entered.step
        } else {
            one_more(entered.step)
        }),
        first: None,
        phase: Phase::Begun,
        failing: false,
    }
}

/// The enter of `cpuhp_kick_ap_work`: a walk begins.
pub fn kick(borders: Borders, place: &Place, entered: &Entered) -> Result<Turn, Halt>
    ensures { result ≡ spec.kick borders place.now entered.now }
{
    let named = named(entered, entered.line, Way::Begin);
    match closing(borders, place, None) {
        Err(wrong) => Err(misfit(named, wrong)),
        Ok(asks) => Ok(ending(named, place, Some(kicked(entered)), asks)),
    }
}

/// A walk ends with this line, and asks this.
fn ends(named: Named, place: &Place, asks: Result<Asks, Wrong>) -> Result<Turn, Halt>
    ensures { result ≡ spec.ends named place.now asks }
{
    match asks {
        Err(wrong) => Err(misfit(named, wrong)),
        Ok(asks) => Ok(ending(named, place, None, asks)),
    }
}

/// `cpuhp_kick_ap_work` answers 0 where the processor is at this state: a walk up is over, and one down that goes no
/// further than the processor's own thread does.
fn kick_done(
    borders: Borders,
    place: &Place,
    named: Named,
    walk: &Walk,
    state: u32,
) -> Result<Turn, Halt>
    ensures { result ≡ spec.kick_done borders place.now named walk.now state }
{
    if is_turned(walk) {
        Err(misfit(named, Wrong::NoAnswer))
    } else if walk.up || borders.take < state {
        if state == walk.to {
            ends(named, place, ended(borders, walk, How::Went))
        } else {
            Err(misfit(named, Wrong::NotThere))
        }
    } else {
        Ok(quiet(named, *place))
    }
}

/// The answer of `cpuhp_kick_ap_work`.
pub fn left_kick(
    borders: Borders,
    place: &Place,
    named: Named,
    state: u32,
    code: i32,
) -> Result<Turn, Halt>
    ensures { result ≡ spec.left_kick borders place.now named state code }
{
    match place.walk {
        None => Ok(quiet(named, *place)),
        Some(walk) => {
            if is_fault(code) {
                ends(named, place, kicked_back(borders, &walk, state))
            } else {
                kick_done(borders, place, named, &walk, state)
            }
        }
    }
}

/// The function that boots the processor has failed.
fn failing(walk: &Walk) -> Walk
    ensures { result ≡ spec.failing walk.now }
{
    Walk {
        failing: true,
        ..*walk
    }
}

/// The answer of the function that boots the processor.
pub fn left_bring_up(borders: Borders, place: &Place, named: Named, code: i32) -> Result<Turn, Halt>
    ensures { result ≡ spec.left_bring_up borders place.now named code }
{
    match place.walk {
        None => Ok(quiet(named, *place)),
        Some(walk) => {
            if is_fault(code) {
                Ok(ending(named, place, Some(failing(&walk)), no_asks()))
            } else if is_turned(&walk) {
                Err(misfit(named, Wrong::NoAnswer))
            } else {
                ends(named, place, ended(borders, &walk, How::Went))
            }
        }
    }
}
