//! What an event does.

ghost use Rattle.std.specs.Prelude.{◌≡◌};
ghost use Rattle.hp_trace_judge.specs.Events as spec;

use crate::place::{Entered, Halt, Named, Place, Turn, Way};
use crate::turn::{
    kick, left_bring_up, left_call, left_callback, left_kick, named, quiet, state_of,
};
use hp_trace::{Event, Function, Mark, Payload};
use hp_trace_walk::{Borders, MOST_STATES};

/// Where a reader stands with this function open in which others are called.
fn with_mark(place: &Place, entered: Entered) -> Place
    ensures { result ≡ spec.with_mark place.now entered }
{
    Place {
        mark: Some(entered),
        ..*place
    }
}

/// Where a reader stands with this callback open.
fn with_call(place: &Place, entered: Entered) -> Place
    ensures { result ≡ spec.with_call place.now entered }
{
    Place {
        call: Some(entered),
        ..*place
    }
}

/// The enter of a function that boots a processor: it is a call as it is entered, since callbacks are called in it.
fn bring_up(borders: Borders, place: &Place, entered: &Entered) -> Result<Turn, Halt>
    ensures { result ≡ spec.bring_up borders place.now entered.now }
{
    match left_call(borders, place, entered, true, 0, false) {
        Err(halt) => Err(halt),
        Ok(turn) => Ok(Turn {
            named: turn.named,
            place: with_mark(&turn.place, *entered),
            closed: turn.closed,
            forget: turn.forget,
            asked: turn.asked,
        }),
    }
}

/// The enter of a function.
fn enter(borders: Borders, place: &Place, entered: &Entered) -> Result<Turn, Halt>
    ensures { result ≡ spec.enter borders place.now entered.now }
{
    match entered.function {
        Function::Mark(Mark::Kick) => kick(borders, &with_mark(place, *entered), entered),
        Function::Mark(Mark::BringUp) => bring_up(borders, place, entered),
        Function::Mark(Mark::TakeDown) => Ok(quiet(
            named(entered, entered.line, Way::Begin),
            with_mark(place, *entered),
        )),
        Function::Callback => Ok(quiet(
            named(entered, entered.line, Way::Begin),
            with_call(place, *entered),
        )),
    }
}

/// The exit of a function in which others are called.
fn leave_mark(
    borders: Borders,
    place: &Place,
    line: u32,
    mark: &Entered,
    state: u32,
    code: i32,
) -> Result<Turn, Halt>
    ensures { result ≡ spec.leave_mark borders place.now line mark.now state code }
{
    let answer = named(mark, line, Way::Answer);
    match mark.function {
        Function::Mark(Mark::Kick) => left_kick(borders, place, answer, state, code),
        Function::Mark(Mark::BringUp) => left_bring_up(borders, place, answer, code),
        Function::Mark(Mark::TakeDown) => left_call(borders, place, mark, false, code, false),
        Function::Callback => Ok(quiet(answer, *place)),
    }
}

/// Where a reader stands with no callback open.
fn without_call(place: &Place) -> Place
    ensures { result ≡ spec.without_call place.now }
{
    Place {
        call: None,
        ..*place
    }
}

/// Where a reader stands with nothing open.
fn with_nothing(place: &Place) -> Place
    ensures { result ≡ spec.with_nothing place.now }
{
    Place {
        mark: None,
        call: None,
        ..*place
    }
}

/// The exit of the last that was entered of what is open. Where nothing is, it does nothing.
fn leave(borders: Borders, place: &Place, left: Named, state: u32, code: i32) -> Result<Turn, Halt>
    ensures { result ≡ spec.leave borders place.now left state code }
{
    match (place.call, place.mark) {
        (Some(call), _) => left_callback(borders, &without_call(place), &call, state, code),
        (None, Some(mark)) => leave_mark(
            borders,
            &with_nothing(place),
            left.line,
            &mark,
            state,
            code,
        ),
        (None, None) => Ok(quiet(left, *place)),
    }
}

/// The enter of a function, of a state and with a target that a table has.
fn entered_turn(borders: Borders, place: &Place, entered: &Entered) -> Result<Turn, Halt>
    ensures { result ≡ spec.entered_turn borders place.now entered.now }
{
    if entered.step < MOST_STATES {
        enter(borders, place, entered)
    } else {
        Err(Halt::Far)
    }
}

/// What an event does, of the line of this number.
pub fn turn_of(borders: Borders, place: &Place, line: u32, event: &Event) -> Result<Turn, Halt>
    ensures { result ≡ spec.turn_of borders place.now line event.now }
{
    match event.payload {
        Payload::Entered {
            multi,
            cpu,
            target,
            step,
            function,
        } => match state_of(target) {
            None => Err(Halt::Far),
            Some(target) => {
                let entered = Entered {
                    line,
                    cpu,
                    step,
                    target,
                    multi,
                    function,
                };
                entered_turn(borders, place, &entered)
            }
        },
        Payload::Left {
            cpu,
            state,
            step,
            code,
        } => match state_of(state) {
            None => Err(Halt::Far),
            Some(state) => {
                let left = Named {
                    line,
                    cpu,
                    step,
                    way: Way::Answer,
                };
                leave(borders, place, left, state, code)
            }
        },
    }
}
