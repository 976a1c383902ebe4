//! The law that the numbers of the code's events are within their fields' types.
//!
//! A definition says of an event's numbers only that they are numbers. Of an event that the code
//! holds more is known, and these functions say it: they look at each number and do nothing.

ghost use Rattle.std.specs.Prelude.{ℤ, All};
ghost use Rattle.hp_replay.specs.Fits.{IsU32, IsI32, OpFits, HowFits, AnswerFits, RoleFits, EventFits};

use hp_event::{Answer, Event, How, Key, Op, Role};
use hp_text::{integer_fits, number_fits, op_fits};

fn how_fits(how: How)
    ensures { HowFits how }
{
    match how {
        How::RanFault(code) | How::Overruled(code) => number_fits(code),
        How::RanOk | How::Injected | How::Empty | How::Presumed => {}
    }
}

fn answer_fits(answer: Answer)
    ensures { AnswerFits answer }
{
    match answer {
        Answer::Ok(value) => integer_fits(value),
        Answer::Refused(errno) => number_fits(errno),
        Answer::Fault(code) => number_fits(code),
        Answer::Stuck { first, second, at } => {
            number_fits(first);
            number_fits(second);
            number_fits(at)
        }
        Answer::LogFull => {}
    }
}

fn role_fits(role: Role)
    ensures { RoleFits role }
{
    match role {
        Role::Client => {}
        Role::Ap(cpu) => number_fits(cpu),
    }
}

/// The numbers of an event that asks for an operation.
fn asked_fits(seat: u32, number: u32, op: Op)
    ensures { IsU32 seat × IsU32 number × OpFits op }
{
    number_fits(seat);
    number_fits(number);
    op_fits(op)
}

/// The numbers of an event that begins a walk.
fn walk_fits(seat: u32, cpu: u32, from: u32, to: u32)
    ensures { IsU32 seat × IsU32 cpu × IsU32 from × IsU32 to }
{
    number_fits(seat);
    number_fits(cpu);
    number_fits(from);
    number_fits(to)
}

/// The numbers of an entry.
fn call_fits(seat: u32, cpu: u32, key: Key, how: How)
    ensures { IsU32 seat × IsU32 cpu × IsU32 key.state × IsU32 key.inst × HowFits how }
{
    number_fits(seat);
    number_fits(cpu);
    number_fits(key.state);
    number_fits(key.inst);
    how_fits(how)
}

/// The numbers of an event that answers.
fn answered_fits(seat: u32, cpu: u32, answer: Answer)
    ensures { IsU32 seat × IsU32 cpu × AnswerFits answer }
{
    number_fits(seat);
    number_fits(cpu);
    answer_fits(answer)
}

/// The numbers of an event that has a file's value.
fn value_fits(seat: u32, cpu: u32, value: i32)
    ensures { IsU32 seat × IsU32 cpu × IsI32 value }
{
    number_fits(seat);
    number_fits(cpu);
    integer_fits(value)
}

/// The numbers of an event that lets a seat in.
fn admit_fits(seat: u32, role: Role)
    ensures { IsU32 seat × RoleFits role }
{
    number_fits(seat);
    role_fits(role)
}

/// Each number of an event is within the range of its field. Takes no memory. This project's own.
pub fn event_fits(event: &Event)
    ensures { EventFits event.now }
{
    match *event {
        Event::Admit { seat, role } => admit_fits(seat, role),
        Event::Leave { seat }
        | Event::ReadLock { seat }
        | Event::ReadUnlock { seat }
        | Event::Wakeup { seat } => number_fits(seat),
        Event::Enter { seat, op } => asked_fits(seat, 0, op),
        Event::Refused { seat, errno, op } => asked_fits(seat, errno, op),
        Event::RegBegin { seat, state, op } => asked_fits(seat, state, op),
        Event::WalkBegin {
            seat,
            cpu,
            from,
            to,
        } => walk_fits(seat, cpu, from, to),
        Event::Call {
            seat,
            cpu,
            state,
            inst,
            how,
            ..
        } => call_fits(seat, cpu, Key { state, inst }, how),
        Event::WalkEnd { seat, cpu, answer } => answered_fits(seat, cpu, answer),
        Event::OpEnd { seat, answer } => answered_fits(seat, 0, answer),
        Event::RegEnd { seat, answer } => answered_fits(seat, 0, answer),
        Event::Armed { seat, cpu, value } => value_fits(seat, cpu, value),
        Event::Shown {
            seat,
            cpu,
            value,
            ..
        } => value_fits(seat, cpu, value),
    }
}

/// Each number of some events is within the range of its field. Takes no memory, and time for the
/// events. This project's own.
pub fn events_fit(events: &[Event])
    ensures { All EventFits events.now }
{
    for event in events {
        event_fits(event);
    }
}
