//! The event that a line says.

ghost use Rattle.std.specs.Prelude.{◌≡◌};
ghost use Rattle.hp_event.specs.declared.event.Role.TheVariants as role;
ghost use Rattle.hp_event.specs.declared.event.Event.TheVariants as event;
ghost use Rattle.hp_replay.specs.Tails.{numbered, valued};
ghost use Rattle.hp_replay.specs.EventAt.{role as role_at, admit_tail, way_tail, walk_tail, call_tail, walked_tail, enter_tail, refused_tail, done_tail, reg_tail, regged_tail, armed_tail, shown_states_tail, shown_tail, operation_tail, of_operation_tail, alone as event_alone, of_operation as event_of_operation, event as event_tail, event_at};

use crate::answer::{answer, how, walk_answer};
use crate::first_word::{EventWord, event_word};
use crate::line::Line;
use crate::words::Words;
use hp_event::{Event, File, Role, Version};
use hp_text::{integer, read_op};

/// An event as its line says it.
#[derive(Clone, Copy, Debug, PartialEq, Eq)]
pub struct NumberedEvent {
    /// The event.
    pub event: Event,
    /// The number of its operation, where the line names one.
    pub number: Option<u32>,
}

impl NumberedEvent {
    /// An event whose line names no operation.
    fn alone(event: Event) -> NumberedEvent
        ensures { result ≡ event_alone event }
    {
        NumberedEvent {
            event,
            number: None,
        }
    }
}

/// The words behind `ap`.
fn ap(words: &mut Words<'_>) -> Option<Role>
    ensures { result ≡ numbered (λ cpu. role.Ap cpu) words.old }
{
    let cpu = words.number()?;
    words.done(Role::Ap(cpu))
}

/// The role that the words say which are left.
#[tactic(auto, unfolding(crate::specs::EventAt::role))]
fn role(words: &mut Words<'_>) -> Option<Role>
    ensures { result ≡ role_at words.old }
{
    match words.next()? {
        b"client" => words.done(Role::Client),
        b"ap" => ap(words),
        _ => None,
    }
}

/// The words behind `admit`.
fn admit(words: &mut Words<'_>) -> Option<NumberedEvent>
    ensures { result ≡ admit_tail words.old }
{
    let seat = words.number()?;
    let role = role(words)?;
    Some(NumberedEvent::alone(Event::Admit { seat, role }))
}

/// The words behind `leave`.
fn leave(words: &mut Words<'_>) -> Option<NumberedEvent>
    ensures { result ≡ numbered (λ seat. event_alone (event.Leave seat)) words.old }
{
    let seat = words.number()?;
    words.done(NumberedEvent::alone(Event::Leave { seat }))
}

/// The words of a walk behind its processor: from where it goes, and to where.
fn way(seat: u32, cpu: u32, words: &mut Words<'_>) -> Option<NumberedEvent>
    ensures { result ≡ way_tail seat cpu words.old }
{
    let from = words.number()?;
    let to = words.number()?;
    words.done(NumberedEvent::alone(Event::WalkBegin {
        seat,
        cpu,
        from,
        to,
    }))
}

/// The words behind `walk`.
fn walk(words: &mut Words<'_>) -> Option<NumberedEvent>
    ensures { result ≡ walk_tail words.old }
{
    let seat = words.number()?;
    let cpu = words.number()?;
    way(seat, cpu, words)
}

/// The words behind `call`. They are read in one function, so that the event is made once.
fn call(words: &mut Words<'_>) -> Option<NumberedEvent>
    ensures { result ≡ call_tail words.old }
{
    let seat = words.number()?;
    let cpu = words.number()?;
    let state = words.number()?;
    let inst = words.number()?;
    let dir = words.dir()?;
    let how = how(words)?;
    let event = Event::Call {
        seat,
        cpu,
        state,
        inst,
        dir,
        how,
    };
    Some(NumberedEvent {
        event,
        number: None,
    })
}

/// The words behind `walked`.
fn walked(words: &mut Words<'_>) -> Option<NumberedEvent>
    ensures { result ≡ walked_tail words.old }
{
    let seat = words.number()?;
    let cpu = words.number()?;
    let answer = walk_answer(words)?;
    Some(NumberedEvent::alone(Event::WalkEnd { seat, cpu, answer }))
}

/// The words of an operation that takes the map lock.
fn enter(seat: u32, number: Option<u32>, words: &mut Words<'_>) -> Option<NumberedEvent>
    ensures { result ≡ enter_tail seat number words.old }
{
    let Ok(op) = read_op(words) else {
        return None;
    };
    Some(NumberedEvent {
        event: Event::Enter { seat, op },
        number,
    })
}

/// The words of an operation that is refused.
fn refused(seat: u32, number: Option<u32>, words: &mut Words<'_>) -> Option<NumberedEvent>
    ensures { result ≡ refused_tail seat number words.old }
{
    let errno = words.number()?;
    let Ok(op) = read_op(words) else {
        return None;
    };
    Some(NumberedEvent {
        event: Event::Refused { seat, errno, op },
        number,
    })
}

/// The words of an operation that gives the map lock back.
fn done(seat: u32, number: Option<u32>, words: &mut Words<'_>) -> Option<NumberedEvent>
    ensures { result ≡ done_tail seat number words.old }
{
    let answer = answer(words)?;
    Some(NumberedEvent {
        event: Event::OpEnd { seat, answer },
        number,
    })
}

/// The words of a registration that begins.
fn reg(seat: u32, number: Option<u32>, words: &mut Words<'_>) -> Option<NumberedEvent>
    ensures { result ≡ reg_tail seat number words.old }
{
    let state = words.number()?;
    let Ok(op) = read_op(words) else {
        return None;
    };
    Some(NumberedEvent {
        event: Event::RegBegin { seat, state, op },
        number,
    })
}

/// The words of a registration that ends.
fn regged(seat: u32, number: Option<u32>, words: &mut Words<'_>) -> Option<NumberedEvent>
    ensures { result ≡ regged_tail seat number words.old }
{
    let answer = answer(words)?;
    Some(NumberedEvent {
        event: Event::RegEnd { seat, answer },
        number,
    })
}

/// The words of a `fail` file that was written.
fn armed(seat: u32, number: Option<u32>, words: &mut Words<'_>) -> Option<NumberedEvent>
    ensures { result ≡ armed_tail seat number words.old }
{
    let cpu = words.number()?;
    let value = integer(words.next()?).ok()?;
    words.done(NumberedEvent {
        event: Event::Armed { seat, cpu, value },
        number,
    })
}

/// The words behind the name of a processor's file.
fn shown_of(
    seat: u32,
    number: Option<u32>,
    file: File,
    words: &mut Words<'_>,
) -> Option<NumberedEvent>
    ensures { result ≡ valued (λ cpu value. event_of_operation number (event.Shown seat file cpu value)) words.old }
{
    let cpu = words.number()?;
    let value = integer(words.next()?).ok()?;
    let event = Event::Shown {
        seat,
        file,
        cpu,
        value,
    };
    words.done(NumberedEvent { event, number })
}

/// The words behind `states`.
fn shown_states(seat: u32, number: Option<u32>, words: &mut Words<'_>) -> Option<NumberedEvent>
    ensures { result ≡ shown_states_tail seat number words.old }
{
    let value = integer(words.next()?).ok()?;
    let event = Event::Shown {
        seat,
        file: File::States,
        cpu: 0,
        value,
    };
    words.done(NumberedEvent { event, number })
}

/// The words of a file that was shown.
fn shown(seat: u32, number: Option<u32>, words: &mut Words<'_>) -> Option<NumberedEvent>
    ensures { result ≡ shown_tail seat number words.old }
{
    match words.next()? {
        b"state" => shown_of(seat, number, File::State, words),
        b"target" => shown_of(seat, number, File::Target, words),
        b"fail" => shown_of(seat, number, File::Fail, words),
        b"states" => shown_states(seat, number, words),
        _ => None,
    }
}

/// The words of an operation's event behind its seat, and its number where the line names it.
fn operation(
    word: EventWord,
    seat: u32,
    number: Option<u32>,
    words: &mut Words<'_>,
) -> Option<NumberedEvent>
    ensures { result ≡ operation_tail word seat number words.old }
{
    match word {
        EventWord::Enter => enter(seat, number, words),
        EventWord::Refused => refused(seat, number, words),
        EventWord::Done => done(seat, number, words),
        EventWord::Reg => reg(seat, number, words),
        EventWord::Regged => regged(seat, number, words),
        EventWord::Armed => armed(seat, number, words),
        EventWord::Shown => shown(seat, number, words),
        EventWord::Lock => words.done(NumberedEvent {
            event: Event::ReadLock { seat },
            number,
        }),
        EventWord::Unlock => words.done(NumberedEvent {
            event: Event::ReadUnlock { seat },
            number,
        }),
        EventWord::Wakeup => words.done(NumberedEvent {
            event: Event::Wakeup { seat },
            number,
        }),
        EventWord::Admit
        | EventWord::Leave
        | EventWord::Walk
        | EventWord::Call
        | EventWord::Walked => None,
    }
}

/// The words behind the first one of an operation's event.
fn of_operation(version: Version, word: EventWord, words: &mut Words<'_>) -> Option<NumberedEvent>
    ensures { result ≡ of_operation_tail version word words.old }
{
    let seat = words.number()?;
    match version {
        Version::One => operation(word, seat, None, words),
        Version::Two => {
            let number = words.number()?;
            operation(word, seat, Some(number), words)
        }
    }
}

/// The event that a line says in a version.
#[tactic(auto, unfolding(crate::specs::EventAt::event_at))]
pub fn event_of_line(version: Version, line: &Line<'_>) -> Option<NumberedEvent>
    ensures { result ≡ event_at version line.now.bytes.now }
{
    let mut words = line.words()?;
    // Most lines are entries'.
    if words.takes_call() {
        return call(&mut words);
    }
    event(version, &mut words)
}

/// The event that the words say which are left.
fn event(version: Version, words: &mut Words<'_>) -> Option<NumberedEvent>
    ensures { result ≡ event_tail version words.old }
{
    let word = words.next()?;
    match event_word(word)? {
        EventWord::Admit => admit(words),
        EventWord::Leave => leave(words),
        EventWord::Walk => walk(words),
        EventWord::Call => call(words),
        EventWord::Walked => walked(words),
        EventWord::Enter => of_operation(version, EventWord::Enter, words),
        EventWord::Refused => of_operation(version, EventWord::Refused, words),
        EventWord::Done => of_operation(version, EventWord::Done, words),
        EventWord::Reg => of_operation(version, EventWord::Reg, words),
        EventWord::Regged => of_operation(version, EventWord::Regged, words),
        EventWord::Lock => of_operation(version, EventWord::Lock, words),
        EventWord::Unlock => of_operation(version, EventWord::Unlock, words),
        EventWord::Armed => of_operation(version, EventWord::Armed, words),
        EventWord::Shown => of_operation(version, EventWord::Shown, words),
        EventWord::Wakeup => of_operation(version, EventWord::Wakeup, words),
    }
}
