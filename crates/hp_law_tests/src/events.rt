//! What a law lets stand after two setups.

use super::heads::{ONE, Row};
use super::laws::{started, takes};
use hp_event::{Answer, Event, File, Form, How, Op, Role};
use hp_law::Law;
use hp_states::Dir;
use std::process::Abort;
use std::test::Fail;

/// Two processors and two subsystems.
const TWO: Row = Row {
    name: "two processors",
    possible: 2,
    subs: 2,
    ..ONE
};

/// The form with calls, outside of read sections.
const FORM: Form = Form {
    nocalls: false,
    locked: false,
};

/// The threads of two processors and a client come in, and the client sets up the states 120 and 150.
const TWO_SETUPS: [Event; 9] = [
    Event::Admit {
        seat: 0,
        role: Role::Ap(0),
    },
    Event::Admit {
        seat: 1,
        role: Role::Ap(1),
    },
    Event::Admit {
        seat: 2,
        role: Role::Client,
    },
    Event::RegBegin {
        seat: 2,
        state: 120,
        op: Op::Setup {
            state: 120,
            sub: 1,
            form: FORM,
        },
    },
    Event::Call {
        seat: 0,
        cpu: 0,
        state: 120,
        inst: 0,
        dir: Dir::Up,
        how: How::RanOk,
    },
    Event::RegEnd {
        seat: 2,
        answer: Answer::Ok(0),
    },
    Event::RegBegin {
        seat: 2,
        state: 150,
        op: Op::Setup {
            state: 150,
            sub: 2,
            form: FORM,
        },
    },
    Event::Call {
        seat: 0,
        cpu: 0,
        state: 150,
        inst: 0,
        dir: Dir::Up,
        how: How::RanOk,
    },
    Event::RegEnd {
        seat: 2,
        answer: Answer::Ok(0),
    },
];

/// The named states, shown of a processor's number.
fn shown(cpu: u32) -> Event {
    Event::Shown {
        seat: 2,
        file: File::States,
        cpu,
        value: 11,
    }
}

/// Those events are taken one after another, and the first not once more. Behind them the named states are shown with
/// the number 0 for the processor: no text says another.
fn assert_taken(rt: &impl Abort, law: &mut Law) {
    for event in TWO_SETUPS.iter() {
        let at = law.len();
        assert!(rt; takes(rt, law, event), "event {at}");
    }
    assert!(rt; !takes(rt, law, &TWO_SETUPS[0]), "a thread comes in twice");
    assert!(rt; !law.can_stand(&shown(1)), "of a processor");
    let named = shown(0);
    assert!(rt; law.can_stand(&named), "of no processor");
    assert!(rt; law.take(&named).is_ok(), "memory for an event");
}

#[test]
fn the_named_states_are_of_no_processor(rt: HostRuntime) -> Result<(), Fail> {
    let mut law = started(&rt, rt.alloc(), &TWO)?;
    assert_taken(&rt, &mut law);
    let journal = law.into_journal();
    assert!(rt; (journal.len(), journal.promised()) == (10, 0));
    Ok(())
}
