//! What no clause says of hp_model: that memory suffices where it is ample, and what is settled, registered and in
//! force after one journal.

use hp_event::{Answer, Event, Form, Head, How, Journal, Key, Name, Numbers, Op, Sub, Subs};
use hp_model::{net_of, registered_of, settled_of};
use hp_states::{Dir, HookPlan};
use std::alloc::Global;
use std::process::Abort;

const FORM: Form = Form {
    nocalls: false,
    locked: false,
};

/// Two instances are added, and then processor 1 goes up to state 160.
const EVENTS: [Event; 11] = [
    Event::RegBegin {
        seat: 2,
        state: 150,
        op: Op::Setup {
            state: 150,
            sub: 1,
            form: FORM,
        },
    },
    Event::RegEnd {
        seat: 2,
        answer: Answer::Ok(0),
    },
    Event::RegBegin {
        seat: 2,
        state: 150,
        op: Op::Add {
            state: 150,
            inst: 1,
            form: FORM,
        },
    },
    Event::Call {
        seat: 0,
        cpu: 0,
        state: 150,
        inst: 1,
        dir: Dir::Up,
        how: How::RanOk,
    },
    Event::RegEnd {
        seat: 2,
        answer: Answer::Ok(0),
    },
    Event::RegBegin {
        seat: 2,
        state: 150,
        op: Op::Add {
            state: 150,
            inst: 2,
            form: FORM,
        },
    },
    Event::Call {
        seat: 0,
        cpu: 0,
        state: 150,
        inst: 2,
        dir: Dir::Up,
        how: How::RanOk,
    },
    Event::RegEnd {
        seat: 2,
        answer: Answer::Ok(0),
    },
    Event::WalkBegin {
        seat: 2,
        cpu: 1,
        from: 0,
        to: 160,
    },
    Event::Call {
        seat: 1,
        cpu: 1,
        state: 150,
        inst: 2,
        dir: Dir::Up,
        how: How::RanOk,
    },
    Event::WalkEnd {
        seat: 2,
        cpu: 1,
        answer: Answer::Ok(0),
    },
];

/// The two keys, and the second of them.
const FIRST: Key = Key {
    state: 150,
    inst: 1,
};

const SECOND: Key = Key {
    state: 150,
    inst: 2,
};

/// Two processors, and a subsystem with both callbacks whose state has instances.
fn head_of(rt: &impl Abort, alloc: Global) -> Head {
    let mut subs = Subs::new(alloc);
    let sub = Sub {
        name: Name::new(alloc),
        up: true,
        down: true,
        multi: true,
        plan: HookPlan::none(),
    };
    assert!(rt; subs.push(sub).is_ok());
    Head {
        possible: 2,
        absent: Numbers::new(alloc),
        subs,
    }
}

/// Adds all the events to a journal.
fn fills(rt: &impl Abort, journal: &mut Journal) {
    for event in EVENTS.iter() {
        assert!(rt; journal.reserve(1).is_ok() && journal.promised() > 0);
        journal.push(*event);
    }
}

/// Which keys are in force on a processor: in rising order.
fn has_in_force(rt: &impl Abort, alloc: Global, journal: &Journal, cpu: u32, wanted: &[Key]) {
    let Ok(keys) = net_of(alloc, journal, cpu) else {
        panic!(rt; "memory for keys");
    };
    assert!(rt; keys.as_slice() == wanted, "on {cpu}");
}

/// Which keys are registered: the newest first.
fn has_registered(rt: &impl Abort, alloc: Global, journal: &Journal, wanted: &[Key]) {
    let Ok(keys) = registered_of(alloc, journal) else {
        panic!(rt; "memory for keys");
    };
    assert!(rt; keys.as_slice() == wanted);
}

#[test]
fn a_journal_says_what_is_settled_registered_and_in_force(rt: HostRuntime) {
    let alloc = rt.alloc();
    let mut journal = Journal::new(alloc, head_of(&rt, alloc));
    fills(&rt, &mut journal);
    for (cpu, state) in [(0, 200), (1, 160), (5, 0)] {
        assert!(rt; settled_of(&journal, cpu) == state, "on {cpu}");
    }
    has_in_force(&rt, alloc, &journal, 0, &[FIRST, SECOND]);
    has_in_force(&rt, alloc, &journal, 1, &[SECOND]);
    has_registered(&rt, alloc, &journal, &[SECOND, FIRST]);
}
