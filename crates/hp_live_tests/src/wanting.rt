//! Want of memory: of a small whole run, each request for memory refused in turn.
//!
//! A test can't choose its allocator. So these pass with ample memory, as every test, and with any one request refused, which
//! `examples/check-memory` tries one after another: what memory was wanting for is asked once more, and the run ends with the
//! same journal. Each says whether memory was wanting.

use crate::again::{
    Wants, admitted_again, answered_again, down_again, head_again, machine_again, reads_again,
    removed_again, set_up_again, state_again, up_again,
};
use crate::client::Client;
use crate::heads::closed;
use hp_event::{Answer, Event, File, Form, How, Op, Role};
use hp_hook::{Hook, ScriptHook};
use hp_live::FreeGate;
use hp_states::Dir;
use std::process::Abort;
use std::sync::Wait;
use std::test::*;

const PLAIN: Form = Form {
    nocalls: false,
    locked: false,
};

const SETUP: Op = Op::Setup {
    state: 20,
    sub: 1,
    form: PLAIN,
};

const REMOVE: Op = Op::Remove {
    state: 20,
    form: PLAIN,
};

/// The operation of a setup, a remove or a walk ends well.
const DONE: Answer = Answer::Ok(0);

/// What a file of the second processor shows while that is online.
const SHOWN: Event = Event::Shown {
    seat: 0,
    file: File::State,
    cpu: 1,
    value: 200,
};

/// A startup of the state that is set up, on the second processor.
const STARTUP: Event = Event::Call {
    seat: 0,
    cpu: 1,
    state: 20,
    inst: 0,
    dir: Dir::Up,
    how: How::RanOk,
};

/// A teardown.
const TEARDOWN: Event = Event::Call {
    seat: 0,
    cpu: 1,
    state: 20,
    inst: 0,
    dir: Dir::Down,
    how: How::RanOk,
};

const WALKED: Event = Event::WalkEnd {
    seat: 0,
    cpu: 1,
    answer: DONE,
};

const ENDS: Event = Event::OpEnd {
    seat: 0,
    answer: DONE,
};

const REGISTERED: Event = Event::RegEnd {
    seat: 0,
    answer: DONE,
};

/// A subsystem is set up, the second processor comes up, its state is shown, outside a read section and in one, it goes down, and
/// the subsystem is removed. By the definitions of the machine, worked out by hand: the state stands below those of a processor's
/// own thread, so the one client makes each entry.
const EVENTS: [Event; 22] = [
    Event::Admit {
        seat: 0,
        role: Role::Client,
    },
    Event::RegBegin {
        seat: 0,
        state: 20,
        op: SETUP,
    },
    Event::Call {
        seat: 0,
        cpu: 0,
        state: 20,
        inst: 0,
        dir: Dir::Up,
        how: How::RanOk,
    },
    REGISTERED,
    Event::Enter {
        seat: 0,
        op: Op::Up(1),
    },
    Event::WalkBegin {
        seat: 0,
        cpu: 1,
        from: 0,
        to: 200,
    },
    STARTUP,
    WALKED,
    ENDS,
    SHOWN,
    Event::ReadLock { seat: 0 },
    SHOWN,
    Event::ReadUnlock { seat: 0 },
    Event::Enter {
        seat: 0,
        op: Op::Down(1),
    },
    Event::WalkBegin {
        seat: 0,
        cpu: 1,
        from: 200,
        to: 0,
    },
    TEARDOWN,
    WALKED,
    ENDS,
    Event::RegBegin {
        seat: 0,
        state: 20,
        op: REMOVE,
    },
    Event::Call {
        seat: 0,
        cpu: 0,
        state: 20,
        inst: 0,
        dir: Dir::Down,
        how: How::RanOk,
    },
    REGISTERED,
    Event::Leave { seat: 0 },
];

/// How often the hook is called.
const CALLS: u64 = 4;

/// The run by names of operations, but for its end.
fn runs_by_names<'m, R: Wait + Abort>(
    rt: &R,
    client: Client<'m, ScriptHook>,
    wants: &mut Wants,
) -> Client<'m, ScriptHook> {
    let mut client = client;
    let set_up = set_up_again(rt, &mut client, (20, 1), wants);
    assert!(rt; set_up.answer == DONE && set_up.hook.is_none());
    assert!(rt; up_again(rt, &mut client, 1, wants) == DONE);
    assert!(rt; state_again(rt, &mut client, 1, wants) == Answer::Ok(200));
    let (mut client, shown) = reads_again(rt, client, 1, wants);
    assert!(rt; shown == Answer::Ok(200));
    assert!(rt; down_again(rt, &mut client, 1, wants) == DONE);
    let removed = removed_again(rt, &mut client, 20, wants);
    assert!(rt; removed.answer == DONE);
    assert!(rt; removed.hook.map(|hook| hook.made()) == Some(CALLS));
    client
}

/// The run by asks, but for its end.
fn runs_by_asks<'m, R: Wait + Abort>(
    rt: &R,
    client: Client<'m, ScriptHook>,
    wants: &mut Wants,
) -> Client<'m, ScriptHook> {
    let mut client = client;
    let hook = Some(ScriptHook::new());
    let set_up = answered_again(rt, &mut client, SETUP, hook, wants);
    assert!(rt; set_up.answer == DONE && set_up.hook.is_none());
    let up = answered_again(rt, &mut client, Op::Up(1), None, wants);
    assert!(rt; up.answer == DONE);
    let shown = answered_again(rt, &mut client, Op::ShowState(1), None, wants);
    assert!(rt; shown.answer == Answer::Ok(200));
    let (mut client, shown) = reads_again(rt, client, 1, wants);
    assert!(rt; shown == Answer::Ok(200));
    let down = answered_again(rt, &mut client, Op::Down(1), None, wants);
    assert!(rt; down.answer == DONE);
    let removed = answered_again(rt, &mut client, REMOVE, None, wants);
    assert!(rt; removed.answer == DONE);
    assert!(rt; removed.hook.map(|hook| hook.made()) == Some(CALLS));
    client
}

#[test]
fn a_run_by_names_ends_as_without_a_refusal(rt: HostRuntime) -> Result<(), Fail> {
    let mut wants = Wants { times: 0 };
    let head = head_again(&rt, rt.alloc(), &mut wants);
    let (machine, mut root) = machine_again(&rt, rt.alloc(), &head, &mut wants);
    let client = admitted_again(&rt, &machine, &head, &mut root, &mut wants);
    let client = runs_by_names(&rt, client, &mut wants);
    client.leaves(&rt, &FreeGate);
    let journal = closed(&rt, machine, root);
    assert!(rt; journal.events() == &EVENTS[..], "{:?}", journal.events());
    println!(rt; "memory was wanting: {}", wants.times)?;
    Ok(())
}

#[test]
fn a_run_by_asks_ends_as_without_a_refusal(rt: HostRuntime) -> Result<(), Fail> {
    let mut wants = Wants { times: 0 };
    let head = head_again(&rt, rt.alloc(), &mut wants);
    let (machine, mut root) = machine_again(&rt, rt.alloc(), &head, &mut wants);
    let client = admitted_again(&rt, &machine, &head, &mut root, &mut wants);
    let client = runs_by_asks(&rt, client, &mut wants);
    client.leaves(&rt, &FreeGate);
    let journal = closed(&rt, machine, root);
    assert!(rt; journal.events() == &EVENTS[..], "{:?}", journal.events());
    println!(rt; "memory was wanting: {}", wants.times)?;
    Ok(())
}
