//! A text with a line of each kind of event, in both versions, and the events that its lines say.

use hp_event::{Answer, Event, File, Form, How, Op, Role};
use hp_replay::{check, check1};
use hp_states::Dir;
use std::test::*;

/// A client reads, sets a state up, brings a processor up, arms a fault of it, is refused a target, wakes up and leaves.
pub const TEXT: &'static [u8] = b"\
cpuhp journal 2
cpus 2
absent -
sub net:a both single
events
admit 0 ap 0
admit 1 ap 1
admit 2 client
lock 2 1
unlock 2 2
reg 2 3 150 setup 150 1
call 0 0 150 0 up ok
regged 2 3 ok 0
enter 2 4 up 1
walk 2 1 0 200
call 1 1 150 0 up ok
walked 2 1 ok
done 2 4 ok 0
armed 2 5 1 150
shown 2 6 fail 1 150
refused 2 7 22 target 0 101
wakeup 2 8
leave 2
end 18
";

/// The same in version 1.
const OLD_TEXT: &'static [u8] = b"\
cpuhp journal 1
cpus 2
absent -
sub net:a both single
events
admit 0 ap 0
admit 1 ap 1
admit 2 client
lock 2
unlock 2
reg 2 150 setup 150 1
call 0 0 150 0 up ok
regged 2 ok 0
enter 2 up 1
walk 2 1 0 200
call 1 1 150 0 up ok
walked 2 1 ok
done 2 ok 0
armed 2 1 150
shown 2 fail 1 150
refused 2 22 target 0 101
wakeup 2
leave 2
end 18
";

/// The events that they say.
const EVENTS: [Event; 18] = [
    Event::Admit {
        seat: 0,
        role: Role::Ap(0),
    },
    Event::Admit {
        seat: 1,
        role: Role::Ap(1),
    },
    Event::Admit {
        seat: 2,
        role: Role::Client,
    },
    Event::ReadLock { seat: 2 },
    Event::ReadUnlock { seat: 2 },
    Event::RegBegin {
        seat: 2,
        state: 150,
        op: Op::Setup {
            state: 150,
            sub: 1,
            form: Form {
                nocalls: false,
                locked: false,
            },
        },
    },
    Event::Call {
        seat: 0,
        cpu: 0,
        state: 150,
        inst: 0,
        dir: Dir::Up,
        how: How::RanOk,
    },
    Event::RegEnd {
        seat: 2,
        answer: Answer::Ok(0),
    },
    Event::Enter {
        seat: 2,
        op: Op::Up(1),
    },
    Event::WalkBegin {
        seat: 2,
        cpu: 1,
        from: 0,
        to: 200,
    },
    Event::Call {
        seat: 1,
        cpu: 1,
        state: 150,
        inst: 0,
        dir: Dir::Up,
        how: How::RanOk,
    },
    Event::WalkEnd {
        seat: 2,
        cpu: 1,
        answer: Answer::Ok(0),
    },
    Event::OpEnd {
        seat: 2,
        answer: Answer::Ok(0),
    },
    Event::Armed {
        seat: 2,
        cpu: 1,
        value: 150,
    },
    Event::Shown {
        seat: 2,
        file: File::Fail,
        cpu: 1,
        value: 150,
    },
    Event::Refused {
        seat: 2,
        errno: 22,
        op: Op::Target(0, 101),
    },
    Event::Wakeup { seat: 2 },
    Event::Leave { seat: 2 },
];

#[test]
fn a_line_says_its_event(rt: HostRuntime) -> Result<(), Fail> {
    let journal = check(rt.alloc(), TEXT)?;
    assert!(rt; journal.events() == EVENTS.as_slice());
    Ok(())
}

#[test]
fn a_line_of_version_1_says_its_event(rt: HostRuntime) -> Result<(), Fail> {
    let journal = check1(rt.alloc(), OLD_TEXT)?;
    assert!(rt; journal.events() == EVENTS.as_slice());
    Ok(())
}
