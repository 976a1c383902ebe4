//! A line of each kind of event, each operation, each way an entry is made, each answer and each file
//! shown, with the number of an operation where the event is one's.

use hp_event::{Answer, Event, File, Form, How, Op, Role};
use hp_print::{event_line, has_line};
use hp_states::{CpuSet, Dir};
use std::alloc::Global;
use std::process::Abort;
use std::test::Fail;

/// The number of an operation, which lines of events of none don't have.
const NUMBER: u32 = 8;

/// Compares the line of an event, with the number of its operation where it is one's.
fn check(
    rt: &impl Abort,
    alloc: Global,
    event: &Event,
    number: u32,
    wanted: &str,
) -> Result<(), Fail> {
    assert!(rt; has_line(event), "{wanted:?}");
    let line = event_line(alloc, event, number)?;
    assert!(rt; line.as_slice() == wanted.as_bytes(), "{wanted:?}");
    Ok(())
}

const PLAIN: Form = Form {
    nocalls: false,
    locked: false,
};

const NOCALLS: Form = Form {
    nocalls: true,
    ..PLAIN
};

const LOCKED: Form = Form {
    locked: true,
    ..PLAIN
};

const BOTH: Form = Form {
    nocalls: true,
    locked: true,
};

const STUCK: Answer = Answer::Stuck {
    first: 5,
    second: 11,
    at: 120,
};

/// Events, the numbers of their operations, and their lines.
const EVENTS: [(Event, u32, &'static str); 41] = [
    (
        Event::Admit {
            seat: 3,
            role: Role::Ap(7),
        },
        NUMBER,
        "admit 3 ap 7\n",
    ),
    (
        Event::Admit {
            seat: 4,
            role: Role::Client,
        },
        NUMBER,
        "admit 4 client\n",
    ),
    (Event::Leave { seat: 319 }, NUMBER, "leave 319\n"),
    (Event::ReadLock { seat: 0 }, NUMBER, "lock 0 8\n"),
    (Event::ReadUnlock { seat: 10 }, NUMBER, "unlock 10 8\n"),
    (Event::Wakeup { seat: 6 }, NUMBER, "wakeup 6 8\n"),
    (
        Event::Enter {
            seat: 3,
            op: Op::Thaw,
        },
        NUMBER,
        "enter 3 8 thaw\n",
    ),
    (
        Event::Armed {
            seat: 5,
            cpu: 2,
            value: -1,
        },
        NUMBER,
        "armed 5 8 2 -1\n",
    ),
    (
        Event::Armed {
            seat: 5,
            cpu: 255,
            value: 141,
        },
        NUMBER,
        "armed 5 8 255 141\n",
    ),
    (Event::ReadUnlock { seat: 10 }, 0, "unlock 10 0\n"),
    (Event::Leave { seat: 10 }, 0, "leave 10\n"),
    (Event::ReadUnlock { seat: 10 }, 1, "unlock 10 1\n"),
    (Event::Leave { seat: 10 }, 1, "leave 10\n"),
    (
        Event::ReadUnlock { seat: 10 },
        9_876_543,
        "unlock 10 9876543\n",
    ),
    (Event::Leave { seat: 10 }, 9_876_543, "leave 10\n"),
    (
        Event::ReadUnlock { seat: 10 },
        u32::MAX,
        "unlock 10 4294967295\n",
    ),
    (Event::Leave { seat: 10 }, u32::MAX, "leave 10\n"),
    (
        Event::Shown {
            seat: 5,
            file: File::State,
            cpu: 1,
            value: 200,
        },
        NUMBER,
        "shown 5 8 state 1 200\n",
    ),
    (
        Event::Shown {
            seat: 5,
            file: File::Target,
            cpu: 10,
            value: 0,
        },
        NUMBER,
        "shown 5 8 target 10 0\n",
    ),
    (
        Event::Shown {
            seat: 5,
            file: File::Fail,
            cpu: 2,
            value: -1,
        },
        NUMBER,
        "shown 5 8 fail 2 -1\n",
    ),
    (
        Event::Shown {
            seat: 5,
            file: File::States,
            cpu: 0,
            value: 12,
        },
        NUMBER,
        "shown 5 8 states 12\n",
    ),
    (
        Event::Enter {
            seat: 3,
            op: Op::UpMany(CpuSet {
                words: [1 << 3 | 1 << 12, 0, 0, 0],
            }),
        },
        NUMBER,
        "enter 3 8 upmany 3 12\n",
    ),
    (
        Event::OpEnd {
            seat: 3,
            answer: Answer::Ok(0),
        },
        NUMBER,
        "done 3 8 ok 0\n",
    ),
    (
        Event::OpEnd {
            seat: 3,
            answer: Answer::Ok(-1),
        },
        NUMBER,
        "done 3 8 ok -1\n",
    ),
    (
        Event::OpEnd {
            seat: 3,
            answer: Answer::Refused(16),
        },
        NUMBER,
        "done 3 8 refused 16\n",
    ),
    (
        Event::OpEnd {
            seat: 3,
            answer: Answer::Fault(4095),
        },
        NUMBER,
        "done 3 8 fault 4095\n",
    ),
    (
        Event::OpEnd {
            seat: 3,
            answer: STUCK,
        },
        NUMBER,
        "done 3 8 stuck 5 11 120\n",
    ),
    (
        Event::OpEnd {
            seat: 3,
            answer: Answer::LogFull,
        },
        NUMBER,
        "done 3 8 full\n",
    ),
    (
        Event::WalkEnd {
            seat: 3,
            cpu: 1,
            answer: Answer::Ok(0),
        },
        NUMBER,
        "walked 3 1 ok\n",
    ),
    (
        Event::WalkEnd {
            seat: 3,
            cpu: 1,
            answer: Answer::Fault(4095),
        },
        NUMBER,
        "walked 3 1 fault 4095\n",
    ),
    (
        Event::WalkEnd {
            seat: 3,
            cpu: 1,
            answer: STUCK,
        },
        NUMBER,
        "walked 3 1 stuck 5 11 120\n",
    ),
    (
        Event::RegBegin {
            seat: 3,
            state: 142,
            op: Op::Setup {
                state: 141,
                sub: 2,
                form: LOCKED,
            },
        },
        NUMBER,
        "reg 3 8 142 setup 141 2 locked\n",
    ),
    (
        Event::RegEnd {
            seat: 3,
            answer: Answer::Ok(142),
        },
        NUMBER,
        "regged 3 8 ok 142\n",
    ),
    (
        Event::RegEnd {
            seat: 3,
            answer: Answer::Fault(4095),
        },
        NUMBER,
        "regged 3 8 fault 4095\n",
    ),
    (
        Event::WalkBegin {
            seat: 3,
            cpu: 1,
            from: 200,
            to: 0,
        },
        NUMBER,
        "walk 3 1 200 0\n",
    ),
    (
        Event::Call {
            seat: 3,
            cpu: 1,
            state: 30,
            inst: 9,
            dir: Dir::Up,
            how: How::RanOk,
        },
        NUMBER,
        "call 3 1 30 9 up ok\n",
    ),
    (
        Event::Call {
            seat: 3,
            cpu: 1,
            state: 30,
            inst: 9,
            dir: Dir::Down,
            how: How::RanFault(1),
        },
        NUMBER,
        "call 3 1 30 9 down fault 1\n",
    ),
    (
        Event::Call {
            seat: 3,
            cpu: 1,
            state: 30,
            inst: 9,
            dir: Dir::Up,
            how: How::Injected,
        },
        NUMBER,
        "call 3 1 30 9 up injected\n",
    ),
    (
        Event::Call {
            seat: 3,
            cpu: 1,
            state: 30,
            inst: 9,
            dir: Dir::Down,
            how: How::Empty,
        },
        NUMBER,
        "call 3 1 30 9 down empty\n",
    ),
    (
        Event::Call {
            seat: 3,
            cpu: 1,
            state: 30,
            inst: 9,
            dir: Dir::Up,
            how: How::Presumed,
        },
        NUMBER,
        "call 3 1 30 9 up presumed\n",
    ),
    (
        Event::Call {
            seat: 3,
            cpu: 1,
            state: 30,
            inst: 9,
            dir: Dir::Down,
            how: How::Overruled(4095),
        },
        NUMBER,
        "call 3 1 30 9 down overruled 4095\n",
    ),
];

/// Operations that are refused, and the lines of that.
const OF_OPERATIONS: [(Op, &'static str); 30] = [
    (Op::Up(0), "refused 3 8 22 up 0\n"),
    (Op::Down(4095), "refused 3 8 22 down 4095\n"),
    (Op::Target(1, 140), "refused 3 8 22 target 1 140\n"),
    (Op::Target(4095, -7), "refused 3 8 22 target 4095 -7\n"),
    (Op::Arm(2, 120), "refused 3 8 22 fail 2 120\n"),
    (Op::Arm(2, -1), "refused 3 8 22 fail 2 -1\n"),
    (Op::ShowState(9), "refused 3 8 22 show state 9\n"),
    (Op::ShowTarget(10), "refused 3 8 22 show target 10\n"),
    (Op::ShowFail(99), "refused 3 8 22 show fail 99\n"),
    (Op::ShowStates, "refused 3 8 22 show states\n"),
    (
        Op::Setup {
            state: 141,
            sub: 128,
            form: PLAIN,
        },
        "refused 3 8 22 setup 141 128\n",
    ),
    (
        Op::Setup {
            state: 65535,
            sub: 1,
            form: NOCALLS,
        },
        "refused 3 8 22 setup 65535 1 nocalls\n",
    ),
    (
        Op::Remove {
            state: 100,
            form: PLAIN,
        },
        "refused 3 8 22 remove 100\n",
    ),
    (
        Op::Remove {
            state: 100,
            form: LOCKED,
        },
        "refused 3 8 22 remove 100 locked\n",
    ),
    (
        Op::Add {
            state: 41,
            inst: 65535,
            form: BOTH,
        },
        "refused 3 8 22 add 41 65535 nocalls locked\n",
    ),
    (
        Op::Del {
            state: 41,
            inst: 1,
            form: PLAIN,
        },
        "refused 3 8 22 del 41 1\n",
    ),
    (Op::Lock, "refused 3 8 22 lock\n"),
    (Op::Unlock, "refused 3 8 22 unlock\n"),
    (Op::Boot(4), "refused 3 8 22 boot 4\n"),
    (Op::Disable, "refused 3 8 22 disable\n"),
    (Op::Enable, "refused 3 8 22 enable\n"),
    (Op::Freeze(-1), "refused 3 8 22 freeze -1\n"),
    (Op::Freeze(255), "refused 3 8 22 freeze 255\n"),
    (Op::Thaw, "refused 3 8 22 thaw\n"),
    (Op::Wakeup, "refused 3 8 22 wakeup\n"),
    (
        Op::UpMany(CpuSet {
            words: [1, 0, 0, 0],
        }),
        "refused 3 8 22 upmany 0\n",
    ),
    (
        Op::UpMany(CpuSet {
            words: [0b1010_0110, 0, 0, 0],
        }),
        "refused 3 8 22 upmany 1 2 5 7\n",
    ),
    (
        Op::UpMany(CpuSet {
            words: [1 << 63, 1, 0, 0],
        }),
        "refused 3 8 22 upmany 63 64\n",
    ),
    (
        Op::UpMany(CpuSet {
            words: [0, 0, 0, 1 << 63],
        }),
        "refused 3 8 22 upmany 255\n",
    ),
    (
        Op::UpMany(CpuSet {
            words: [1 << 9, 1 << 36, 3, 1 << 8],
        }),
        "refused 3 8 22 upmany 9 100 128 129 200\n",
    ),
];

#[test]
fn a_line_of_each_event(rt: HostRuntime) -> Result<(), Fail> {
    for (event, number, wanted) in EVENTS.iter() {
        check(&rt, rt.alloc(), event, *number, wanted)?;
    }
    Ok(())
}

#[test]
fn a_line_of_each_operation(rt: HostRuntime) -> Result<(), Fail> {
    for &(op, wanted) in OF_OPERATIONS.iter() {
        let refused = Event::Refused {
            seat: 3,
            errno: 22,
            op,
        };
        check(&rt, rt.alloc(), &refused, NUMBER, wanted)?;
    }
    Ok(())
}

#[test]
fn an_upmany_of_none_has_no_line(rt: HostRuntime) {
    let op = Op::UpMany(CpuSet { words: [0; 4] });
    assert!(rt;
        !has_line(&Event::Refused {
            seat: 3,
            errno: 22,
            op,
        })
    );
    assert!(rt; !has_line(&Event::Enter { seat: 3, op }));
}
