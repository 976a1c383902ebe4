//! Which entries hooks are lent for, who waits for a hook that is lent, and what goes on meanwhile.

use crate::play::play;
use crate::rows::Does::{Asks, GoesOn, Serves, SetsUp};
use crate::rows::Wanted::{Ends, Faults, Made, Waits};
use crate::rows::{Answers, Lends, Part, Row};
use hp_event::{How, Op};
use hp_locks::Why;
use hp_states::Dir;
use std::test::Fail;

/// A board of two processors and two clients, which brings up the second processor with a hook at state 120.
const WALK: Row = Row {
    name: "a hook is lent for a walk and waited for",
    cpus: 2,
    clients: 2,
    subs: (Answers::Zero, Answers::Zero),
    parts: &[
        Part {
            steps: &[
                (2, SetsUp(120, 1), Made(4)),
                (0, Serves, Made(5)),
                (2, GoesOn, Ends(6)),
                (2, Asks(Op::Up(1)), Made(7)),
                (2, GoesOn, Made(8)),
            ],
            nothing: &[0],
            lends: Some(Lends {
                by: 1,
                beside: None,
                steps: &[
                    (2, GoesOn, Waits(Why::HookOut(120))),
                    (3, Asks(Op::Arm(1, 120)), Waits(Why::HookOut(120))),
                    (3, Asks(Op::ShowState(1)), Ends(9)),
                ],
                nothing: &[1],
                answer: 0,
                at: 10,
            }),
        },
        Part {
            steps: &[
                (3, Asks(Op::Arm(1, 120)), Ends(11)),
                (2, GoesOn, Made(12)),
                (2, GoesOn, Ends(13)),
            ],
            nothing: &[],
            lends: None,
        },
    ],
    entries: &[(10, 1, 1, 120, Dir::Up, How::RanOk)],
    len: 14,
    states: None,
    left: None,
    hooks: &[(120, 2, 0)],
};

const EMPTY: Row = Row {
    name: "an empty entry is not lent",
    clients: 1,
    subs: (Answers::NoStartup, Answers::Zero),
    parts: &[
        Part {
            steps: &[(2, SetsUp(120, 1), Made(3))],
            nothing: &[0],
            lends: None,
        },
        Part {
            steps: &[(0, Serves, Made(4)), (2, GoesOn, Ends(5))],
            nothing: &[],
            lends: None,
        },
    ],
    entries: &[(4, 0, 0, 120, Dir::Up, How::Empty)],
    len: 6,
    hooks: &[(120, 0, 0)],
    ..WALK
};

const INJECTED: Row = Row {
    name: "an injected fault is not lent",
    clients: 1,
    parts: &[
        Part {
            steps: &[
                (2, SetsUp(120, 1), Made(3)),
                (0, Serves, Made(4)),
                (2, GoesOn, Ends(5)),
                (2, Asks(Op::Arm(1, 120)), Ends(6)),
                (2, Asks(Op::Up(1)), Made(7)),
                (2, GoesOn, Made(8)),
            ],
            nothing: &[1],
            lends: None,
        },
        Part {
            steps: &[
                (1, Serves, Made(9)),
                (2, GoesOn, Made(10)),
                (2, GoesOn, Faults(11, 11)),
            ],
            nothing: &[],
            lends: None,
        },
    ],
    entries: &[(9, 1, 1, 120, Dir::Up, How::Injected)],
    len: 12,
    hooks: &[(120, 1, 0)],
    ..WALK
};

/// The second lent hook answers a fault, and the first is lent again to undo.
const FAULT: Row = Row {
    name: "a fault of a lent hook rolls the walk back",
    clients: 1,
    subs: (Answers::Zero, Answers::Five),
    parts: &[
        Part {
            steps: &[
                (2, SetsUp(110, 1), Made(3)),
                (0, Serves, Made(4)),
                (2, GoesOn, Ends(5)),
                (2, SetsUp(120, 2), Made(6)),
                (0, Serves, Made(7)),
                (2, GoesOn, Ends(8)),
                (2, Asks(Op::Up(1)), Made(9)),
                (2, GoesOn, Made(10)),
                (1, Serves, Made(11)),
            ],
            nothing: &[],
            lends: Some(Lends {
                by: 1,
                beside: None,
                steps: &[],
                nothing: &[],
                answer: 5,
                at: 12,
            }),
        },
        Part {
            steps: &[],
            nothing: &[],
            lends: Some(Lends {
                by: 1,
                beside: None,
                steps: &[],
                nothing: &[],
                answer: 0,
                at: 13,
            }),
        },
        Part {
            steps: &[(2, GoesOn, Made(14)), (2, GoesOn, Faults(5, 15))],
            nothing: &[],
            lends: None,
        },
    ],
    entries: &[
        (12, 1, 1, 120, Dir::Up, How::RanFault(5)),
        (13, 1, 1, 110, Dir::Down, How::RanOk),
    ],
    len: 16,
    hooks: &[(110, 3, 0), (120, 2, 1)],
    ..WALK
};

/// While a hook is lent for an entry of a registration the one that registers waits for it, and a write of `fail` waits
/// for no hook.
const REGISTRATION: Row = Row {
    name: "one thread at a time is lent a hook of a registration",
    parts: &[
        Part {
            steps: &[
                (2, Asks(Op::Up(1)), Made(4)),
                (2, GoesOn, Made(5)),
                (2, GoesOn, Made(6)),
                (2, GoesOn, Ends(7)),
                (2, SetsUp(120, 1), Made(8)),
            ],
            nothing: &[1],
            lends: Some(Lends {
                by: 0,
                beside: None,
                steps: &[
                    (2, GoesOn, Waits(Why::HookOut(120))),
                    (3, Asks(Op::Arm(1, 120)), Waits(Why::RegIn(2))),
                    (3, Asks(Op::Arm(1, -1)), Ends(9)),
                ],
                nothing: &[1],
                answer: 0,
                at: 10,
            }),
        },
        Part {
            steps: &[],
            nothing: &[0],
            lends: Some(Lends {
                by: 1,
                beside: None,
                steps: &[
                    (2, GoesOn, Waits(Why::HookOut(120))),
                    (3, Asks(Op::Arm(1, 120)), Waits(Why::RegIn(2))),
                    (3, Asks(Op::Arm(1, -1)), Ends(11)),
                ],
                nothing: &[0],
                answer: 0,
                at: 12,
            }),
        },
        Part {
            steps: &[(2, GoesOn, Ends(13))],
            nothing: &[],
            lends: None,
        },
    ],
    entries: &[
        (10, 0, 0, 120, Dir::Up, How::RanOk),
        (12, 1, 1, 120, Dir::Up, How::RanOk),
    ],
    len: 14,
    hooks: &[(120, 2, 0)],
    ..WALK
};

const OWN: Row = Row {
    name: "a client is lent the hook of its own entry",
    clients: 1,
    parts: &[
        Part {
            steps: &[(2, SetsUp(30, 1), Made(3))],
            nothing: &[],
            lends: Some(Lends {
                by: 2,
                beside: None,
                steps: &[],
                nothing: &[],
                answer: 0,
                at: 4,
            }),
        },
        Part {
            steps: &[(2, GoesOn, Ends(5))],
            nothing: &[],
            lends: None,
        },
    ],
    entries: &[(4, 2, 0, 30, Dir::Up, How::RanOk)],
    len: 6,
    hooks: &[(30, 1, 0)],
    ..WALK
};

const ROWS: [Row; 6] = [WALK, EMPTY, INJECTED, FAULT, REGISTRATION, OWN];

#[test]
fn hooks_are_lent_for_entries(rt: HostRuntime) -> Result<(), Fail> {
    for row in ROWS.iter() {
        play(&rt, rt.alloc(), row)?;
    }
    Ok(())
}
