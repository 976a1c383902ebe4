//! Turns that come out as written by hand, hooks that come back, and how a board ends, where no clause says it: the very
//! hooks come back, in rising state and behind those of the rack, and the states file names what is registered.

use crate::play::play;
use crate::rows::Does::{Asks, GoesOn, Removes, Serves, SetsUp};
use crate::rows::Wanted::{Ends, Faults, Made, Refuses, Waits};
use crate::rows::{Answers, Part, Row};
use hp_event::Op;
use hp_locks::Why;
use std::test::Fail;

/// A board of two processors and one client, with nothing done.
const ROW: Row = Row {
    name: "",
    cpus: 2,
    clients: 1,
    subs: (Answers::Zero, Answers::Zero),
    parts: &[],
    entries: &[],
    len: 0,
    states: None,
    left: None,
    hooks: &[],
};

/// The states file after setups of two states.
const STATES: &[u8] = b"  0: offline
 62: cpu:bringup
 63: idle:dead
 64: ap:offline
100: ap:online
101: cpu:teardown
102: online:idle
120: a
150: a
199: sched:active
200: online
";

const ROWS: [Row; 5] = [
    Row {
        name: "two clients read, a third registers, and a fourth brings up a processor",
        clients: 4,
        parts: &[Part {
            steps: &[
                (2, Asks(Op::Lock), Ends(6)),
                (3, Asks(Op::Lock), Ends(7)),
                (4, SetsUp(150, 1), Made(8)),
                (5, Asks(Op::Up(1)), Made(9)),
                (5, GoesOn, Waits(Why::ReadersIn(2))),
                (2, Asks(Op::Unlock), Ends(10)),
                (5, GoesOn, Waits(Why::ReadersIn(1))),
                (3, Asks(Op::Unlock), Ends(11)),
                (5, GoesOn, Waits(Why::RegIn(4))),
                (4, GoesOn, Waits(Why::ApTurn(0))),
                (1, Serves, Waits(Why::Idle)),
                (0, Serves, Made(12)),
                (2, SetsUp(150, 1), Waits(Why::RegIn(4))),
                (4, GoesOn, Ends(13)),
                (2, GoesOn, Refuses(16, 14)),
                (2, Asks(Op::Down(0)), Waits(Why::MapsHeld(5))),
                (5, GoesOn, Made(15)),
                (3, Asks(Op::Lock), Waits(Why::WriterIn(5))),
                (5, GoesOn, Waits(Why::ApTurn(1))),
                (1, Serves, Made(16)),
                (5, GoesOn, Made(17)),
                (5, GoesOn, Ends(18)),
                (3, GoesOn, Ends(19)),
            ],
            nothing: &[],
            lends: None,
        }],
        len: 20,
        hooks: &[(150, 2, 0)],
        ..ROW
    },
    Row {
        name: "a remove hands the hook of its state back",
        parts: &[Part {
            steps: &[
                (2, SetsUp(150, 1), Made(3)),
                (0, Serves, Made(4)),
                (2, GoesOn, Ends(5)),
                (2, Removes(150), Made(6)),
                (0, Serves, Made(7)),
                (2, GoesOn, Ends(8)),
            ],
            nothing: &[],
            lends: None,
        }],
        len: 9,
        left: Some(150),
        ..ROW
    },
    Row {
        name: "a setup of a state that is taken hands its hook back",
        parts: &[Part {
            steps: &[
                (2, SetsUp(150, 1), Made(3)),
                (0, Serves, Made(4)),
                (2, GoesOn, Ends(5)),
                (2, SetsUp(150, 1), Refuses(16, 6)),
            ],
            nothing: &[],
            lends: None,
        }],
        len: 7,
        left: Some(150),
        hooks: &[(150, 1, 0)],
        ..ROW
    },
    Row {
        name: "a setup whose startup faults hands its hook back",
        subs: (Answers::Five, Answers::Zero),
        parts: &[Part {
            steps: &[
                (2, Asks(Op::Up(1)), Made(3)),
                (2, GoesOn, Made(4)),
                (2, GoesOn, Made(5)),
                (2, GoesOn, Ends(6)),
                (2, SetsUp(150, 1), Made(7)),
                (0, Serves, Made(8)),
                (1, Serves, Made(9)),
                (0, Serves, Made(10)),
                (2, GoesOn, Faults(5, 11)),
            ],
            nothing: &[],
            lends: None,
        }],
        len: 12,
        left: Some(150),
        ..ROW
    },
    Row {
        name: "two setups, the higher state first",
        parts: &[Part {
            steps: &[
                (2, SetsUp(150, 1), Made(3)),
                (0, Serves, Made(4)),
                (2, GoesOn, Ends(5)),
                (2, SetsUp(120, 1), Made(6)),
                (0, Serves, Made(7)),
                (2, GoesOn, Ends(8)),
            ],
            nothing: &[],
            lends: None,
        }],
        len: 9,
        states: Some(STATES),
        hooks: &[(120, 1, 0), (150, 1, 0)],
        ..ROW
    },
];

#[test]
fn turns_come_out_as_written(rt: HostRuntime) -> Result<(), Fail> {
    for row in ROWS.iter() {
        play(&rt, rt.alloc(), row)?;
    }
    Ok(())
}
