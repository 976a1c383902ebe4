//! Hooks of an upmany: two processors come up together, their threads wait for one another's hooks, and hooks of two
//! states are lent at once.

use crate::play::play;
use crate::rows::Does::{Asks, GoesOn, Serves, SetsUp};
use crate::rows::Wanted::{Ends, Made, Waits};
use crate::rows::{Answers, Lends, Part, Row};
use hp_event::{How, Op};
use hp_locks::Why;
use hp_states::{CpuSet, Dir};
use std::test::Fail;

/// An upmany of the second and the third processor.
const BOTH_UP: Op = Op::UpMany(CpuSet {
    words: [0b110, 0, 0, 0],
});

/// A state whose entries the client makes, and one whose entries threads make. While the hook of that is lent to the
/// second thread the third waits for it, and so does the upmany; a reader waits for the upmany.
const ONE_AFTER_ANOTHER: Row = Row {
    name: "a thread waits for the hook that another has",
    cpus: 3,
    clients: 2,
    subs: (Answers::Zero, Answers::Zero),
    parts: &[
        Part {
            steps: &[
                (3, SetsUp(20, 1), Made(5)),
                (3, GoesOn, Made(6)),
                (3, GoesOn, Ends(7)),
                (3, SetsUp(150, 2), Made(8)),
                (0, Serves, Made(9)),
                (3, GoesOn, Ends(10)),
                (3, Asks(BOTH_UP), Made(11)),
                (3, GoesOn, Made(12)),
                (3, GoesOn, Made(13)),
                (3, GoesOn, Made(14)),
                (3, GoesOn, Made(15)),
            ],
            nothing: &[],
            lends: Some(Lends {
                by: 1,
                beside: None,
                steps: &[
                    (2, Serves, Waits(Why::HookOut(150))),
                    (3, GoesOn, Waits(Why::HookOut(150))),
                    (4, Asks(Op::Lock), Waits(Why::WriterIn(3))),
                ],
                nothing: &[2],
                answer: 0,
                at: 16,
            }),
        },
        Part {
            steps: &[
                (2, Serves, Made(17)),
                (3, GoesOn, Made(18)),
                (3, GoesOn, Made(19)),
                (3, GoesOn, Ends(20)),
            ],
            nothing: &[],
            lends: None,
        },
    ],
    entries: &[
        (14, 3, 1, 20, Dir::Up, How::RanOk),
        (15, 3, 2, 20, Dir::Up, How::RanOk),
        (16, 1, 1, 150, Dir::Up, How::RanOk),
        (17, 2, 2, 150, Dir::Up, How::RanOk),
    ],
    len: 21,
    states: None,
    left: None,
    hooks: &[(20, 3, 0), (150, 3, 0)],
};

/// Two states whose entries threads make. The hook of the third thread is given back first; once it has made its entry
/// it waits for the hook that the second still has.
const AT_ONCE: Row = Row {
    name: "hooks of two states are lent at once",
    parts: &[
        Part {
            steps: &[
                (3, SetsUp(120, 1), Made(5)),
                (0, Serves, Made(6)),
                (3, GoesOn, Ends(7)),
                (3, SetsUp(150, 2), Made(8)),
                (0, Serves, Made(9)),
                (3, GoesOn, Ends(10)),
                (3, Asks(BOTH_UP), Made(11)),
                (3, GoesOn, Made(12)),
                (3, GoesOn, Made(13)),
                (3, GoesOn, Waits(Why::ApTurn(1))),
                (1, Serves, Made(14)),
            ],
            nothing: &[],
            lends: Some(Lends {
                by: 1,
                beside: Some((2, 15)),
                steps: &[],
                nothing: &[2],
                answer: 0,
                at: 16,
            }),
        },
        Part {
            steps: &[
                (2, Serves, Made(17)),
                (3, GoesOn, Made(18)),
                (3, GoesOn, Made(19)),
                (3, GoesOn, Ends(20)),
            ],
            nothing: &[],
            lends: None,
        },
    ],
    entries: &[
        (15, 2, 2, 120, Dir::Up, How::RanOk),
        (16, 1, 1, 150, Dir::Up, How::RanOk),
    ],
    len: 21,
    hooks: &[(120, 3, 0), (150, 3, 0)],
    ..ONE_AFTER_ANOTHER
};

const ROWS: [Row; 2] = [ONE_AFTER_ANOTHER, AT_ONCE];

#[test]
fn processors_that_come_up_together_share_hooks(rt: HostRuntime) -> Result<(), Fail> {
    for row in ROWS.iter() {
        play(&rt, rt.alloc(), row)?;
    }
    Ok(())
}
