//! Walks over a state with instances. They are called in list order, and the last that is added stands first.

use super::{FIRST, MORE, Wanted};
use hp_event::Answer;
use hp_event::How::{RanFault, RanOk};
use hp_states::Dir::{Down, Up};
use hp_states::Place::{Back, Forward, Part};

pub(super) const INSTANCES: [Wanted; 6] = [
    Wanted {
        name: "a fault at the third instance on the way up",
        states: &[110, 130, 150],
        insts: &[1, 2, 3],
        from: 0,
        to: 200,
        rows: &[
            ((0, 200), (110, 0), Up, Forward, FIRST, RanOk),
            ((110, 200), (130, 3), Up, Forward, FIRST, RanOk),
            ((110, 200), (130, 2), Up, Forward, MORE, RanOk),
            ((110, 200), (130, 1), Up, Forward, MORE, RanFault(5)),
            ((110, 0), (130, 3), Down, Part, MORE, RanOk),
            ((110, 0), (130, 2), Down, Part, MORE, RanOk),
            ((110, 0), (110, 0), Down, Back, FIRST, RanOk),
        ],
        end: (109, 0, Answer::Fault(5)),
    },
    Wanted {
        name: "a fault at the third instance on the way down",
        states: &[110, 130, 150],
        insts: &[1, 2, 3],
        from: 200,
        to: 0,
        rows: &[
            ((200, 0), (150, 0), Down, Forward, FIRST, RanOk),
            ((149, 0), (130, 3), Down, Forward, FIRST, RanOk),
            ((149, 0), (130, 2), Down, Forward, MORE, RanOk),
            ((149, 0), (130, 1), Down, Forward, MORE, RanFault(6)),
            ((149, 200), (130, 3), Up, Part, MORE, RanOk),
            ((149, 200), (130, 2), Up, Part, MORE, RanOk),
            ((149, 200), (150, 0), Up, Back, FIRST, RanOk),
        ],
        end: (150, 200, Answer::Fault(6)),
    },
    Wanted {
        name: "instances in a rollback down",
        states: &[110, 130, 150],
        insts: &[1, 2, 3],
        from: 0,
        to: 200,
        rows: &[
            ((0, 200), (110, 0), Up, Forward, FIRST, RanOk),
            ((110, 200), (130, 3), Up, Forward, FIRST, RanOk),
            ((110, 200), (130, 2), Up, Forward, MORE, RanOk),
            ((110, 200), (130, 1), Up, Forward, MORE, RanOk),
            ((130, 200), (150, 0), Up, Forward, FIRST, RanFault(5)),
            ((130, 0), (130, 3), Down, Back, FIRST, RanOk),
            ((130, 0), (130, 2), Down, Back, MORE, RanOk),
            ((130, 0), (130, 1), Down, Back, MORE, RanOk),
            ((129, 0), (110, 0), Down, Back, FIRST, RanOk),
        ],
        end: (109, 0, Answer::Fault(5)),
    },
    Wanted {
        name: "instances in a rollback up",
        states: &[110, 130, 150],
        insts: &[1, 2, 3],
        from: 200,
        to: 0,
        rows: &[
            ((200, 0), (150, 0), Down, Forward, FIRST, RanOk),
            ((149, 0), (130, 3), Down, Forward, FIRST, RanOk),
            ((149, 0), (130, 2), Down, Forward, MORE, RanOk),
            ((149, 0), (130, 1), Down, Forward, MORE, RanOk),
            ((129, 0), (110, 0), Down, Forward, FIRST, RanFault(6)),
            ((129, 200), (130, 3), Up, Back, FIRST, RanOk),
            ((129, 200), (130, 2), Up, Back, MORE, RanOk),
            ((129, 200), (130, 1), Up, Back, MORE, RanOk),
            ((130, 200), (150, 0), Up, Back, FIRST, RanOk),
        ],
        end: (150, 200, Answer::Fault(6)),
    },
    Wanted {
        name: "stuck at the second instance of a rollback down",
        states: &[110, 130, 150],
        insts: &[1, 2, 3],
        from: 0,
        to: 200,
        rows: &[
            ((0, 200), (110, 0), Up, Forward, FIRST, RanOk),
            ((110, 200), (130, 3), Up, Forward, FIRST, RanOk),
            ((110, 200), (130, 2), Up, Forward, MORE, RanOk),
            ((110, 200), (130, 1), Up, Forward, MORE, RanOk),
            ((130, 200), (150, 0), Up, Forward, FIRST, RanFault(5)),
            ((130, 0), (130, 3), Down, Back, FIRST, RanOk),
            ((130, 0), (130, 2), Down, Back, MORE, RanFault(9)),
            ((130, 0), (130, 3), Up, Part, MORE, RanOk),
        ],
        end: (
            130,
            0,
            Answer::Stuck {
                first: 5,
                second: 9,
                at: 130,
            },
        ),
    },
    Wanted {
        name: "stuck at the second instance of a rollback up",
        states: &[110, 130, 150],
        insts: &[1, 2, 3],
        from: 200,
        to: 0,
        rows: &[
            ((200, 0), (150, 0), Down, Forward, FIRST, RanOk),
            ((149, 0), (130, 3), Down, Forward, FIRST, RanOk),
            ((149, 0), (130, 2), Down, Forward, MORE, RanOk),
            ((149, 0), (130, 1), Down, Forward, MORE, RanOk),
            ((129, 0), (110, 0), Down, Forward, FIRST, RanFault(5)),
            ((129, 200), (130, 3), Up, Back, FIRST, RanOk),
            ((129, 200), (130, 2), Up, Back, MORE, RanFault(9)),
            ((129, 200), (130, 3), Down, Part, MORE, RanOk),
        ],
        end: (
            129,
            200,
            Answer::Stuck {
                first: 5,
                second: 9,
                at: 129,
            },
        ),
    },
];
