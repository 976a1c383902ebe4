//! What no clause says of hp_pcount: the numbers of some counters, as worked out by hand, with each way in which a
//! processor isn't open, the largest batch, and the ends of what can be added at once.

use hp_event::{Event, How};
use hp_pcount::{Counters, LAST_FOLLOWED, MAX_BATCH};
use hp_states::Dir;
use std::process::Abort;

/// What counters are told.
#[derive(Clone, Copy)]
enum Act {
    /// A state and an instance, in a direction, and how the entry is made.
    Enters(u32, u32, Dir, How),
    /// Events that are no entries.
    Others,
    /// Something is added, which is taken or not.
    Adds(i32, bool),
}

use Act::{Adds, Enters, Others};

/// A processor, what is told of it, and then the base, the processor's part and the total.
type Row = (u32, Act, (i128, i64, i128));

/// Counters that follow a state with a batch.
struct Scene {
    name: &'static str,
    state: u32,
    batch: u32,
    rows: &'static [Row],
}

const SCENES: [Scene; 4] = [
    Scene {
        name: "two processors come up, and one goes down: its part is in the base",
        state: 120,
        batch: 10,
        rows: &[
            (0, Enters(120, 0, Dir::Up, How::RanOk), (0, 0, 0)),
            (1, Enters(120, 0, Dir::Up, How::Empty), (0, 0, 0)),
            (0, Adds(7, true), (0, 7, 7)),
            (1, Adds(9, true), (0, 9, 16)),
            (0, Adds(2, true), (0, 9, 18)),
            (0, Adds(1, true), (10, 0, 19)),
            (1, Enters(120, 0, Dir::Down, How::Overruled(3)), (19, 0, 19)),
            (1, Adds(1, false), (19, 0, 19)),
        ],
    },
    Scene {
        name: "nothing opens a processor but a done upward entry of the state without an instance",
        state: 150,
        batch: 10,
        rows: &[
            (2, Adds(1, false), (0, 0, 0)),
            (2, Enters(150, 0, Dir::Up, How::RanFault(6)), (0, 0, 0)),
            (2, Adds(1, false), (0, 0, 0)),
            (2, Enters(150, 0, Dir::Up, How::Injected), (0, 0, 0)),
            (2, Adds(1, false), (0, 0, 0)),
            (2, Enters(150, 1, Dir::Up, How::RanOk), (0, 0, 0)),
            (2, Adds(1, false), (0, 0, 0)),
            (2, Enters(151, 0, Dir::Up, How::RanOk), (0, 0, 0)),
            (2, Adds(1, false), (0, 0, 0)),
            (3, Enters(150, 0, Dir::Up, How::Presumed), (0, 0, 0)),
            (2, Adds(1, false), (0, 0, 0)),
            (3, Adds(1, true), (0, 1, 1)),
            (2, Others, (0, 0, 1)),
            (2, Adds(1, false), (0, 0, 1)),
        ],
    },
    Scene {
        name: "a rollback closes again, and a teardown that faults leaves its processor open",
        state: 120,
        batch: 1000,
        rows: &[
            (1, Enters(120, 0, Dir::Up, How::RanOk), (0, 0, 0)),
            (1, Adds(-5, true), (0, -5, -5)),
            (1, Enters(150, 0, Dir::Up, How::RanFault(12)), (0, -5, -5)),
            (1, Enters(120, 0, Dir::Down, How::RanOk), (-5, 0, -5)),
            (1, Enters(120, 0, Dir::Up, How::RanOk), (-5, 0, -5)),
            (1, Enters(120, 0, Dir::Down, How::RanFault(12)), (-5, 0, -5)),
            (1, Adds(2, true), (-5, 2, -3)),
        ],
    },
    Scene {
        name: "the largest batch",
        state: LAST_FOLLOWED,
        batch: MAX_BATCH,
        rows: &[
            (64, Enters(198, 0, Dir::Up, How::RanOk), (0, 0, 0)),
            (64, Adds(999_999, true), (0, 999_999, 999_999)),
            (64, Adds(1, true), (1_000_000, 0, 1_000_000)),
            (64, Adds(-999_999, true), (1_000_000, -999_999, 1)),
            (64, Adds(-1, true), (0, 0, 0)),
            (
                64,
                Adds(i32::MIN, true),
                (-2_147_483_648, 0, -2_147_483_648),
            ),
            (
                64,
                Adds(i32::MIN, true),
                (-4_294_967_296, 0, -4_294_967_296),
            ),
            (
                64,
                Adds(i32::MAX, true),
                (-2_147_483_649, 0, -2_147_483_649),
            ),
        ],
    },
];

/// Tells counters of one thing; whether something that is added is taken as wanted.
fn acts(rt: &impl Abort, counters: &mut Counters, cpu: u32, act: Act) -> bool {
    assert!(rt; cpu < 256 && counters.adds() < 100);
    match act {
        Enters(state, inst, dir, how) => counters.follow(&Event::Call {
            seat: 0,
            cpu,
            state,
            inst,
            dir,
            how,
        }),
        Others => {
            counters.follow(&Event::Leave { seat: 0 });
            counters.follow(&Event::WalkBegin {
                seat: 0,
                cpu,
                from: 0,
                to: 200,
            });
        }
        Adds(by, taken) => return counters.add(cpu, by).is_ok() == taken,
    }
    true
}

#[test]
fn counters_have_these_numbers(rt: HostRuntime) {
    for scene in SCENES.iter() {
        let (name, state, batch) = (scene.name, scene.state, scene.batch);
        assert!(rt; 1 <= state && state <= LAST_FOLLOWED, "{name}");
        assert!(rt; 1 <= batch && batch <= MAX_BATCH, "{name}");
        let mut counters = Counters::new(state, batch);
        for (i, &(cpu, act, wanted)) in scene.rows.iter().enumerate() {
            assert!(rt; acts(&rt, &mut counters, cpu, act), "{name}: {i}");
            assert!(rt; cpu < 256, "{name}: {i}");
            let found = (counters.base(), counters.part(cpu), counters.total());
            assert!(rt; found == wanted, "{name}: {found:?} at {i}");
        }
    }
}

/// No number above 255 is a processor's: it has no part, and isn't open.
#[test]
fn a_number_above_255_has_no_part(rt: HostRuntime) {
    let mut counters = Counters::new(120, 10);
    for cpu in [0u32, 255] {
        assert!(rt; !counters.is_open(cpu) && counters.part(cpu) == 0);
        assert!(rt; acts(&rt, &mut counters, cpu, Enters(120, 0, Dir::Up, How::RanOk)));
        assert!(rt; acts(&rt, &mut counters, cpu, Adds(-3, true)));
        assert!(rt; counters.is_open(cpu) && counters.part(cpu) == -3);
    }
    for cpu in [256u32, 257, 511, u32::MAX] {
        assert!(rt; !counters.is_open(cpu) && counters.part(cpu) == 0, "{cpu}");
    }
}
