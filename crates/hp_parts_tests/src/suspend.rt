//! What no clause says of hp_suspend: the walks and the ends of some freezes, thaws, boots and upmanys, as worked out by
//! hand from the rules, with lists that change as the answers say.

use hp_event::Answer;
use hp_states::CpuSet;
use hp_suspend::{Asked, Batch, Boot, Freeze, Thaw, Turns, WalkAsk};
use std::process::Abort;

/// Which processors are online and whether a wakeup is pending, what a freeze is to ask for then, and how that is
/// answered.
type Row = (&'static [bool], bool, Asked, Answer);

const STUCK: Answer = Answer::Stuck {
    first: 1,
    second: 2,
    at: 150,
};

/// A registration comes between the two walks, and the second one faults.
const FAILS: [Row; 3] = [
    (
        &[true, true, true, true],
        false,
        Asked::Walk(WalkAsk { cpu: 1, to: 0 }),
        Answer::Ok(0),
    ),
    (
        &[true, false, true, true],
        false,
        Asked::Walk(WalkAsk { cpu: 2, to: 0 }),
        Answer::Fault(6),
    ),
    (
        &[true, false, true, true],
        false,
        Asked::Ended(Answer::Fault(6)),
        Answer::Fault(6),
    ),
];

/// A wakeup stops a freeze that has a walk left.
const STOPPED: [Row; 3] = [
    (
        &[true, true, true],
        true,
        Asked::Ended(Answer::Refused(16)),
        Answer::Ok(0),
    ),
    (
        &[true, false, false],
        true,
        Asked::Ended(Answer::Ok(0)),
        STUCK,
    ),
    (&[true, true, true], true, Asked::Ended(STUCK), STUCK),
];

/// A freeze at processor 0 of these rows, the first of which has all online.
fn freezes(rt: &impl Abort, rows: &[Row]) {
    let all = [true; 4];
    let mut freeze = Freeze::begin(0, &all);
    for (i, &(online, wakeup, asked, answer)) in rows.iter().enumerate() {
        assert!(rt; online.len() <= 4, "row {i}");
        assert!(rt; freeze.next(online, wakeup) == asked, "row {i}");
        freeze.took(answer);
    }
}

#[test]
fn a_freeze_ends_at_a_fault_or_a_wakeup(rt: HostRuntime) {
    freezes(&rt, &FAILS);
    freezes(&rt, &STOPPED);
}

/// The walk of a processor to ONLINE.
fn up(cpu: u32) -> Asked {
    Asked::Walk(WalkAsk { cpu, to: 200 })
}

/// A thaw brings up the one that went down.
#[test]
fn a_thaw_brings_up_whom_the_freeze_took_down(rt: HostRuntime) {
    let record = [false, true, false, false];
    let mut thaw = Thaw::begin();
    assert!(&rt; thaw.next(&record, &[200, 0, 200, 200]) == up(1));
    thaw.took(Answer::Ok(0));
    assert!(&rt; thaw.next(&record, &[200, 200, 200, 200]) == Asked::Ended(Answer::Ok(0)));
}

#[test]
fn a_boot_that_stops_at_its_number(rt: HostRuntime) {
    let present = [true, true, true, true];
    let mut boot = Boot::begin(2);
    assert!(&rt; boot.next(&present, &[true, false, false, false]) == up(1));
    boot.took(Answer::Ok(0));
    assert!(&rt; boot.next(&present, &[true, true, false, false]) == Asked::Ended(Answer::Ok(0)));
}

/// The stuck processor is online, and the one that turned back isn't; neither is walked again, nor the
/// one that is absent.
#[test]
fn a_stuck_walk_of_a_boot(rt: HostRuntime) {
    let present = [true, true, true, false, true];
    let mut boot = Boot::begin(5);
    boot.took(STUCK);
    let stuck = [true, true, false, false, false];
    assert!(&rt; boot.next(&present, &stuck) == up(2));
    boot.took(Answer::Fault(9));
    assert!(&rt; boot.next(&present, &stuck) == up(4));
    boot.took(Answer::Ok(0));
    let ended = Asked::Ended(Answer::Ok(2));
    assert!(&rt; boot.next(&present, &[true, true, false, false, true]) == ended);
}

/// Of processors 1, 2, 3 and 5 the second is up. The others begin in rising number before any of them
/// ends, and the last that begins ends first.
#[test]
fn an_upmany_begins_those_that_are_not_up(rt: HostRuntime) {
    let mut set = CpuSet::none();
    for cpu in [5, 3, 2, 1] {
        assert!(&rt; cpu < 256);
        set.put(cpu);
    }
    let mut batch = Batch::begin(&set, &[200, 0, 200, 150, 0, 0]);
    for cpu in [1, 3, 5] {
        assert!(&rt; cpu < 256 && batch.next() == Some(cpu));
        batch.began(cpu);
    }
    assert!(&rt; batch.next() == None);
    for (answer, failed) in [(Answer::Ok(0), 0), (Answer::Fault(7), 1), (STUCK, 2)] {
        assert!(&rt; batch.failed() < 2);
        batch.took(answer);
        assert!(&rt; batch.failed() == failed);
    }
}

/// Three walks begin. The second comes to an entry that its processor's thread makes.
#[test]
fn turns_go_round(rt: HostRuntime) {
    let Ok(mut turns) = Turns::new(rt.alloc(), 3) else {
        panic!(rt; "memory for turns");
    };
    turns.moved(1, true);
    turns.moved(3, true);
    turns.moved(5, true);
    assert!(&rt; turns.first() == Some(1));
    turns.moved(1, true);
    assert!(&rt; turns.first() == Some(3));
    turns.moved(3, false);
    assert!(&rt; turns.first() == Some(5));
}
