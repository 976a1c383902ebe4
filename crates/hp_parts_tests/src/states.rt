//! What no clause says of hp_states: that the tables come out as written by hand, and sets as they are filled and emptied.

use hp_states::Section::{self, Online, Prepare, Starting};
use hp_states::{
    CpuSet, Dir, Place, Range, Rule, builtin_name, can_stop, first_state, is_ap, is_atomic,
    is_builtin, is_name, is_name_byte, may_fail, section_of,
};

/// A state, its section, its name if it is built in, whether a processor's own thread makes its entries, whether they
/// must not fail, and whether a walk may stop there.
type Row = (u32, Section, Option<&'static str>, bool, bool, bool);

const STATES: [Row; 14] = [
    (0, Prepare, Some("offline"), false, false, true),
    (61, Prepare, None, false, false, true),
    (62, Prepare, Some("cpu:bringup"), false, false, false),
    (63, Starting, Some("idle:dead"), true, true, false),
    (64, Starting, Some("ap:offline"), true, true, false),
    (99, Starting, None, true, true, false),
    (100, Starting, Some("ap:online"), true, false, false),
    (101, Online, Some("cpu:teardown"), false, false, false),
    (102, Online, Some("online:idle"), true, false, false),
    (103, Online, None, true, false, true),
    (199, Online, Some("sched:active"), true, false, true),
    (200, Online, Some("online"), true, false, true),
    (201, Online, None, true, false, true),
    (u32::MAX, Online, None, true, false, true),
];

#[test]
fn states_lie_in_their_sections(rt: HostRuntime) {
    for &(state, section, name, ap, atomic, stop) in STATES.iter() {
        assert!(rt; section_of(state) == section, "at {state}");
        assert!(rt; builtin_name(state) == name, "at {state}");
        let found = (is_ap(state), is_atomic(state), can_stop(state));
        assert!(rt; found == (ap, atomic, stop), "at {state}");
        assert!(rt; is_builtin(state) == name.is_some(), "at {state}");
    }
}

/// States, and the range that each asks for.
const ASKED: [(u32, Option<Range>); 5] = [
    (40, None),
    (41, Some(Range::Prepare)),
    (42, None),
    (141, Some(Range::Online)),
    (171, None),
];

/// Ranges, and the first and the last of their states.
const RANGES: [(Range, u32, u32); 2] = [(Range::Prepare, 41, 61), (Range::Online, 141, 171)];

#[test]
fn a_dynamic_range_is_asked_for_by_its_first_state(rt: HostRuntime) {
    for &(state, range) in ASKED.iter() {
        assert!(rt; Range::asked_by(state) == range, "at {state}");
    }
    for &(range, first, last) in RANGES.iter() {
        assert!(rt; (range.first(), range.last()) == (first, last), "{range:?}");
    }
}

/// Processors, and the state that each begins at.
const BEGINNINGS: [(u32, u32); 3] = [(0, 200), (1, 0), (63, 0)];

/// A direction, and where an entry of state 110 begins and ends in it.
const CROSSINGS: [(Dir, u32, u32); 2] = [(Dir::Up, 109, 110), (Dir::Down, 110, 109)];

#[test]
fn processors_begin_and_cross_states(rt: HostRuntime) {
    for &(cpu, state) in BEGINNINGS.iter() {
        assert!(rt; first_state(cpu) == state, "of {cpu}");
    }
    for &(dir, before, after) in CROSSINGS.iter() {
        let found = (dir.state_before(110), dir.state_after(110));
        assert!(rt; found == (before, after), "{dir:?}");
        assert!(rt; dir.opposite().state_before(110) == after, "{dir:?}");
        assert!(rt; Dir::between(before, after) == dir, "{dir:?}");
    }
}

const NAMES: [(&'static str, bool); 7] = [
    ("net:queue/0_a.B-9", true),
    ("", true),
    ("-", false),
    ("--", true),
    ("a b", false),
    ("aaaaaaaaaaaaaaaaaaaaaaaaaaaaaaaa", true),
    ("aaaaaaaaaaaaaaaaaaaaaaaaaaaaaaaaa", false),
];

const NAME_BYTES: &[u8] = b"azAZ09:_/.-";

const OTHER_BYTES: &[u8] = b" @[`{,;*\0\x7f\xff";

#[test]
fn names_have_their_form(rt: HostRuntime) {
    for &(name, wanted) in NAMES.iter() {
        assert!(rt; is_name(name.as_bytes()) == wanted, "{name:?}");
    }
    for &byte in NAME_BYTES {
        assert!(rt; is_name_byte(byte), "byte {byte}");
    }
    for &byte in OTHER_BYTES {
        assert!(rt; !is_name_byte(byte), "byte {byte}");
    }
}

const RULE: Rule = Rule {
    dir: Dir::Up,
    cpu: Some(3),
    inst: None,
    nth: Some(2),
    code: 5,
};

/// Rules, and whether they match a call for a processor, an instance and a direction.
const MATCHES: [(Rule, u32, u32, Dir, bool); 5] = [
    (RULE, 3, 7, Dir::Up, true),
    (RULE, 2, 7, Dir::Up, false),
    (RULE, 3, 7, Dir::Down, false),
    (
        Rule {
            inst: Some(7),
            ..RULE
        },
        3,
        7,
        Dir::Up,
        true,
    ),
    (
        Rule {
            inst: Some(7),
            ..RULE
        },
        3,
        3,
        Dir::Up,
        false,
    ),
];

#[test]
fn a_rule_matches_the_calls_that_it_names(rt: HostRuntime) {
    for (i, &(rule, cpu, inst, dir, wanted)) in MATCHES.iter().enumerate() {
        assert!(rt; rule.matches(cpu, inst, dir) == wanted, "row {i}");
    }
}

/// What an entry is made for at a PREPARE, a STARTING or an ONLINE state, whether the startup may fail there, and whether
/// the teardown may.
const MAY_FAIL: [(Place, u32, bool, bool); 18] = [
    (Place::Forward, 10, true, false),
    (Place::Forward, 63, false, false),
    (Place::Forward, 150, true, true),
    (Place::Back, 10, true, false),
    (Place::Back, 63, false, false),
    (Place::Back, 150, true, true),
    (Place::Part, 10, false, false),
    (Place::Part, 63, false, false),
    (Place::Part, 150, false, false),
    (Place::Add, 10, true, false),
    (Place::Add, 63, false, false),
    (Place::Add, 150, true, false),
    (Place::Undo, 10, false, false),
    (Place::Undo, 63, false, false),
    (Place::Undo, 150, false, false),
    (Place::Remove, 10, false, false),
    (Place::Remove, 63, false, false),
    (Place::Remove, 150, false, false),
];

#[test]
fn entries_may_fail_where_a_fault_can_be_undone(rt: HostRuntime) {
    for &(place, state, up, down) in MAY_FAIL.iter() {
        let found = (
            may_fail(Dir::Up, state, place),
            may_fail(Dir::Down, state, place),
        );
        assert!(rt; found == (up, down), "{place:?} at {state}");
    }
}

/// The numbers at both ends of the first word, the first of the second, and the last of all.
const NUMBERS: [u32; 5] = [64, 255, 63, 0, 63];

/// The words of their set.
const WORDS: [u64; 4] = [0x8000_0000_0000_0001, 1, 0, 0x8000_0000_0000_0000];

/// Numbers, and the first of that set from each on.
const FROM: [(u32, Option<u32>); 8] = [
    (0, Some(0)),
    (1, Some(63)),
    (63, Some(63)),
    (64, Some(64)),
    (65, Some(255)),
    (255, Some(255)),
    (256, None),
    (u32::MAX, None),
];

#[test]
fn a_set_has_the_numbers_that_were_put_into_it(rt: HostRuntime) {
    let mut set = CpuSet::none();
    assert!(rt; set.is_empty());
    for &cpu in NUMBERS.iter() {
        assert!(rt; cpu < 256);
        set.put(cpu);
    }
    assert!(rt; set.words == WORDS);
    for &(from, wanted) in FROM.iter() {
        assert!(rt; set.first_from(from) == wanted, "from {from}");
    }
}

/// Numbers that are taken out of that set one after the other, and the first that is left.
const TAKEN: [(u32, Option<u32>); 5] = [
    (1, Some(0)),
    (0, Some(63)),
    (63, Some(64)),
    (64, Some(255)),
    (255, None),
];

#[test]
fn a_set_has_no_number_that_was_taken_out(rt: HostRuntime) {
    let mut set = CpuSet { words: WORDS };
    for &(cpu, first) in TAKEN.iter() {
        assert!(rt; cpu < 256);
        set.take(cpu);
        assert!(rt; !set.has(cpu) && set.first_from(0) == first, "{cpu}");
    }
    assert!(rt; set == CpuSet::none());
}
