//! What may be read and written in the files of hp_files, as worked out by hand.

use hp_files::{BadNumber, check_fail, check_target, read_i32, show_number};
use hp_hook::ScriptHook;
use hp_table::{Record, Table};
use std::alloc::Global;
use std::process::Abort;

const NUMBERS: [(&'static str, i32); 14] = [
    ("0", 0),
    ("5\n", 5),
    ("-1", -1),
    ("-1\n", -1),
    ("-0", 0),
    ("007", 7),
    ("0000000000", 0),
    ("0000000011\n", 11),
    ("2147483647", i32::MAX),
    ("2147483647\n", i32::MAX),
    ("-2147483647", -2147483647),
    ("-2147483648", i32::MIN),
    ("-2147483648\n", i32::MIN),
    ("-0000000200\n", -200),
];

const NO_NUMBERS: [&'static str; 26] = [
    "",
    "\n",
    "-",
    "-\n",
    "--1",
    "1-",
    "+5",
    " 5",
    "5 ",
    "5\n\n",
    "\n5",
    "5\n5",
    "5\r\n",
    "5\0",
    "0x5",
    "5a",
    "-\n5",
    "2147483648",
    "-2147483649",
    "4294967295",
    "9999999999",
    "-9999999999\n",
    "00000000000",
    "00000000005",
    "21474836470",
    "-21474836480\n",
];

#[test]
fn bytes_say_numbers_or_none(rt: HostRuntime) {
    for &(text, number) in NUMBERS.iter() {
        assert!(rt; read_i32(text.as_bytes()) == Ok(number), "{text:?}");
    }
    for &text in NO_NUMBERS.iter() {
        assert!(rt; read_i32(text.as_bytes()) == Err(BadNumber), "{text:?}");
    }
}

/// A number, and what is shown of it in twelve places, which had dots before.
const SHOWN: [(i32, &'static [u8]); 6] = [
    (0, b"0\n.........."),
    (200, b"200\n........"),
    (-1, b"-1\n........."),
    (1000000000, b"1000000000\n."),
    (i32::MAX, b"2147483647\n."),
    (i32::MIN, b"-2147483648\n"),
];

#[test]
fn numbers_are_shown(rt: HostRuntime) {
    for &(number, bytes) in SHOWN.iter() {
        let mut buf = [b'.'; 12];
        show_number(number, &mut buf);
        assert!(rt; buf.as_slice() == bytes, "{number}");
    }
}

/// The states of a table, and whether they have a startup and a teardown.
const STATES: [(u32, bool, bool); 6] = [
    (10, true, true),
    (70, true, true),
    (150, true, true),
    (20, true, false),
    (130, false, true),
    (120, false, false),
];

fn table_of(rt: &impl Abort, alloc: Global) -> Table<ScriptHook> {
    let Ok(mut table) = Table::new(alloc) else {
        panic!(rt; "memory for a table");
    };
    for &(state, up, down) in STATES.iter() {
        let record = Record::new(1, false, up, down, ScriptHook::new());
        assert!(rt; table.install(state, record).is_ok(), "at {state}");
    }
    table
}

const TARGETS: [u32; 8] = [0, 10, 20, 120, 130, 150, 199, 200];

const NO_TARGETS: [i32; 14] = [
    i32::MIN,
    -1,
    1,
    61,
    62,
    63,
    70,
    100,
    101,
    102,
    103,
    149,
    201,
    i32::MAX,
];

fn takes_targets(rt: &impl Abort, table: &Table<ScriptHook>) {
    for &state in TARGETS.iter() {
        assert!(rt;
            check_target(table, state as i32) == Ok(state),
            "at {state}"
        );
    }
    for &value in NO_TARGETS.iter() {
        assert!(rt; check_target(table, value) == Err(22), "at {value}");
    }
}

/// States that can be armed, and where the processor stands.
const ARMED: [(i32, u32); 9] = [
    (-1, 0),
    (-1, 200),
    (10, 0),
    (10, 62),
    (20, 9),
    (130, 0),
    (130, 200),
    (150, 63),
    (150, 150),
];

const NOT_ARMED: [(i32, u32); 16] = [
    (i32::MIN, 0),
    (-2, 0),
    (0, 0),
    (10, 63),
    (20, 200),
    (11, 0),
    (62, 0),
    (63, 0),
    (70, 0),
    (99, 0),
    (100, 0),
    (101, 200),
    (120, 200),
    (200, 200),
    (201, 0),
    (i32::MAX, 0),
];

fn arms_states(rt: &impl Abort, table: &Table<ScriptHook>) {
    for &(value, at) in ARMED.iter() {
        assert!(rt;
            check_fail(table, value, at) == Ok(value),
            "{value} at {at}"
        );
    }
    for &(value, at) in NOT_ARMED.iter() {
        assert!(rt; check_fail(table, value, at) == Err(22), "{value} at {at}");
    }
}

#[test]
fn files_take_targets_and_states_to_arm(rt: HostRuntime) {
    let table = table_of(&rt, rt.alloc());
    takes_targets(&rt, &table);
    arms_states(&rt, &table);
}
