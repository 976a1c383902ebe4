//! Words and scripts that are refused.

use crate::caller::{Call, assert_text, rack_of, run};
use hp_live::FreeGate;
use std::sync::Arc;
use std::sync::atomic::AtomicU64;
use std::test::*;

/// A name for it, the words, what is read, and what is to come of it.
#[derive(Clone, Copy)]
struct Row {
    name: &'static str,
    words: &'static [&'static str],
    input: &'static str,
    status: u8,
    output: &'static str,
}

/// Words that are none of the program's.
const OTHER: Row = Row {
    name: "no word",
    words: &[],
    input: "",
    status: 1,
    output: "usage: hpd run|work STATE\n",
};

const ROWS: [Row; 13] = [
    Row {
        name: "an empty input",
        words: &["run"],
        input: "",
        status: 2,
        output: "error: line 1: no cpus\n",
    },
    Row {
        name: "the last actor is still locked",
        words: &["run"],
        input: "cpus 1\n\nactor a\nlock\n",
        status: 2,
        output: "error: line 5: still locked\n",
    },
    Row {
        name: "no hook for a setup",
        words: &["run"],
        input: "cpus 2\nsub net:a both single\nsub net:b both single\nactor a\nsetup 120 1\n",
        status: 2,
        output: "error: line 5: too many\n",
    },
    Row {
        name: "no word",
        words: &[],
        ..OTHER
    },
    Row {
        name: "another command",
        words: &["play"],
        ..OTHER
    },
    Row {
        name: "a further word",
        words: &["run", "run"],
        ..OTHER
    },
    Row {
        name: "no state",
        words: &["work"],
        ..OTHER
    },
    Row {
        name: "state 0",
        words: &["work", "0"],
        ..OTHER
    },
    Row {
        name: "a state too high",
        words: &["work", "199"],
        ..OTHER
    },
    Row {
        name: "a zero before a state",
        words: &["work", "0120"],
        ..OTHER
    },
    Row {
        name: "a word behind a state",
        words: &["work", "120", "1"],
        ..OTHER
    },
    Row {
        name: "a state of a run",
        words: &["run", "120"],
        ..OTHER
    },
    Row {
        name: "the word --help",
        words: &["--help"],
        ..OTHER
    },
];

#[test]
fn others_are_refused(rt: HostRuntime) -> Result<(), Fail> {
    let alloc = rt.alloc();
    let calls = Arc::new(alloc, AtomicU64::new(0))?;
    for row in ROWS.iter() {
        let name = row.name;
        let call = Call {
            words: row.words,
            input: [row.input, ""],
            fails: (None, None),
        };
        let ran = run(&rt, alloc, &call, rack_of(alloc, 0, &calls)?, &FreeGate);
        assert!(rt;
            ran.status == row.status,
            "row {name}: status {}",
            ran.status
        );
        assert_text(&rt, name, &ran.written, row.output.as_bytes());
    }
    Ok(())
}
