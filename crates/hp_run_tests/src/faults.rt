//! A read or a write that fails.

use crate::caller::{Call, rack_of, run};
use crate::runs::written_of_two_startups;
use hp_live::FreeGate;
use hp_samples::TWO_STARTUPS;
use std::sync::Arc;
use std::sync::atomic::AtomicU64;
use std::test::*;

/// How many reads the script of two startups takes, by ten bytes each: 88 bytes, and the end.
const READS: u64 = 10;

/// How many writes what comes of it takes, by a hundred bytes each: 615 bytes.
const WRITES: u64 = 7;

/// The read and the write that fail, of the calls of both.
fn fails(number: u64) -> (Option<u64>, Option<u64>) {
    if number < READS {
        (Some(number + 1), None)
    } else {
        (None, Some(number - READS + 1))
    }
}

#[test]
fn each_failing_read_and_write_is_told(rt: HostRuntime) -> Result<(), Fail> {
    let alloc = rt.alloc();
    let wanted = written_of_two_startups(alloc, "")?;
    let calls = Arc::new(alloc, AtomicU64::new(0))?;
    for number in 0..READS + WRITES {
        let call = Call {
            words: &["run"],
            input: [TWO_STARTUPS.script, ""],
            fails: fails(number),
        };
        let rack = rack_of(alloc, 2, &calls)?;
        let ran = run(&rt, alloc, &call, rack, &FreeGate);
        let told = (ran.status, ran.faults);
        if number < READS {
            assert!(rt; told == (3, (1, 0)), "read {number}");
            assert!(rt; ran.written.is_empty(), "read {number}");
        } else {
            assert!(rt; told == (4, (0, 1)), "write {number}");
            assert!(rt;
                wanted.as_bytes().starts_with(&ran.written),
                "write {number}"
            );
            assert!(rt; ran.written.len() < wanted.len(), "write {number}");
        }
    }
    Ok(())
}
