//! Want of memory: of a small run, each request for memory refused in turn.
//!
//! A test can't choose its allocator. So these pass with ample memory, as every test, and with any one request refused, which
//! `examples/check-memory` tries one after another. Each says whether memory was wanting.

use crate::caller::{Call, Ran, assert_text, rack_of, try_run};
use crate::runs::written_of_two_startups;
use hp_live::FreeGate;
use hp_samples::TWO_STARTUPS;
use std::alloc::{AllocError, Global};
use std::process::Abort;
use std::sync::atomic::AtomicU64;
use std::sync::{Arc, Wait};
use std::test::*;
use std::thread::Threads;

/// The status of a program that memory was wanting for.
const NO_MEMORY: u8 = 5;

/// A call, with two hooks; the error says that memory was wanting for what is handed in.
fn runs<R: Threads + Wait + Sync>(
    rt: &R,
    alloc: Global,
    call: &Call<'_>,
) -> Result<Ran, AllocError> {
    let calls = Arc::new(alloc, AtomicU64::new(0))?;
    let rack = rack_of(alloc, 2, &calls)?;
    try_run(rt, alloc, call, rack, &FreeGate)
}

/// What is written of it, with lines behind it.
fn wanted_of(rt: &impl Abort, alloc: Global, more: &str) -> (String, bool) {
    if let Ok(text) = written_of_two_startups(alloc, more) {
        return (text, false);
    }
    match written_of_two_startups(alloc, more) {
        Ok(text) => (text, true),
        Err(_) => panic!(rt; "memory is wanting again"),
    }
}

/// Asserts that a run is whole: it ends with 0, and all is written.
fn assert_whole(rt: &impl Abort, name: &str, ran: &Result<Ran, AllocError>, wanted: &str) {
    match ran {
        Ok(ran) => {
            assert!(rt; ran.status == 0, "{name}: status {}", ran.status);
            assert_text(rt, name, &ran.written, wanted.as_bytes());
        }
        Err(_) => panic!(rt; "{name}: memory is wanting again"),
    }
}

/// Asserts that a run is whole, or ends for want of memory with what is written a part of that; a next one is whole then. Whether
/// memory was wanting.
fn asserts_ends<R: Abort + Threads + Wait + Sync>(
    rt: &R,
    alloc: Global,
    call: &Call<'_>,
    wanted: &str,
) -> bool {
    let first = runs(rt, alloc, call);
    let wants = match &first {
        Ok(ran) => ran.status == NO_MEMORY,
        Err(_) => true,
    };
    if !wants {
        assert_whole(rt, "the run", &first, wanted);
        return false;
    }
    if let Ok(ran) = &first {
        assert!(rt;
            wanted.as_bytes().starts_with(ran.written.as_slice()),
            "other bytes are written before memory is wanting"
        );
    }
    assert_whole(rt, "the run behind", &runs(rt, alloc, call), wanted);
    true
}

#[test]
fn a_run_ends_where_memory_is_wanting(rt: HostRuntime) -> Result<(), Fail> {
    let alloc = rt.alloc();
    let (wanted, before) = wanted_of(&rt, alloc, "");
    let call = Call {
        words: &["run"],
        input: [TWO_STARTUPS.script, ""],
        fails: (None, None),
    };
    let wants = asserts_ends(&rt, alloc, &call, wanted.as_str());
    println!(rt; "memory was wanting: {}", u32::from(before || wants))?;
    Ok(())
}

/// The lines of the queues of state 120, as they stand in `runs.rt`.
const QUEUES: &str = "ran 0 1 2 8 3 10 4 12\n\
    drained 0 5 6 7 9 11 13 15 17 19\n\
    drained 1 14 16 18 20\n\
    unbound -\n";

#[test]
fn queues_end_where_memory_is_wanting(rt: HostRuntime) -> Result<(), Fail> {
    let alloc = rt.alloc();
    let (wanted, before) = wanted_of(&rt, alloc, QUEUES);
    let call = Call {
        words: &["work", "120"],
        input: [TWO_STARTUPS.script, ""],
        fails: (None, None),
    };
    let wants = asserts_ends(&rt, alloc, &call, wanted.as_str());
    println!(rt; "memory was wanting: {}", u32::from(before || wants))?;
    Ok(())
}
