//! A run of the largest machine by the most actors.

use crate::caller::{Call, rack_of, run};
use hp_live::FreeGate;
use std::alloc::{AllocError, Global};
use std::sync::Arc;
use std::sync::atomic::AtomicU64;
use std::test::*;

/// The other actors' part, each once: none of them waits.
const SHOW: &'static str = "actor b\nshow state 0\n";

/// 256 processors and 32 actors, of which the first boots all, and each other shows one's state.
fn script_at_size(alloc: Global) -> Result<String, AllocError> {
    let mut script = String::from_str(alloc, "cpus 256\nactor a\nboot 256\n")?;
    for _ in 1..32u32 {
        script.push_str(SHOW)?;
    }
    Ok(script)
}

/// What is written at the end, whatever the threads' order: of 256 processors the last, and of 1,119 events, which are 288
/// admissions, a boot's two, two of each of its 255 walks, 31 shows, and 288 leaves.
const LAST: &'static str = "\
cpu 255 present state 200 keys -
disabled 0
frozen -
ops ok 32 refused 0 fault 0 stuck 0 full 0
events 1119
";

#[test]
fn the_largest_machine_boots_by_the_most_actors(rt: HostRuntime) -> Result<(), Fail> {
    let alloc = rt.alloc();
    let calls = Arc::new(alloc, AtomicU64::new(0))?;
    let script = script_at_size(alloc)?;
    let call = Call {
        words: &["run"],
        input: [script.as_str(), ""],
        fails: (None, None),
    };
    let rack = rack_of(alloc, 0, &calls)?;
    let ran = run(&rt, alloc, &call, rack, &FreeGate);
    assert!(rt; ran.status == 0, "status {}", ran.status);
    assert!(rt; ran.written.ends_with(LAST.as_bytes()), "other lines");
    Ok(())
}
