//! The threads of a run are beside each other: one goes on while another is held, and while a hook is called.

use crate::caller::{Call, rack_of, run};
use crate::holds::{CallGate, CountingGate, HoldingGate, HoldingHook, Signals};
use hp_hook::{Rack, ScriptHook};
use hp_samples::TWO_STARTUPS;
use std::sync::Arc;
use std::sync::atomic::AtomicU64;
use std::test::*;

/// Two processors and two actors, whose seats are 2 and 3.
const TWO_ACTORS: Call = Call {
    words: &["run"],
    input: ["cpus 2\nactor a\nup 1\nactor b\nshow state 0\n", ""],
    fails: (None, None),
};

/// The seat that is held, the one that it is held for, and whether until that leaves, in place of until it begins.
const ROWS: [(&'static str, u32, u32, bool); 4] = [
    ("the first actor is held", 2, 3, true),
    ("the second actor is held", 3, 2, true),
    ("the first processor is held", 0, 1, false),
    ("the second processor is held", 1, 0, false),
];

#[test]
fn no_seat_waits_for_another(rt: HostRuntime) -> Result<(), Fail> {
    let alloc = rt.alloc();
    let calls = Arc::new(alloc, AtomicU64::new(0))?;
    for &(name, held, other, to_leave) in ROWS.iter() {
        let gate = HoldingGate::new(held, other, to_leave);
        let rack = rack_of(alloc, 0, &calls)?;
        let ran = run(&rt, alloc, &TWO_ACTORS, rack, &gate);
        assert!(rt; ran.status == 0, "row {name}: status {}", ran.status);
        assert!(rt;
            gate.has_held(),
            "row {name}: the seat wasn't held, or the other didn't come"
        );
    }
    Ok(())
}

/// The first actor's second operation calls the hook on processor 1.
const ONE_CALL: Call = Call {
    words: &["run"],
    input: [
        "\
cpus 2
sub net:a both single
actor a
setup 120 1
up 1
actor b
show state 0
",
        "",
    ],
    fails: (None, None),
};

#[test]
fn a_hook_is_called_outside_the_lock(rt: HostRuntime) -> Result<(), Fail> {
    let alloc = rt.alloc();
    let signals = Arc::new(alloc, Signals::new())?;
    let gate = CallGate {
        seat: 3,
        signals: Arc::try_clone(&signals)?,
    };
    let hook = HoldingHook {
        hook: ScriptHook::new(),
        signals: Arc::try_clone(&signals)?,
    };
    let hooks = Vec::from_array(alloc, [hook])?;
    let ran = run(&rt, alloc, &ONE_CALL, Rack { hooks }, &gate);
    assert!(rt; ran.status == 0, "status {}", ran.status);
    assert!(rt;
        signals.has_left_meanwhile(),
        "the other didn't leave while the hook was called"
    );
    Ok(())
}

/// How many events each seat makes in the script of two startups, its leave among them: the two processors' threads a call
/// of each of two states, the actor two setups and one bring-up, of two and of four events.
const EVENTS: [(u32, u64); 3] = [(0, 3), (1, 3), (2, 9)];

#[test]
fn each_section_is_announced_once_and_in_order(rt: HostRuntime) -> Result<(), Fail> {
    let alloc = rt.alloc();
    let calls = Arc::new(alloc, AtomicU64::new(0))?;
    let gate = CountingGate::new();
    let call = Call {
        words: &["run"],
        input: [TWO_STARTUPS.script, ""],
        fails: (None, None),
    };
    let rack = rack_of(alloc, 2, &calls)?;
    let ran = run(&rt, alloc, &call, rack, &gate);
    assert!(rt; ran.status == 0, "status {}", ran.status);
    for (seat, events) in EVENTS {
        match gate.sections_of(seat) {
            Some(sections) => {
                assert!(rt;
                    sections >= events,
                    "seat {seat}: {sections} sections for {events} events"
                )
            }
            None => panic!(rt;
                "seat {seat}: its sections are out of order, or it left in none of them"
            ),
        }
    }
    Ok(())
}
