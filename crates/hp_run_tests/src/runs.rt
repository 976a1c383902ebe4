//! Scripts that are run, with what is written of them.

use crate::caller::{Call, Ran, assert_text, rack_of, run, sink_of, source_of, words_of};
use hp_hook::{Rack, ScriptHook};
use hp_live::FreeGate;
use hp_play::hp_main;
use hp_samples::{TWELVE_SUBSYSTEMS, TWO_STARTUPS};
use std::alloc::{AllocError, Global};
use std::process::Abort;
use std::sync::atomic::{AtomicU64, Ordering};
use std::sync::{Arc, Wait};
use std::test::*;
use std::thread::Threads;

/// What is written of the script of two startups, whatever the threads' order, with lines behind it: its one actor leaves
/// when it has brought its processor up, and the two processors' seats leave after it.
pub fn written_of_two_startups(alloc: Global, more: &str) -> Result<String, AllocError> {
    let leaves = "leave 2\nleave 0\nleave 1\nend 18\n";
    let summary = TWO_STARTUPS
        .summary
        .replace(alloc, "events 15\n", "events 18\n")?;
    let mut text = TWO_STARTUPS.journal.replace(alloc, "end 15\n", leaves)?;
    text.push_str(summary.as_str())?;
    text.push_str(more)?;
    Ok(text)
}

/// Runs a script with so many hooks, and says how often they were called; it is done.
fn done<R: Abort + Threads + Wait + Sync>(
    rt: &R,
    alloc: Global,
    call: &Call<'_>,
    hooks: u32,
) -> Result<(Vec<u8>, u64), AllocError> {
    let calls = Arc::new(alloc, AtomicU64::new(0))?;
    let rack = rack_of(alloc, hooks, &calls)?;
    let Ran {
        status,
        written,
        ..
    } = run(rt, alloc, call, rack, &FreeGate);
    assert!(rt; status == 0, "status {status}");
    Ok((written, calls.load(Ordering::SeqCst)))
}

/// The words, what the script of two startups is followed by, whether what is written of it comes first, what comes last,
/// and how often the hooks are called.
struct Row {
    name: &'static str,
    words: &'static [&'static str],
    more: &'static str,
    is_whole: bool,
    last: &'static str,
    calls: u64,
}

/// The lines of the queues of state 120 were worked out by hand: after each of the 18 events an item is put on each open
/// processor, and after each third the fronts run. Where the processor goes down at the end of the script its queue moves
/// behind the other's.
const ROWS: [Row; 3] = [
    Row {
        name: "a script is run and its hooks are called",
        words: &["run"],
        more: "",
        is_whole: true,
        last: "",
        calls: 4,
    },
    Row {
        name: "queues go through a run",
        words: &["work", "120"],
        more: "",
        is_whole: true,
        last: "ran 0 1 2 8 3 10 4 12\n\
            drained 0 5 6 7 9 11 13 15 17 19\n\
            drained 1 14 16 18 20\n\
            unbound -\n",
        calls: 4,
    },
    Row {
        name: "a queue moves in a run",
        words: &["work", "120"],
        more: "down 1\n",
        is_whole: false,
        last: "ran 0 1 2 8 3 10 4 12 5 6\n\
            drained 0 7 9 11 13 15 17 19 14 16 18 20 21 22 23 24 25 26\n\
            unbound -\n",
        calls: 6,
    },
];

#[test]
fn two_startups_are_run(rt: HostRuntime) -> Result<(), Fail> {
    let alloc = rt.alloc();
    for row in ROWS.iter() {
        let name = row.name;
        let call = Call {
            words: row.words,
            input: [TWO_STARTUPS.script, row.more],
            fails: (None, None),
        };
        let (written, calls) = done(&rt, alloc, &call, 2)?;
        assert!(rt; calls == row.calls, "row {name}: {calls} calls");
        assert!(rt;
            written.ends_with(row.last.as_bytes()),
            "row {name}: other lines"
        );
        if row.is_whole {
            let wanted = written_of_two_startups(alloc, row.last)?;
            assert_text(&rt, name, &written, wanted.as_bytes());
        }
    }
    Ok(())
}

/// The status of `hp replay` on a text, and what it writes.
fn replayed(alloc: Global, text: Vec<u8>) -> Result<(u8, Vec<u8>), AllocError> {
    let words = words_of(alloc, &["replay"])?;
    let mut source = source_of(alloc, text, None)?;
    let mut sink = sink_of(alloc, None)?;
    let mut rack = Rack::<ScriptHook> {
        hooks: Vec::new(alloc),
    };
    let status = hp_main(alloc, &words, &mut source, &mut sink, &mut rack);
    Ok((status, sink.bytes))
}

#[test]
fn twelve_subsystems_end_alike(rt: HostRuntime) -> Result<(), Fail> {
    let alloc = rt.alloc();
    let wanted = TWELVE_SUBSYSTEMS
        .summary
        .replace(alloc, "events 179\n", "events 193\n")?;
    let call = Call {
        words: &["run"],
        input: [TWELVE_SUBSYSTEMS.script, ""],
        fails: (None, None),
    };
    let (written, _) = done(&rt, alloc, &call, 12)?;
    assert!(rt; written.ends_with(wanted.as_bytes()), "another summary");
    let (status, summary) = replayed(alloc, written)?;
    assert!(rt; status == 0, "replay: status {status}");
    assert_text(&rt, TWELVE_SUBSYSTEMS.name, &summary, wanted.as_bytes());
    Ok(())
}
