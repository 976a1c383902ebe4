//! `hp_main` as its caller meets it: the status, the bytes that are written, and what a fault leaves.

ghost use Rattle.std.specs.Prelude.{◌<◌};

use crate::caller::{ample_sink, assert_text, run, some_hooks, source_of};
use hp_hook::{Hook, Rack};
use hp_io::{MemSink, MemSource};
use hp_samples::{Marked, TWO_STARTUPS};
use hp_states::MAX_SCRIPT_BYTES;
use std::alloc::{AllocError, Global};
use std::process::Abort;
use std::sync::Arc;
use std::sync::atomic::{AtomicU64, Ordering};
use std::test::*;

/// What is written when the script of two startups is played.
fn written_of_two_startups(alloc: Global) -> Result<Vec<u8>, AllocError> {
    let mut text = Vec::from_slice(alloc, TWO_STARTUPS.journal.as_bytes())?;
    text.extend_from_slice(TWO_STARTUPS.summary.as_bytes())?;
    Ok(text)
}

/// The journal of two startups as version 1 has it.
const OLD: &str = "\
cpuhp journal 1
cpus 2
absent -
sub net:a both single
sub net:b both single
events
admit 0 ap 0
admit 1 ap 1
admit 2 client
reg 2 120 setup 120 1
call 0 0 120 0 up ok
regged 2 ok 0
reg 2 150 setup 150 2
call 0 0 150 0 up ok
regged 2 ok 0
enter 2 up 1
walk 2 1 0 200
call 1 1 120 0 up ok
call 1 1 150 0 up ok
walked 2 1 ok
done 2 ok 0
end 15
";

/// Runs this command with the script of two startups, and asserts what the hooks of the rack have answered after it.
fn check_rack(rt: &impl Abort, alloc: Global, word: &str, sink: &mut MemSink) -> Result<(), Fail>
    requires sink { sink.old.faults < u64.MAX }
{
    let mut source = source_of(alloc, TWO_STARTUPS.script.as_bytes())?;
    let mut rack = some_hooks(alloc, 4)?;
    let status = run(rt, alloc, word, &mut source, sink, &mut rack)?;
    assert!(rt; status == 0, "{word}: status {status}");
    assert!(rt; rack.hooks.len() == 4, "{word}");
    for (place, (hook, made)) in rack.hooks.iter().zip([0, 0, 2, 2]).enumerate() {
        assert!(rt;
            (hook.made(), hook.faults()) == (made, 0),
            "{word}: hook {place}"
        );
    }
    Ok(())
}

#[test]
fn a_script_is_played(rt: HostRuntime) -> Result<(), Fail> {
    let wanted = written_of_two_startups(rt.alloc())?;
    let mut sink = ample_sink(rt.alloc())?;
    check_rack(&rt, rt.alloc(), "play", &mut sink)?;
    assert_text(&rt, TWO_STARTUPS.name, &sink.bytes, &wanted);
    Ok(())
}

#[test]
fn the_rack_after_a_report(rt: HostRuntime) -> Result<(), Fail> {
    let mut sink = ample_sink(rt.alloc())?;
    check_rack(&rt, rt.alloc(), "report", &mut sink)
}

/// A rack of two hooks of the caller's own, which count their calls here.
fn counted_hooks(
    alloc: Global,
    calls: &Arc<AtomicU64, Global>,
) -> Result<Rack<Box<dyn Hook + Send>>, Fail> {
    let mut hooks: Vec<Box<dyn Hook + Send>> = Vec::new(alloc);
    for mark in 0..2u32 {
        let hook = Marked::counted(mark, Arc::try_clone(calls)?);
        hooks.push(Box::new(alloc, hook)?)?;
    }
    Ok(Rack { hooks })
}

/// Plays the script of two startups with the hooks of this rack, and says the status.
fn play_with(
    rt: &impl Abort,
    alloc: Global,
    rack: &mut Rack<Box<dyn Hook + Send>>,
) -> Result<u8, Fail> {
    let mut source = source_of(alloc, TWO_STARTUPS.script.as_bytes())?;
    let mut sink = ample_sink(alloc)?;
    run(rt, alloc, "play", &mut source, &mut sink, rack)
}

#[test]
fn hooks_of_the_caller_are_called(rt: HostRuntime) -> Result<(), Fail> {
    let calls = Arc::new(rt.alloc(), AtomicU64::new(0))?;
    let mut rack = counted_hooks(rt.alloc(), &calls)?;
    assert!(rt; play_with(&rt, rt.alloc(), &mut rack)? == 0);
    assert!(rt; rack.hooks.len() == 2);
    assert!(rt; calls.load(Ordering::SeqCst) == 4);
    Ok(())
}

/// Runs this command from this source into this sink, with four hooks.
fn run_alone(
    rt: &impl Abort,
    alloc: Global,
    word: &str,
    source: &mut MemSource,
    sink: &mut MemSink,
) -> Result<u8, Fail>
    requires source { source.old.faults < u64.MAX }
    requires sink { sink.old.faults < u64.MAX }
{
    let mut rack = some_hooks(alloc, 4)?;
    run(rt, alloc, word, source, sink, &mut rack)
}

/// The status where this read fails, by ten bytes each, how many failed, and how many writes there were.
fn with_failing_read(
    rt: &impl Abort,
    alloc: Global,
    word: &str,
    input: &str,
    call: u64,
) -> Result<(u8, u64, u64), Fail> {
    let mut source = source_of(alloc, input.as_bytes())?;
    source.step = 10;
    source.fails.push(call)?;
    let mut sink = ample_sink(alloc)?;
    let status = run_alone(rt, alloc, word, &mut source, &mut sink)?;
    Ok((status, source.faults, sink.calls))
}

#[test]
fn each_failing_read_is_told(rt: HostRuntime) -> Result<(), Fail> {
    // 88 bytes of the script by tens, and the end
    for call in 1..11 {
        for &(word, input) in [("play", TWO_STARTUPS.script), ("migrate", OLD)].iter() {
            assert!(rt;
                with_failing_read(&rt, rt.alloc(), word, input, call)? == (3, 1, 0),
                "{word}: read {call}"
            );
        }
    }
    Ok(())
}

/// Writes of a hundred bytes each, and how many bytes were written before each.
const WRITES: [(u64, usize); 6] = [(1, 0), (2, 100), (3, 200), (4, 300), (5, 400), (6, 500)];

/// Runs this command where this write fails, and asserts that so many of the wanted bytes were written.
fn check_failing_write(
    rt: &impl Abort,
    alloc: Global,
    word: &str,
    input: &str,
    write: (u64, usize),
    wanted: &[u8],
) -> Result<(), Fail> {
    let (call, length) = write;
    let mut source = source_of(alloc, input.as_bytes())?;
    let mut sink = ample_sink(alloc)?;
    sink.step = 100;
    sink.fails.push(call)?;
    let status = run_alone(rt, alloc, word, &mut source, &mut sink)?;
    assert!(rt; (status, sink.faults) == (4, 1), "{word}: write {call}");
    assert!(rt; sink.bytes.len() == length, "{word}: write {call}");
    assert!(rt; wanted.starts_with(&sink.bytes), "{word}: write {call}");
    Ok(())
}

#[test]
fn each_failing_write_is_told(rt: HostRuntime) -> Result<(), Fail> {
    let wanted = written_of_two_startups(rt.alloc())?;
    // 591 bytes by hundreds, of the script as it is played and of the old journal as it is written anew
    for &write in WRITES.iter() {
        for &(word, input) in [("play", TWO_STARTUPS.script), ("migrate", OLD)].iter() {
            check_failing_write(&rt, rt.alloc(), word, input, write, &wanted)?;
        }
    }
    Ok(())
}

/// Asserts that a command with this input and so many hooks is refused with this line, and says how many bytes were
/// read.
fn check_refused(
    rt: &impl Abort,
    alloc: Global,
    word: &str,
    input: &[u8],
    hooks: u32,
    line: &str,
) -> Result<usize, Fail> {
    let mut source = source_of(alloc, input)?;
    let mut sink = ample_sink(alloc)?;
    let mut rack = some_hooks(alloc, hooks)?;
    let status = run(rt, alloc, word, &mut source, &mut sink, &mut rack)?;
    assert!(rt; status == 2, "{word}: status {status}");
    assert_text(rt, word, &sink.bytes, line.as_bytes());
    Ok(source.at)
}

#[test]
fn too_few_hooks(rt: HostRuntime) -> Result<(), Fail> {
    let script = TWO_STARTUPS.script.as_bytes();
    let line = "error: line 5: too many\n";
    let _ = check_refused(&rt, rt.alloc(), "play", script, 0, line)?;
    let line = "error: line 31: too many\n";
    let _ = check_refused(&rt, rt.alloc(), "bench", b"", 11, line)?;
    Ok(())
}

/// Asserts that a script is refused as too long, and that no more of it was read than shows that.
fn check_too_long(rt: &impl Abort, alloc: Global, script: &[u8]) -> Result<(), Fail> {
    let line = "error: line 0: too long\n";
    let read = check_refused(rt, alloc, "play", script, 4, line)?;
    assert!(rt; read == MAX_SCRIPT_BYTES as usize + 1);
    Ok(())
}

#[test]
fn nothing_is_decided_past_the_limit(rt: HostRuntime) -> Result<(), Fail> {
    let comment = vec![in rt.alloc(); b'#'; MAX_SCRIPT_BYTES as usize + 1]?;
    check_too_long(&rt, rt.alloc(), &comment)?;
    let lines = vec![in rt.alloc(); b'\n'; MAX_SCRIPT_BYTES as usize + 100]?;
    check_too_long(&rt, rt.alloc(), &lines)
}
