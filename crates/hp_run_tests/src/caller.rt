//! A caller of `hpd_main`: the words, the source, the sink, the rack and the gate that it hands in.

ghost use Rattle.std.specs.Prelude.{◌≡◌, IfOk};

use hp_hook::{Hook, Rack};
use hp_io::{MemSink, MemSource};
use hp_live::Gate;
use hp_run::hpd_main;
use hp_samples::{Marked, first_difference};
use std::alloc::{AllocError, Global};
use std::process::Abort;
use std::sync::atomic::AtomicU64;
use std::sync::{Arc, Wait};
use std::thread::Threads;

/// The words, what is read, and the read and the write that fail, if one does: by ten bytes each, and by a hundred.
#[derive(Clone, Copy)]
pub struct Call<'a> {
    pub words: &'a [&'a str],
    /// The script, in pieces.
    pub input: [&'a str; 2],
    pub fails: (Option<u64>, Option<u64>),
}

/// What came of a call.
#[derive(Drop)]
pub struct Ran {
    pub status: u8,
    /// How many reads and how many writes failed.
    pub faults: (u64, u64),
    pub written: Vec<u8>,
}

/// What a call hands in.
#[derive(Drop)]
struct Objects {
    words: Vec<String>,
    source: MemSource,
    sink: MemSink,
}

/// A rack of so many hooks, which count their calls here too.
pub fn rack_of(
    alloc: Global,
    count: u32,
    calls: &Arc<AtomicU64, Global>,
) -> Result<Rack<Marked>, AllocError> {
    let mut hooks = Vec::new(alloc);
    for mark in 0..count {
        hooks.push(Marked::counted(mark, Arc::try_clone(calls)?))?;
    }
    Ok(Rack { hooks })
}

/// The words of a command line.
pub fn words_of(alloc: Global, words: &[&str]) -> Result<Vec<String>, AllocError> {
    let mut owned = Vec::new(alloc);
    for word in words {
        owned.push(String::from_str(alloc, word)?)?;
    }
    Ok(owned)
}

/// A source of these bytes, of which this read fails.
pub fn source_of(alloc: Global, bytes: Vec<u8>, fails: Option<u64>) -> Result<MemSource, AllocError>
    ensures { IfOk result (λ source. source.faults ≡ 0) }
{
    let mut source = MemSource::new(alloc, bytes);
    if let Some(call) = fails {
        source.step = 10;
        source.fails.push(call)?;
    }
    Ok(source)
}

/// A sink that has room for what is written in most tests; this write fails.
pub fn sink_of(alloc: Global, fails: Option<u64>) -> Result<MemSink, AllocError>
    ensures { IfOk result (λ sink. sink.faults ≡ 0) }
{
    let mut sink = MemSink::new(alloc);
    if let Some(call) = fails {
        sink.step = 100;
        sink.fails.push(call)?;
    }
    sink.bytes.reserve(8192)?;
    Ok(sink)
}

/// The pieces of a script, one behind the other.
fn bytes_of(alloc: Global, [one, other]: [&str; 2]) -> Result<Vec<u8>, AllocError> {
    let mut bytes = Vec::from_slice(alloc, one.as_bytes())?;
    bytes.extend_from_slice(other.as_bytes())?;
    Ok(bytes)
}

/// What a call hands in.
fn objects_of(alloc: Global, call: &Call<'_>) -> Result<Objects, AllocError>
    ensures source { IfOk result (λ objects. objects.source.faults ≡ 0) }
    ensures sink { IfOk result (λ objects. objects.sink.faults ≡ 0) }
{
    let words = words_of(alloc, call.words)?;
    let source = source_of(alloc, bytes_of(alloc, call.input)?, call.fails.0)?;
    let sink = sink_of(alloc, call.fails.1)?;
    Ok(Objects {
        words,
        source,
        sink,
    })
}

/// Calls `hpd_main`; the error says that memory was wanting for what is handed in.
pub fn try_run<R: Threads + Wait + Sync, H: Hook + Send, G: Gate + Sync>(
    rt: &R,
    alloc: Global,
    call: &Call<'_>,
    rack: Rack<H>,
    gate: &G,
) -> Result<Ran, AllocError> {
    let Objects {
        words,
        mut source,
        mut sink,
    } = objects_of(alloc, call)?;
    let status = hpd_main(rt, alloc, &words, &mut source, &mut sink, rack, gate);
    Ok(Ran {
        status,
        faults: (source.faults, sink.faults),
        written: sink.bytes,
    })
}

/// Calls `hpd_main`.
pub fn run<R: Abort + Threads + Wait + Sync, H: Hook + Send, G: Gate + Sync>(
    rt: &R,
    alloc: Global,
    call: &Call<'_>,
    rack: Rack<H>,
    gate: &G,
) -> Ran {
    match try_run(rt, alloc, call, rack, gate) {
        Ok(ran) => ran,
        Err(_) => panic!(rt; "memory for a call"),
    }
}

/// Asserts that a text is the wanted one, and says the row and the first line that is another.
pub fn assert_text(rt: &impl Abort, name: &str, found: &[u8], wanted: &[u8]) {
    if let Some(line) = first_difference(found, wanted) {
        panic!(rt; "row {name}, line {line}");
    }
}
