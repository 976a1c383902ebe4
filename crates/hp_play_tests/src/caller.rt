//! A caller of `hp_main`: the word, the source, the sink and the rack that it hands in.

ghost use Rattle.std.specs.Prelude.{◌≡◌, ◌<◌, IfOk};

use hp_edge::NO_MEMORY;
use hp_hook::{Hook, Rack, ScriptHook};
use hp_io::{MemSink, MemSource};
use hp_play::hp_main;
use hp_samples::first_difference;
use std::alloc::{AllocError, Global};
use std::process::Abort;
use std::test::*;

/// A rack of so many hooks of scripts.
pub fn some_hooks(alloc: Global, count: u32) -> Result<Rack<ScriptHook>, AllocError> {
    let mut hooks = Vec::new(alloc);
    for _ in 0..count {
        hooks.push(ScriptHook::new())?;
    }
    Ok(Rack { hooks })
}

/// A source of these bytes.
pub fn source_of(alloc: Global, bytes: &[u8]) -> Result<MemSource, AllocError>
    ensures { IfOk result (λ source. source.faults ≡ 0) }
{
    Ok(MemSource::new(alloc, Vec::from_slice(alloc, bytes)?))
}

/// A sink that has room for what is written here, so that it takes no more memory.
pub fn ample_sink(alloc: Global) -> Result<MemSink, AllocError>
    ensures { IfOk result (λ sink. sink.faults ≡ 0) }
{
    let mut sink = MemSink::new(alloc);
    sink.bytes.reserve(8192)?;
    Ok(sink)
}

/// The only word of a command line.
fn words_of(alloc: Global, word: &str) -> Result<Vec<String>, AllocError> {
    let mut words = Vec::new(alloc);
    words.push(String::from_str(alloc, word)?)?;
    Ok(words)
}

/// Runs `hp_main` with this word. Where memory is wanting nothing is written, and the test ends.
pub fn run<H: Hook>(
    rt: &impl Abort,
    alloc: Global,
    word: &str,
    source: &mut MemSource,
    sink: &mut MemSink,
    rack: &mut Rack<H>,
) -> Result<u8, Fail>
    requires source { source.old.faults < u64.MAX }
    requires sink { sink.old.faults < u64.MAX }
{
    let words = words_of(alloc, word)?;
    let status = hp_main(alloc, &words, source, sink, rack);
    if status == NO_MEMORY {
        assert!(rt;
            sink.bytes.is_empty(),
            "no memory, and something is written"
        );
        return Err(Fail::from("out of memory"));
    }
    Ok(status)
}

/// Asserts that a text is the wanted one, and says its name and the first line that is another.
pub fn assert_text(rt: &impl Abort, name: &str, found: &[u8], wanted: &[u8]) {
    if let Some(line) = first_difference(found, wanted) {
        panic!(rt; "{name}, line {line}");
    }
}
