//! A caller of `view_main`: the words, the source and the sink that it hands in.

ghost use Rattle.std.specs.Prelude.{◌≡◌, IfOk};

use hp_io::{MemSink, MemSource};
use hp_view::view_main;
use std::alloc::{AllocError, Global};

/// What came of a run.
#[derive(Drop)]
pub struct Ran {
    pub status: u8,
    /// How many reads and how many writes failed.
    pub faults: (u64, u64),
    pub written: Vec<u8>,
}

/// The words of a command line.
fn words_of(alloc: Global, words: &[&str]) -> Result<Vec<String>, AllocError> {
    let mut owned = Vec::new(alloc);
    for word in words {
        owned.push(String::from_str(alloc, word)?)?;
    }
    Ok(owned)
}

/// A source of these bytes, of which this read fails, by ten bytes each.
fn source_of(alloc: Global, bytes: &[u8], fails: Option<u64>) -> Result<MemSource, AllocError>
    ensures { IfOk result (λ source. source.faults ≡ 0) }
{
    let mut source = MemSource::new(alloc, Vec::from_slice(alloc, bytes)?);
    if let Some(call) = fails {
        source.step = 10;
        source.fails.push(call)?;
    }
    Ok(source)
}

/// A sink that has room for what is written here, so that it takes no more memory; this write fails, by a hundred bytes
/// each.
fn sink_of(alloc: Global, fails: Option<u64>) -> Result<MemSink, AllocError>
    ensures { IfOk result (λ sink. sink.faults ≡ 0) }
{
    let mut sink = MemSink::new(alloc);
    if let Some(call) = fails {
        sink.step = 100;
        sink.fails.push(call)?;
    }
    sink.bytes.reserve(16384)?;
    Ok(sink)
}

/// Runs `view_main` with these words on this input, where this read and this write fail.
pub fn run(
    alloc: Global,
    words: &[&str],
    input: &str,
    (read, write): (Option<u64>, Option<u64>),
) -> Result<Ran, AllocError> {
    let words = words_of(alloc, words)?;
    let mut source = source_of(alloc, input.as_bytes(), read)?;
    let mut sink = sink_of(alloc, write)?;
    let status = view_main(alloc, &words, &mut source, &mut sink);
    Ok(Ran {
        status,
        faults: (source.faults, sink.faults),
        written: sink.bytes,
    })
}
