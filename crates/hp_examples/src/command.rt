//! A caller of `hp_main` in memory.

use hp_hook::{Rack, ScriptHook};
use hp_io::{MemSink, MemSource};
use hp_play::hp_main;
use std::alloc::{AllocError, Global};

/// The hooks of the rack: as many setups as a script may have.
const HOOKS: u32 = 128;

/// A rack of so many hooks.
fn rack_of(alloc: Global, many: u32) -> Result<Rack<ScriptHook>, AllocError> {
    let mut hooks = Vec::new(alloc);
    for _ in 0..many {
        hooks.push(ScriptHook::new())?;
    }
    Ok(Rack { hooks })
}

/// The words of a line, between blanks.
fn words_of(alloc: Global, line: &str) -> Result<Vec<String>, AllocError> {
    let mut words = Vec::new(alloc);
    for word in line.split(' ') {
        words.push(String::from_str(alloc, word)?)?;
    }
    Ok(words)
}

/// The status of `hp` with these words and this input, and what it writes.
pub fn run(alloc: Global, words: &str, input: &[u8]) -> Result<(u8, Vec<u8>), AllocError> {
    let words = words_of(alloc, words)?;
    let mut source = MemSource::new(alloc, Vec::from_slice(alloc, input)?);
    let mut sink = MemSink::new(alloc);
    let mut rack = rack_of(alloc, HOOKS)?;
    let status = hp_main(alloc, &words, &mut source, &mut sink, &mut rack);
    Ok((status, sink.bytes))
}
