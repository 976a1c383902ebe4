//! The program `hptrace`: says of a kernel's trace what its lines alone decide.
//!
//! It hands its words, standard input and standard output to `trace_main` of `hp_trace_run`, and ends with the status
//! that `trace_main` answers. Where nothing was written that says why, standard error has a line that does, unless whoever
//! reads is gone; of words it has a hint.
#![tactic(auto)]

use hp_hint::{Noting, Program};
use hp_io::{RealSink, RealSource};
use hp_trace_run::{BAD_WORDS, NO_MEMORY, READ_FAULT, WRITE_FAULT, trace_main};
use std::io;
use std::process::ExitCode;

/// The words after the program's name. A word that is no text is one that asks for nothing, as any word is.
fn words_of(rt: &HostRuntime) -> io::Result<Vec<String>> {
    let mut words = Vec::new(rt.alloc());
    match std::env::args(rt) {
        Ok(args) => {
            for word in args.skip(1) {
                words.push(word)?;
            }
        }
        Err(error) => {
            if error.kind() != io::ErrorKind::InvalidData {
                return Err(error);
            }
            words.push(String::new(rt.alloc()))?;
        }
    }
    Ok(words)
}

/// Says on standard error why the program ended so, where it wrote no line that says it, or what would have been right.
fn explain(rt: &HostRuntime, status: u8, words: &[String]) {
    let _ = match status {
        BAD_WORDS => eprint!(rt; "{}", Program::Hptrace.words_hint(words)),
        READ_FAULT => eprintln!(rt; "hptrace: reading failed"),
        WRITE_FAULT => eprintln!(rt; "hptrace: writing failed"),
        NO_MEMORY => eprintln!(rt; "hptrace: out of memory"),
        _ => Ok(()),
    };
}

/// Does what the words say, and answers the status.
fn run(rt: &HostRuntime) -> u8 {
    let Ok(words) = words_of(rt) else {
        explain(rt, NO_MEMORY, &[]);
        return NO_MEMORY;
    };
    let mut source = RealSource::new(rt.reader());
    let mut sink = RealSink::new(Noting::new(io::writer(rt)));
    let status = trace_main(rt.alloc(), &words, &mut source, &mut sink);
    if status != WRITE_FAULT || !sink.writer.is_closed() {
        explain(rt, status, &words);
    }
    status
}

fn main(rt: HostRuntime) -> ExitCode {
    ExitCode::from(run(&rt))
}
