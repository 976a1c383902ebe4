//! The program `hpview`: draws a printed journal.
//!
//! It hands its words, standard input and standard output to `view_main` of `hp_view`, and ends with the status that
//! `view_main` answers. Where nothing was written that says why, standard error has a line that
//! does, unless whoever reads is gone; of words that ask for nothing, and of a window that the journal hasn't, it has a hint.
#![tactic(auto)]

use hp_edge::{BAD_WORDS, NO_MEMORY, WRITE_FAULT, cause_of};
use hp_hint::{Noting, Program, window_hint};
use hp_io::{RealSink, RealSource};
use hp_view::{BAD_WINDOW, view_main};
use std::io;
use std::process::ExitCode;

/// The words after the program's name. A word that is no text makes them one that asks for nothing.
fn words_of(rt: &HostRuntime) -> io::Result<Vec<String>> {
    let mut words = Vec::new(rt.alloc());
    match std::env::args(rt) {
        Ok(args) => {
            for word in args.skip(1) {
                words.push(word)?;
            }
        }
        Err(error) => {
            if error.kind() != io::ErrorKind::InvalidData {
                return Err(error);
            }
            words.push(String::new(rt.alloc()))?;
        }
    }
    Ok(words)
}

/// Says on standard error why the program ended so, or what would have been right.
fn explain(rt: &HostRuntime, status: u8, words: &[String], written: &[u8]) {
    if status == BAD_WORDS {
        let _ = eprint!(rt; "{}", Program::Hpview.words_hint(words));
    } else if status == BAD_WINDOW {
        if let Ok(hint) = window_hint(rt.alloc(), words, written) {
            let _ = eprintln!(rt; "hpview: {hint}");
        }
    } else if let Some(cause) = cause_of(status) {
        let _ = eprintln!(rt; "hpview: {cause}");
    }
}

/// Does what the words say, and answers the status.
fn run(rt: &HostRuntime) -> u8 {
    let Ok(words) = words_of(rt) else {
        explain(rt, NO_MEMORY, &[], &[]);
        return NO_MEMORY;
    };
    let mut source = RealSource::new(rt.reader());
    let mut sink = RealSink::new(Noting::new(io::writer(rt)));
    let status = view_main(rt.alloc(), &words, &mut source, &mut sink);
    if status != WRITE_FAULT || !sink.writer.is_closed() {
        explain(rt, status, &words, sink.writer.first());
    }
    status
}

fn main(rt: HostRuntime) -> ExitCode {
    ExitCode::from(run(&rt))
}
