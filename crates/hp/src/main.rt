//! The program `hp`: plays scripts of CPU hotplug, checks printed journals, and generates scripts.
//!
//! It hands its words, standard input, standard output and a rack of hooks to `hp_main` of
//! `hp_play`, and ends with the status that `hp_main` answers. Where nothing was written that says why, standard error
//! has a line that does, unless whoever reads is gone; of words that are no command's, and of a script that is refused, it has a
//! hint. The rack is its own: so many boxed hooks of scripts.
#![tactic(auto)]

use hp_edge::{BAD_SCRIPT, BAD_WORDS, NO_MEMORY, WRITE_FAULT, cause_of};
use hp_hint::{Kept, Noting, Program, script_hint};
use hp_hook::{Hook, Rack, ScriptHook};
use hp_io::{RealSink, RealSource};
use hp_play::hp_main;
use hp_states::MAX_SCRIPT_BYTES;
use std::io::{self, IsTerminal};
use std::process::ExitCode;

/// The hooks of the rack: as many setups as a script may have.
const HOOKS: u32 = 128;

/// The words after the program's name. A word that is no text makes them the words of no command.
fn words_of(rt: &HostRuntime) -> io::Result<Vec<String>> {
    let mut words = Vec::new(rt.alloc());
    match std::env::args(rt) {
        Ok(args) => {
            for word in args.skip(1) {
                words.push(word)?;
            }
        }
        Err(error) => {
            if error.kind() != io::ErrorKind::InvalidData {
                return Err(error);
            }
        }
    }
    Ok(words)
}

/// Whether hints are in colour: where standard error is a terminal, and `NO_COLOR` isn't set.
fn has_colour(rt: &HostRuntime) -> bool {
    rt.stderr().is_terminal() && std::env::var(rt, "NO_COLOR").is_err()
}

/// Says on standard error why the program ended so, or what would have been right.
fn explain(rt: &HostRuntime, status: u8, words: &[String], script: &[u8]) {
    if status == BAD_WORDS {
        let _ = eprint!(rt; "{}", Program::Hp.words_hint(words));
    } else if status == BAD_SCRIPT {
        if let Ok(hint) = script_hint(rt.alloc(), script, HOOKS, has_colour(rt)) {
            let _ = eprint!(rt; "{hint}");
        }
    } else if let Some(cause) = cause_of(status) {
        let _ = eprintln!(rt; "hp: {cause}");
    }
}

/// Does what the words say, and answers the status.
fn run(rt: &HostRuntime, words: &Vec<String>) -> u8 {
    let alloc = rt.alloc();
    let mut hooks: Vec<Box<dyn Hook + Send>> = Vec::new(alloc);
    for _ in 0..HOOKS {
        let Ok(hook) = Box::new(alloc, ScriptHook::new()) else {
            explain(rt, NO_MEMORY, words, &[]);
            return NO_MEMORY;
        };
        if hooks.push(hook).is_err() {
            explain(rt, NO_MEMORY, words, &[]);
            return NO_MEMORY;
        }
    }
    let mut rack = Rack { hooks };
    let mut source = Kept::new(
        alloc,
        RealSource::new(rt.reader()),
        MAX_SCRIPT_BYTES as usize + 1,
    );
    let mut sink = RealSink::new(Noting::new(io::writer(rt)));
    let status = hp_main(alloc, words, &mut source, &mut sink, &mut rack);
    if status != WRITE_FAULT || !sink.writer.is_closed() {
        explain(rt, status, words, source.bytes());
    }
    status
}

fn main(rt: HostRuntime) -> ExitCode {
    let Ok(words) = words_of(&rt) else {
        explain(&rt, NO_MEMORY, &[], &[]);
        return ExitCode::from(NO_MEMORY);
    };
    ExitCode::from(run(&rt, &words))
}
