//! Lists of words, and what they ask for by hp_command.

use hp_command::{Command, Counting, Options, command_of};
use std::alloc::Global;
use std::process::Abort;

/// A list of words, and the command that it is to be.
type Row = (&'static [&'static str], Command);

const COMMANDS: [Row; 15] = [
    (&["play"], Command::Play),
    (&["states"], Command::States),
    (&["replay"], Command::Replay),
    (&["migrate"], Command::Migrate),
    (&["gen"], Command::Gen(Options { seed: 1, size: 100 })),
    (
        &["gen", "--seed", "0", "--size", "1"],
        Command::Gen(Options { seed: 0, size: 1 }),
    ),
    (
        &["gen", "--seed=7", "--size=2"],
        Command::Gen(Options { seed: 7, size: 2 }),
    ),
    (
        &["gen", "--size", "2", "--seed=7"],
        Command::Gen(Options { seed: 7, size: 2 }),
    ),
    (
        &["gen", "--size=2"],
        Command::Gen(Options { seed: 1, size: 2 }),
    ),
    (
        &["gen", "--seed", "18446744073709551615"],
        Command::Gen(Options {
            seed: u64::MAX,
            size: 100,
        }),
    ),
    (&["bench"], Command::Bench(Options { seed: 1, size: 100 })),
    (
        &["bench", "--seed", "7", "--size", "2"],
        Command::Bench(Options { seed: 7, size: 2 }),
    ),
    (
        &["bench", "--size=1000"],
        Command::Bench(Options {
            seed: 1,
            size: 1000,
        }),
    ),
    (
        &["count", "1", "1"],
        Command::Count(Counting { state: 1, batch: 1 }),
    ),
    (
        &["count", "198", "1000000"],
        Command::Count(Counting {
            state: 198,
            batch: 1_000_000,
        }),
    ),
];

/// Lists of words that are no command.
const OTHERS: [&'static [&'static str]; 29] = [
    &[],
    &[""],
    &["fly"],
    &["Play"],
    &["play", "play"],
    &["play", ""],
    &["--help"],
    &["-h"],
    &["--version"],
    &["--"],
    &["--", "play"],
    &["replay", "--"],
    &["migrate", "old"],
    &["migrated"],
    &["gen", "--help"],
    &["gen", "-h"],
    &["bench", "--version"],
    &["bench", "help"],
    &["count"],
    &["count", "120"],
    &["count", "120", "10", "1"],
    &["count", "0", "10"],
    &["count", "199", "10"],
    &["count", "120", "0"],
    &["count", "120", "1000001"],
    &["count", "120", "01"],
    &["count", "+120", "10"],
    &["count", "120", "4294967297"],
    &["count", "--", "120", "10"],
];

/// What a list of words asks for.
fn asked_by(rt: &impl Abort, alloc: Global, row: &[&str]) -> Option<Command> {
    let mut words = Vec::new(alloc);
    for word in row {
        let Ok(word) = String::from_str(alloc, word) else {
            panic!(rt; "memory for a word");
        };
        assert!(rt; words.push(word).is_ok());
    }
    let Ok(command) = command_of(alloc, &words) else {
        panic!(rt; "memory for {row:?}");
    };
    command
}

#[test]
fn words_ask_for_commands(rt: HostRuntime) {
    for &(row, command) in COMMANDS.iter() {
        let asked = asked_by(&rt, rt.alloc(), row);
        assert!(rt; asked == Some(command), "{row:?}: {asked:?}");
    }
    for &row in OTHERS.iter() {
        let asked = asked_by(&rt, rt.alloc(), row);
        assert!(rt; asked == None, "{row:?}: {asked:?}");
    }
}
