//! The commands, and the words that ask for them.

ghost use Rattle.std.specs.Prelude.{IfOk, IfErr, IfSome, IfNone, [], ◌∷◌, map, string_bytes};
ghost use Rattle.hp_command.specs.Commands.{AreNoCommand, HasOptions, IsCommand, IsNoLoneCommand};

use crate::controlling::{Controlling, controlling_of};
use crate::counting::{Counting, counting_of};
use crate::options::{Options, options_of};
use hp_states::NoMemory;
use std::alloc::Global;

/// What the program is asked for.
#[derive(Clone, Copy, Debug, PartialEq, Eq)]
pub enum Command {
    /// The text of the journal of a script, and its summary.
    Play,
    /// The states file after a script.
    States,
    /// The report of the journal of a script.
    Report,
    /// The summary of a journal.
    Replay,
    /// The text of a journal of version 1 in version 2, and its summary.
    Migrate,
    /// A generated script.
    Gen(Options),
    /// The summary of the journal of a generated script.
    Bench(Options),
    /// The counters of a state that went through the journal of a script.
    Count(Counting),
    /// The text of the journal of a script under SMT control, its summary, and what the writes of control came to.
    Smt(Controlling),
}

/// The command that this one word asks for, if it is one without options.
fn lone(word: &str) -> Option<Command>
    ensures some { IfSome result (IsCommand (word.now ∷ [])) }
    ensures none { IfNone result (IsNoLoneCommand word.now) }
{
    if word == "play" {
        return Some(Command::Play);
    }
    if word == "states" {
        return Some(Command::States);
    }
    if word == "report" {
        return Some(Command::Report);
    }
    if word == "replay" {
        return Some(Command::Replay);
    }
    if word == "migrate" {
        return Some(Command::Migrate);
    }
    None
}

/// The command that the words after the program's name ask for, if they ask for one.
///
/// `play`, `states`, `report`, `replay` and `migrate` are that one word. `gen` and `bench` are that word and then options,
/// in any order and each at most once: `--seed V` as two words or `--seed=V` as one, where V is 0 to
/// 18446744073709551615, and 1 where it is left out; and `--size V` or `--size=V`, where V is 1 to
/// 1,000, and 100 where it is left out. `count` is that word and then a state, 1 to 198, and a batch, 1
/// to 1,000,000. `smt` is that word, then how many threads a core has, 2 to 8, and then `off` or `forceoff`. A value is
/// decimal digits, without a sign and without a zero before others. All other words ask for nothing, `--help` too, and so does a list with a word that
/// is exactly `--`. This is the project's own.
///
/// Takes memory for the options, which `clap` reads, of words that begin with `gen` or `bench` and go on with what can
/// be options; where there is none: `NoMemory`.
pub fn command_of(alloc: Global, words: &[String]) -> Result<Option<Command>, NoMemory>
    ensures some { IfOk result (λ found. IfSome found (IsCommand (map string_bytes words.now))) }
    ensures none { IfOk result (λ found. IfNone found (AreNoCommand (map string_bytes words.now))) }
    ensures no_memory { IfErr result (λ _. HasOptions (map string_bytes words.now)) }
{
    let Some((word, rest)) = words.split_first() else {
        return Ok(None);
    };
    let word = word.as_str();
    if word == "gen" {
        let options = options_of(alloc, rest)?;
        return Ok(options.map(Command::Gen));
    }
    if word == "bench" {
        let options = options_of(alloc, rest)?;
        return Ok(options.map(Command::Bench));
    }
    if word == "count" {
        return Ok(counting_of(rest).map(Command::Count));
    }
    if word == "smt" {
        return Ok(controlling_of(rest).map(Command::Smt));
    }
    if rest.is_empty() {
        Ok(lone(word))
    } else {
        Ok(None)
    }
}
