//! What the words of the command line ask for.

ghost use Rattle.std.specs.Prelude.{IfOk, IfErr, IfSome, IfNone, map, string_bytes};
ghost use Rattle.hp_command.specs.Options.{CanBeOptions};
ghost use Rattle.hp_view.specs.Options.{AsksNothing, IsAsked};
ghost use Rattle.hp_view.specs.TextsFound.{SayAsked, SayNothing};

use crate::texts::{Texts, texts_of};
use hp_command::number_of;
use hp_states::NoMemory;
use std::alloc::Global;

/// The window that is asked for, by the numbers of its first and its last event, counted from 1; each where it is
/// given.
#[derive(Clone, Copy, Debug, PartialEq, Eq)]
pub struct Asked {
    /// The number of the first event.
    pub start: Option<u64>,
    /// The number of the last event.
    pub stop: Option<u64>,
}

/// What the texts say, if each says a number.
fn said_by(texts: &Texts<'_>) -> Option<Asked>
    ensures some { IfSome result (SayAsked texts.now) }
    ensures none { IfNone result (SayNothing texts.now) }
{
    match (texts.start, texts.stop) {
        (None, None) => Some(Asked {
            start: None,
            stop: None,
        }),
        (Some(start), None) => {
            let start = number_of(start)?;
            Some(Asked {
                start: Some(start),
                stop: None,
            })
        }
        (None, Some(stop)) => {
            let stop = number_of(stop)?;
            Some(Asked {
                start: None,
                stop: Some(stop),
            })
        }
        (Some(start), Some(stop)) => {
            let start = number_of(start)?;
            let stop = number_of(stop)?;
            Some(Asked {
                start: Some(start),
                stop: Some(stop),
            })
        }
    }
}

/// What the words after the program's name ask for, if they are its options.
///
/// They are `--from N` as two words or `--from=N` as one, and `--to M` or `--to=M`, in any order, each at most once.
/// N and M are decimal digits of a number below 2 ^ 64, without a sign and without a zero before others. All other words ask for nothing,
/// `--help` too, and so does a list with a word that is exactly `--`. This is the project's own.
///
/// Takes memory for the options, which `clap` reads, of words that can be those of two options; where there is none:
/// `NoMemory`.
pub fn asked_of(alloc: Global, words: &[String]) -> Result<Option<Asked>, NoMemory>
    ensures some { IfOk result (λ found. IfSome found (IsAsked (map string_bytes words.now))) }
    ensures none { IfOk result (λ found. IfNone found (AsksNothing (map string_bytes words.now))) }
    ensures no_memory { IfErr result (λ _. CanBeOptions (map string_bytes words.now)) }
{
    match texts_of(alloc, words)? {
        Some(texts) => Ok(said_by(&texts)),
        None => Ok(None),
    }
}
