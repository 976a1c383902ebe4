//! The options of a command, as numbers.

ghost use Rattle.std.specs.Prelude.{IfOk, IfErr, IfSome, IfNone, map, string_bytes};
ghost use Rattle.std.specs.Option.{option_copied};
ghost use Rattle.hp_command.specs.Options.{AreNoOptions, AreOptions, CanBeOptions, Says, SaysNoNumber};
ghost use Rattle.hp_command.specs.TextsFound.{SayNoOptions, SayOptions};

use crate::number::number_of;
use crate::texts::{Texts, texts_of};
use hp_states::{MAX_GENERATED_SIZE, NoMemory};
use std::alloc::Global;

/// The seed where none is given.
const DEFAULT_SEED: u64 = 1;
/// The size where none is given.
const DEFAULT_SIZE: u64 = 100;

/// The seed and the size of a generated script.
#[derive(Clone, Copy, Debug, PartialEq, Eq)]
pub struct Options {
    /// The seed that they are drawn from, any number of the type.
    pub seed: u64,
    /// How many operations each actor of the script draws, from 1 to `MAX_GENERATED_SIZE`.
    pub size: u32,
}

/// The number that a text says, and the default where there is no text.
fn value_of(text: Option<&str>, default: u64) -> Option<u64>
    ensures some { IfSome result (Says default (option_copied text.entry)) }
    ensures none { IfNone result (SaysNoNumber default (option_copied text.entry)) }
{
    match text {
        None => Some(default),
        Some(text) => number_of(text),
    }
}

/// The options that the texts say, if both say a number in its range.
fn said_by(texts: &Texts<'_>) -> Option<Options>
    ensures some { IfSome result (SayOptions texts.now) }
    ensures none { IfNone result (SayNoOptions texts.now) }
{
    let seed = value_of(texts.seed, DEFAULT_SEED)?;
    let size = value_of(texts.size, DEFAULT_SIZE)?;
    if size == 0 || size > MAX_GENERATED_SIZE as u64 {
        return None;
    }
    Some(Options {
        seed,
        size: size as u32,
    })
}

/// The options that the words are, if they are options. Takes memory for what `clap` keeps, of words
/// that can be options; where there is none: `NoMemory`.
pub fn options_of(alloc: Global, words: &[String]) -> Result<Option<Options>, NoMemory>
    ensures some { IfOk result (λ found. IfSome found (AreOptions (map string_bytes words.now))) }
    ensures none { IfOk result (λ found. IfNone found (AreNoOptions (map string_bytes words.now))) }
    ensures no_memory { IfErr result (λ _. CanBeOptions (map string_bytes words.now)) }
{
    match texts_of(alloc, words)? {
        Some(texts) => Ok(said_by(&texts)),
        None => Ok(None),
    }
}
