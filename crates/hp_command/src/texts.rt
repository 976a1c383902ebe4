//! The texts of the options, before they are read as numbers.

ghost use Rattle.std.specs.Prelude.{◌≡◌, ◌↔◌, map, string_bytes, codes, IsTrue, IfOk, IfErr, IfSome, IfNone};
ghost use Rattle.std.specs.List.{list_any};
ghost use Rattle.std.specs.Str.{bytes_eq};
ghost use Rattle.hp_command.specs.Options.{CanBeOptions, HaveNoPlainTexts};
ghost use Rattle.hp_command.specs.TextsFound.{AreTextsIn};

use clap::error::ErrorKind;
use clap::{Arg, Command};
use hp_states::NoMemory;
use std::alloc::Global;

/// Whether a word is exactly `--`.
fn ends_options(words: &[String]) -> bool
    ensures { result ≡ list_any (λ word. bytes_eq word (codes "--")) (map string_bytes words.now) }
{
    words.iter().any(|word| word.as_str() == "--")
}

/// Whether the words can be those of two options: there are at most four, and none is exactly `--`.
///
/// Takes no memory.
pub fn can_be_options(words: &[String]) -> bool
    ensures { IsTrue result ↔ CanBeOptions (map string_bytes words.now) }
{
    words.len() <= 4 && !ends_options(words)
}

/// The texts that stand for the values of the options, each where the option is given.
#[derive(Clone, Copy)]
pub struct Texts<'a> {
    /// The text of `--seed`.
    pub seed: Option<&'a str>,
    /// The text of `--size`.
    pub size: Option<&'a str>,
}

/// The texts of the options, where the words are those of the two options.
///
/// A word that is exactly `--` is refused here, since `clap` would end the options at it, and so are
/// more than four words. A text that is a word of its own and begins with a dash may be refused: no
/// number does. Takes memory for what `clap` keeps, of words that can be those of two options; where
/// there is none: `NoMemory`.
pub fn texts_of(alloc: Global, words: &[String]) -> Result<Option<Texts<'_>>, NoMemory>
    ensures some { IfOk result (λ found. IfSome found (AreTextsIn (map string_bytes words.now))) }
    ensures none { IfOk result (λ found. IfNone found (HaveNoPlainTexts (map string_bytes words.now))) }
    ensures no_memory { IfErr result (λ _. CanBeOptions (map string_bytes words.now)) }
{
    if !can_be_options(words) {
        return Ok(None);
    }
    let parser = Command::new(alloc, "hp")
        .no_binary_name(true)
        .disable_help_flag(true)
        .arg(Arg::new(alloc, "seed").long("seed"))?
        .arg(Arg::new(alloc, "size").long("size"))?;
    match parser.try_get_matches_from(words) {
        Ok(matches) => Ok(Some(Texts {
            seed: matches.get_str("seed"),
            size: matches.get_str("size"),
        })),
        Err(error) => match error.kind() {
            ErrorKind::OutOfMemory => Err(NoMemory),
            _ => Ok(None),
        },
    }
}
