//! The texts of the options, before they are read as numbers.

ghost use Rattle.std.specs.Prelude.{map, string_bytes, IfOk, IfErr, IfSome, IfNone};
ghost use Rattle.hp_command.specs.Options.{CanBeOptions};
ghost use Rattle.hp_view.specs.Options.{HaveNoPlainTexts};
ghost use Rattle.hp_view.specs.TextsFound.{AreTextsIn};

use clap::error::ErrorKind;
use clap::{Arg, Command};
use hp_command::can_be_options;
use hp_states::NoMemory;
use std::alloc::Global;

/// The texts that stand for the values of the options, each where the option is given.
#[derive(Clone, Copy)]
pub struct Texts<'a> {
    /// The text of `--from`.
    pub start: Option<&'a str>,
    /// The text of `--to`.
    pub stop: Option<&'a str>,
}

/// The texts of the options, where the words are those of the two options.
///
/// A word that is exactly `--` is refused here, since `clap` would end the options at it, and so are
/// more than four words. A text that is a word of its own and begins with a dash may be refused: no
/// number does. Takes memory for what `clap` keeps, of words that can be those of two options; where
/// there is none: `NoMemory`.
pub fn texts_of(alloc: Global, words: &[String]) -> Result<Option<Texts<'_>>, NoMemory>
    ensures some { IfOk result (λ found. IfSome found (AreTextsIn (map string_bytes words.now))) }
    ensures none { IfOk result (λ found. IfNone found (HaveNoPlainTexts (map string_bytes words.now))) }
    ensures no_memory { IfErr result (λ _. CanBeOptions (map string_bytes words.now)) }
{
    if !can_be_options(words) {
        return Ok(None);
    }
    let parser = Command::new(alloc, "hpview")
        .no_binary_name(true)
        .disable_help_flag(true)
        .arg(Arg::new(alloc, "from").long("from"))?
        .arg(Arg::new(alloc, "to").long("to"))?;
    match parser.try_get_matches_from(words) {
        Ok(matches) => Ok(Some(Texts {
            start: matches.get_str("from"),
            stop: matches.get_str("to"),
        })),
        Err(error) => match error.kind() {
            ErrorKind::OutOfMemory => Err(NoMemory),
            _ => Ok(None),
        },
    }
}
