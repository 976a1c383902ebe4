//! The number that an `end` line says.

ghost use Rattle.std.specs.Prelude.{◌≡◌, option_map};
ghost use Rattle.hp_replay.specs.Numbers.{fitting};
ghost use Rattle.hp_replay.specs.EndAt.{any_number as any_number_at, end_tail, end_at};

use crate::line::Line;
use crate::words::Words;
use hp_text::{Unread, number};

/// The number that a word says, and no number where it is past the type `u32`. None where the word
/// is no number.
#[tactic(auto, unfolding(crate::specs::EndAt::any_number, hp_text::specs::Numbers::number_below))]
fn any_number(word: &[u8]) -> Option<Option<u32>>
    ensures { result ≡ option_map fitting (any_number_at word.now) }
{
    match number(word) {
        Ok(n) => Some(Some(n)),
        Err(Unread::OutOfRange) => Some(None),
        Err(Unread::NotOfForm) => None,
    }
}

/// The words behind `end`.
fn count(words: &mut Words<'_>) -> Option<Option<u32>>
    ensures { result ≡ option_map fitting (end_tail words.old) }
{
    let count = any_number(words.next()?)?;
    words.done(count)
}

/// The number of events that an `end` line says, and no number where it is past the type `u32`. None
/// where the line is no `end` line.
#[tactic(auto, unfolding(crate::specs::EndAt::end_at))]
pub fn end_of_line(line: &Line<'_>) -> Option<Option<u32>>
    ensures { result ≡ option_map fitting (end_at line.now.bytes.now) }
{
    let mut words = line.words()?;
    if words.next()? == b"end".as_slice() {
        return count(&mut words);
    }
    None
}
