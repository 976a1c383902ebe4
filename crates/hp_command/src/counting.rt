//! The numbers of a count.

ghost use Rattle.std.specs.Prelude.{◌≤◌, ◌<◌, ◌^◌, IfSome, IfNone, map, string_bytes};
ghost use Rattle.hp_command.specs.Counting.{SaysUpTo, SaysNoneUpTo, AreCounting, AreNoCounting};

use crate::number::number_of;
use hp_pcount::{LAST_FOLLOWED, MAX_BATCH};

/// What is counted of a journal: for how long a state was in force, by counters with a batch.
#[derive(Clone, Copy, Debug, PartialEq, Eq)]
pub struct Counting {
    /// The state, from 1 to `LAST_FOLLOWED`.
    pub state: u32,
    /// The batch, from 1 to `MAX_BATCH`.
    pub batch: u32,
}

/// The number that a word says, if that is one from 1 to the most.
fn number_up_to(word: &str, most: u32) -> Option<u32>
    ensures some { IfSome result (SaysUpTo most word.now) }
    ensures none { IfNone result (SaysNoneUpTo most word.now) }
{
    let number = number_of(word)?;
    if number == 0 || number > u64::from(most) {
        return None;
    }
    Some(number as u32)
}

/// The numbers of a count that the words are, if they are that.
pub fn counting_of(words: &[String]) -> Option<Counting>
    ensures some { IfSome result (AreCounting (map string_bytes words.now)) }
    ensures none { IfNone result (AreNoCounting (map string_bytes words.now)) }
{
    if words.len() != 2 {
        return None;
    }
    let state = number_up_to(words[0].as_str(), LAST_FOLLOWED)?;
    let batch = number_up_to(words[1].as_str(), MAX_BATCH)?;
    Some(Counting { state, batch })
}
