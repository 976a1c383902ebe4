//! How far words are numbers that rise.

ghost use Rattle.std.specs.Prelude.{◌≡◌, ◌<◌, ◌≤◌};
ghost use Rattle.hp_hint.specs.Forms.{IsGood, AreFew, risen};

use crate::measure::Measure;
use hp_text::{Words, number_from};

/// How many of the words go on to numbers of which the first is at least as high as `low`, each is above the one before it, and
/// all are below a limit.
///
/// There is such a number, and the words are as few as those of a line. Takes no memory.
pub fn good_above<'a, W: Words<'a>>(low: u32, limit: u32, words: &mut W) -> usize
    requires few { AreFew (W.left words.old) }
    requires low { low ≤ 1 }
    requires some { 1 < limit }
    ensures { IsGood (risen (Measure.Ranges 0) low limit) (W.left words.old) result }
{
    let mut good: usize = 0;
    let mut low = low;
    while let Some(word) = words.next_word() {
        match number_from(low, u64::from(limit), word) {
            Ok(n) => low = n + 1,
            Err(_) => return good,
        }
        good += 1;
    }
    good
}
