//! Sets of processors.

ghost use Rattle.std.specs.Prelude.{◌≡◌};
ghost use Rattle.std.specs.List.{list_all};
ghost use Rattle.hp_text.specs.Numbers.{is_number as is_number_at};
ghost use Rattle.hp_text.specs.Sets.{out_of_range as out_of_range_at, set as set_at};

use crate::numbers::{is_number, number_from};
use crate::unread::Unread;
use crate::words::Words;
use hp_model::put_number;
use hp_states::{CpuSet, MAX_CPU_SET};

/// Whether the words are numbers.
fn are_numbers<'a, W: Words<'a>>(words: &mut W) -> bool
    ensures { result ≡ list_all is_number_at (W.left words.old) }
{
    while let Some(word) = words.next_word() {
        if !is_number(word) {
            return false;
        }
    }
    true
}

/// Why words say nothing behind a number that is out of its range: these may not be numbers.
pub fn out_of_range<'a, W: Words<'a>>(words: &mut W) -> Unread
    ensures { result ≡ out_of_range_at (W.left words.old) }
{
    if are_numbers(words) {
        Unread::OutOfRange
    } else {
        Unread::NotOfForm
    }
}

/// The set of the processors that the words name: one or more, from 0 to 255, each above the one
/// before it.
pub fn set<'a, W: Words<'a>>(words: &mut W) -> Result<CpuSet, Unread>
    ensures { result ≡ set_at (W.left words.old) }
{
    let mut set = CpuSet::none();
    let mut low = 0;
    while let Some(word) = words.next_word() {
        match number_from(low, MAX_CPU_SET as u64, word) {
            Ok(cpu) => {
                put_number(&mut set, cpu);
                low = cpu + 1;
            }
            Err(Unread::NotOfForm) => return Err(Unread::NotOfForm),
            Err(Unread::OutOfRange) => return Err(out_of_range(words)),
        }
    }
    if low == 0 {
        return Err(Unread::NotOfForm);
    }
    Ok(set)
}
