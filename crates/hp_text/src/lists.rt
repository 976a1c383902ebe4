//! Lists of numbers.

ghost use Rattle.std.specs.Prelude.{◌≡◌, ◌∷◌, IfOk};
ghost use Rattle.hp_text.specs.Numbers.{number as number_at};
ghost use Rattle.hp_text.specs.Readings.{each};
ghost use Rattle.hp_text.specs.Lists.{number_list as number_list_at, number_list_or_dash as number_list_or_dash_at};
ghost use Rattle.hp_text.specs.Sets.{rise_from};

use crate::numbers::number;
use crate::set::out_of_range;
use crate::unread::Unread;
use crate::words::Words;
use hp_event::Numbers;
use hp_states::NoMemory;
use std::alloc::Global;

/// The numbers that a word and those behind it say.
fn numbers_from<'a, W: Words<'a>>(
    alloc: Global,
    first: &'a [u8],
    words: &mut W,
) -> Result<Result<Numbers, Unread>, NoMemory>
    ensures { IfOk result (λ r. r ≡ each number_at (first.now ∷ W.left words.old)) }
{
    let mut numbers = Numbers::new(alloc);
    let mut next = Some(first);
    while let Some(word) = next {
        match number(word) {
            Ok(n) => numbers.push(n)?,
            Err(Unread::NotOfForm) => return Ok(Err(Unread::NotOfForm)),
            Err(Unread::OutOfRange) => return Ok(Err(out_of_range(words))),
        }
        next = words.next_word();
    }
    Ok(Ok(numbers))
}

/// The numbers that the words say which are left: one or more.
///
/// - `NotOfForm` where there is none, or one of them is no number.
/// - `OutOfRange` where all are numbers, and one isn't of the type `u32`.
///
/// There is no condition. Takes memory for the numbers; where there is none: `NoMemory`. This
/// project's own.
pub fn number_list<'a, W: Words<'a>>(
    alloc: Global,
    words: &mut W,
) -> Result<Result<Numbers, Unread>, NoMemory>
    ensures { IfOk result (λ r. r ≡ number_list_at (W.left words.old)) }
{
    match words.next_word() {
        Some(first) => numbers_from(alloc, first, words),
        None => Ok(Err(Unread::NotOfForm)),
    }
}

/// The numbers that the words say which are left, and none for a dash alone. Else as `number_list`.
#[tactic(auto, unfolding(crate::specs::Lists::number_list_or_dash))]
pub fn number_list_or_dash<'a, W: Words<'a>>(
    alloc: Global,
    words: &mut W,
) -> Result<Result<Numbers, Unread>, NoMemory>
    ensures { IfOk result (λ r. r ≡ number_list_or_dash_at (W.left words.old)) }
{
    let Some(first) = words.next_word() else {
        return Ok(Err(Unread::NotOfForm));
    };
    if first == b"-".as_slice() {
        return match words.next_word() {
            None => Ok(Ok(Numbers::new(alloc))),
            Some(_) => Ok(Err(Unread::NotOfForm)),
        };
    }
    numbers_from(alloc, first, words)
}

/// Whether numbers rise: the first from `low` on, each above the one before it, and all below a
/// limit.
///
/// There is no condition. Takes no memory, and time for the numbers. This project's own.
pub fn rise_from(low: u32, limit: u32, numbers: &[u32]) -> bool
    ensures { result ≡ rise_from low limit numbers.now }
{
    let mut low = low;
    for n in numbers {
        if !(low <= *n && *n < limit) {
            return false;
        }
        low = *n + 1;
    }
    true
}
