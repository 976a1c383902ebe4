//! All the words that are left, where they are one of a few forms: nothing, a number, numbers and
//! flags.

ghost use Rattle.std.specs.Prelude.{◌≡◌};
ghost use Rattle.hp_text.specs.Numbers.{number as number_at, integer as integer_at};
ghost use Rattle.hp_text.specs.Readings.{both as both_at, done as done_at, alone, in_front};
ghost use Rattle.hp_text.specs.Flags.{form as form_at};

use crate::flags::form;
use crate::numbers::{integer, number};
use crate::unread::Unread;
use crate::words::Words;
use hp_event::Form;

/// What two readings say together: the form of both comes before the range of either.
///
/// Takes no memory. This project's own.
#[inline(always)]
pub fn both<A: Copy, B: Copy>(
    first: Result<A, Unread>,
    second: Result<B, Unread>,
) -> Result<(A, B), Unread>
    ensures { result ≡ both_at first second }
{
    match (first, second) {
        (Ok(a), Ok(b)) => Ok((a, b)),
        (Ok(_), Err(unread)) => Err(unread),
        (Err(Unread::OutOfRange), Err(unread)) => Err(unread),
        (Err(unread), _) => Err(unread),
    }
}

/// This value, where no word is left.
#[inline(always)]
pub fn done<'a, W: Words<'a>, T: Copy>(words: &mut W, value: T) -> Result<T, Unread>
    ensures { result ≡ done_at value (W.left words.old) }
{
    match words.next_word() {
        None => Ok(value),
        Some(_) => Err(Unread::NotOfForm),
    }
}

/// One number.
#[inline(always)]
pub fn number_alone<'a, W: Words<'a>>(words: &mut W) -> Result<u32, Unread>
    ensures { result ≡ alone number_at (W.left words.old) }
{
    let Some(word) = words.next_word() else {
        return Err(Unread::NotOfForm);
    };
    done(words, ())?;
    number(word)
}

/// One signed number.
#[inline(always)]
pub fn integer_alone<'a, W: Words<'a>>(words: &mut W) -> Result<i32, Unread>
    ensures { result ≡ alone integer_at (W.left words.old) }
{
    let Some(word) = words.next_word() else {
        return Err(Unread::NotOfForm);
    };
    done(words, ())?;
    integer(word)
}

/// A number and a signed one.
#[inline(always)]
pub fn number_and_integer<'a, W: Words<'a>>(words: &mut W) -> Result<(u32, i32), Unread>
    ensures { result ≡ in_front number_at (alone integer_at) (W.left words.old) }
{
    let Some(first) = words.next_word() else {
        return Err(Unread::NotOfForm);
    };
    let second = integer_alone(words);
    both(number(first), second)
}

/// A number and flags.
#[inline(always)]
pub fn number_and_form<'a, W: Words<'a>>(words: &mut W) -> Result<(u32, Form), Unread>
    ensures { result ≡ in_front number_at form_at (W.left words.old) }
{
    let Some(first) = words.next_word() else {
        return Err(Unread::NotOfForm);
    };
    let form = form(words);
    both(number(first), form)
}

/// Two numbers and flags.
#[inline(always)]
pub fn numbers_and_form<'a, W: Words<'a>>(words: &mut W) -> Result<(u32, (u32, Form)), Unread>
    ensures { result ≡ in_front number_at (in_front number_at form_at) (W.left words.old) }
{
    let Some(first) = words.next_word() else {
        return Err(Unread::NotOfForm);
    };
    let others = number_and_form(words);
    both(number(first), others)
}
