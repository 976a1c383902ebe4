//! The words of a line, one after another.

ghost use Rattle.std.specs.Prelude.{◌≡◌, ◌↔◌, [], ◌∷◌, ℕ, List, false, IsTrue, IsSome, IfSome, IfNone, Some, codes, option_map};
ghost use Rattle.hp_model.specs.Lists.{is_empty};
ghost use Rattle.hp_text.specs.Choices.{dir_of as dir_at};
ghost use Rattle.hp_replay.specs.WordsLeft.{first_of, others_of, first_says, pieces, BeginNoCall};
ghost use Rattle.hp_replay.specs.Numbers.{number as number_at};
ghost use Rattle.hp_replay.specs.Readers.{done as done_at};

use hp_states::Dir;
use hp_text::{dir_of, number};
use std::marker::Model;

/// The words of a line that are left to be read. Contracts see the list of them.
#[derive(Drop)]
pub struct Words<'a> {
    left: Option<&'a [u8]>,
}

impl<'a> Model for Words<'a> {
    ghost use Rattle.std.specs.Prelude.{ℕ, List};

    ghost Value = { List (List ℕ) };

    ghost use Rattle.std.specs.List.{slice_split};
    ghost use Rattle.hp_model.specs.Lists.{is_empty};
    ghost use Rattle.hp_replay.specs.WordsLeft.{words_left};

    ghost view = { λ w. words_left w.left };
}

/// The number that the first word of a text says, and what stands behind the space that ends it, where
/// that word is one digit.
fn behind_digit(text: &[u8]) -> Option<(u32, &[u8])>
    ensures said { IfSome result (λ r. Some r.0 ≡ first_says number_at (pieces text.now)) }
    ensures rest { IfSome result (λ r. pieces r.1.now ≡ others_of (pieces text.now)) }
{
    match text {
        [digit, b' ', others @ ..] if digit.is_ascii_digit() => {
            Some(((*digit - b'0') as u32, others))
        }
        _ => None,
    }
}

/// The number that the first word of a text says, and what stands behind the space that ends it, where
/// that word is two or three digits, of which the first isn't 0.
#[inline(always)]
fn behind_digits(text: &[u8]) -> Option<(u32, &[u8])>
    ensures said { IfSome result (λ r. Some r.0 ≡ first_says number_at (pieces text.now)) }
    ensures rest { IfSome result (λ r. pieces r.1.now ≡ others_of (pieces text.now)) }
{
    match text {
        [tens @ b'1'..=b'9', ones @ b'0'..=b'9', b' ', others @ ..] => {
            let number = (*tens - b'0') as u32 * 10 + (*ones - b'0') as u32;
            Some((number, others))
        }
        [
            hundreds @ b'1'..=b'9',
            tens @ b'0'..=b'9',
            ones @ b'0'..=b'9',
            b' ',
            others @ ..,
        ] => {
            let number = (*hundreds - b'0') as u32 * 100
                + (*tens - b'0') as u32 * 10
                + (*ones - b'0') as u32;
            Some((number, others))
        }
        _ => None,
    }
}

/// The number that the first word of a text says, and what stands behind the space that ends it, where
/// that word is one to three digits. Most numbers are.
#[inline(always)]
fn behind_short_number(text: &[u8]) -> Option<(u32, &[u8])>
    ensures said { IfSome result (λ r. Some r.0 ≡ first_says number_at (pieces text.now)) }
    ensures rest { IfSome result (λ r. pieces r.1.now ≡ others_of (pieces text.now)) }
{
    match behind_digit(text) {
        Some(said) => Some(said),
        None => behind_digits(text),
    }
}

/// The direction that the first word of a text says, and what stands behind the space that ends it, where
/// it says one and a space does.
#[inline(always)]
#[tactic(auto, unfolding(hp_text::specs::Choices::dir_of))]
fn behind_dir(text: &[u8]) -> Option<(Dir, &[u8])>
    ensures said { IfSome result (λ r. Some r.0 ≡ first_says dir_at (pieces text.now)) }
    ensures rest { IfSome result (λ r. pieces r.1.now ≡ others_of (pieces text.now)) }
{
    match text {
        [b'u', b'p', b' ', others @ ..] => Some((Dir::Up, others)),
        [b'd', b'o', b'w', b'n', b' ', others @ ..] => Some((Dir::Down, others)),
        _ => None,
    }
}

/// What stands behind the first word of a text and the space that ends it, where that word is `call` and
/// a space ends it.
#[inline(always)]
fn behind_call(text: &[u8]) -> Option<&[u8]>
    ensures some { IfSome result (λ others. pieces text.now ≡ codes "call" ∷ pieces others.now) }
    ensures none { IfNone result (BeginNoCall (pieces text.now)) }
{
    text.strip_prefix(b"call ")
}

impl<'a> hp_text::Words<'a> for Words<'a> {
    ghost left = { λ w. w };

    fn next_word(&mut self) -> Option<&'a [u8]> {
        self.next()
    }
}

impl<'a> Words<'a> {
    /// The pieces between the spaces of a text.
    pub fn of(text: &'a [u8]) -> Words<'a>
        ensures { result ≡ pieces text.now }
    {
        Words { left: Some(text) }
    }

    /// The next word, which is then no longer left. None where no word is left.
    #[inline(always)]
    pub fn next(&mut self) -> Option<&'a [u8]>
        ensures word { option_map (λ w. w.now) result ≡ first_of self.old }
        ensures rest { self.new ≡ others_of self.old }
    {
        let bytes = self.left?;
        for (i, byte) in bytes.iter().enumerate() {
            if *byte == b' ' {
                self.left = Some(&bytes[i + 1..]);
                return Some(&bytes[..i]);
            }
        }
        self.left = None;
        Some(bytes)
    }

    /// The number of the type `u32` that the next word says, which is then no longer left. None where it
    /// says none, or where no word is left.
    #[inline(always)]
    pub fn number(&mut self) -> Option<u32>
        ensures said { result ≡ first_says number_at self.old }
        ensures rest { IsSome result → self.new ≡ others_of self.old }
    {
        match behind_short_number(self.left?) {
            Some((number, others)) => {
                self.left = Some(others);
                Some(number)
            }
            None => self.long_number(),
        }
    }

    /// The number that the next word says, however many digits it has.
    #[inline(never)]
    fn long_number(&mut self) -> Option<u32>
        ensures said { result ≡ first_says number_at self.old }
        ensures rest { IsSome result → self.new ≡ others_of self.old }
    {
        number(self.next()?).ok()
    }

    /// The direction that the next word says, which is then no longer left. None where it says none, or
    /// where no word is left.
    #[inline(always)]
    pub fn dir(&mut self) -> Option<Dir>
        ensures said { result ≡ first_says dir_at self.old }
        ensures rest { IsSome result → self.new ≡ others_of self.old }
    {
        match behind_dir(self.left?) {
            Some((dir, others)) => {
                self.left = Some(others);
                Some(dir)
            }
            None => self.any_dir(),
        }
    }

    /// The direction that the next word says, whether or not a word follows.
    #[inline(never)]
    fn any_dir(&mut self) -> Option<Dir>
        ensures said { result ≡ first_says dir_at self.old }
        ensures rest { IsSome result → self.new ≡ others_of self.old }
    {
        dir_of(self.next()?)
    }

    /// Takes the next word where it is `call` and words follow, and answers whether it did.
    pub fn takes_call(&mut self) -> bool
        ensures taken { IsTrue result → self.old ≡ codes "call" ∷ self.new }
        ensures kept { result ≡ false → self.new ≡ self.old }
        ensures none { result ≡ false → BeginNoCall self.old }
    {
        let Some(text) = self.left else {
            return false;
        };
        match behind_call(text) {
            Some(others) => {
                self.left = Some(others);
                true
            }
            None => false,
        }
    }

    /// Whether `ok` is all that is left.
    pub fn are_ok(&self) -> bool
        ensures { IsTrue result ↔ (self.now ≡ codes "ok" ∷ []) }
    {
        matches!(self.left, Some(b"ok"))
    }

    /// The value that is given, where no word is left.
    pub fn done<T: Copy>(&self, value: T) -> Option<T>
        ensures { result ≡ done_at value self.now }
    {
        match self.left {
            None => Some(value),
            Some(_) => None,
        }
    }

    /// Whether no word is left.
    pub fn is_done(&self) -> bool
        ensures { result ≡ is_empty self.now }
    {
        match self.left {
            None => true,
            Some(_) => false,
        }
    }
}
