//! What the next word of a line says.

ghost use Rattle.std.specs.Prelude.{◌≡◌, IsSome};
ghost use Rattle.hp_trace.specs.Pieces.{others_of};
ghost use Rattle.hp_trace.specs.Readers.{first_says, exactly, bare as bare_of, padded as padded_at, number as number_at, integer as integer_at, done as done_at};

use crate::pieces::Words;
use hp_text::{integer, number};

/// A word without the zeros that stand in front of another byte.
fn bare(word: &[u8]) -> &[u8]
    ensures { result.now ≡ bare_of word.now }
{
    let mut rest = word;
    while let [b'0', others @ ..] = rest {
        if others.is_empty() {
            break;
        }
        rest = others;
    }
    rest
}

/// The number that a word says, which may have zeros in front.
pub fn padded(word: &[u8]) -> Option<u32>
    ensures { result ≡ padded_at word.now }
{
    number(bare(word)).ok()
}

impl<'a> Words<'a> {
    /// Takes the next word, where it is this one.
    pub fn exactly(&mut self, text: &[u8]) -> Option<()>
        ensures said { result ≡ first_says (exactly text.now) self.old }
        ensures rest { IsSome result → self.new ≡ others_of self.old }
    {
        if self.next()? == text { Some(()) } else { None }
    }

    /// Takes the next word, where it is a number that may have zeros in front.
    pub fn padded(&mut self) -> Option<u32>
        ensures said { result ≡ first_says padded_at self.old }
        ensures rest { IsSome result → self.new ≡ others_of self.old }
    {
        padded(self.next()?)
    }

    /// Takes the next word, where it is a number.
    pub fn number(&mut self) -> Option<u32>
        ensures said { result ≡ first_says number_at self.old }
        ensures rest { IsSome result → self.new ≡ others_of self.old }
    {
        number(self.next()?).ok()
    }

    /// Takes the next word, where it is a signed number.
    pub fn integer(&mut self) -> Option<i32>
        ensures said { result ≡ first_says integer_at self.old }
        ensures rest { IsSome result → self.new ≡ others_of self.old }
    {
        integer(self.next()?).ok()
    }

    /// The value that is given, where no word is left.
    pub fn done<T: Copy>(&mut self, value: T) -> Option<T>
        ensures { result ≡ done_at value self.old }
    {
        match self.next() {
            None => Some(value),
            Some(_) => None,
        }
    }
}
