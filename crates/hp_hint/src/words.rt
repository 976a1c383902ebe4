//! The words of a line, and its bytes that no line may have.

ghost use Rattle.std.specs.Prelude.{◌≡◌, option_map};
ghost use Rattle.hp_script.specs.Pieces.{next};
ghost use Rattle.hp_script.specs.Words.{words};

use crate::piece::next_piece;
use hp_text::Words;
use std::marker::Model;

/// The first word, and the bytes behind it.
fn first_word(bytes: &[u8]) -> Option<(&[u8], &[u8])>
    ensures { option_map (λ x. (x.0.now, words x.1.now)) result ≡ next (words bytes.now) }
{
    for (i, byte) in bytes.iter().enumerate() {
        if *byte != b' ' {
            return next_piece(b' ', &bytes[i..]);
        }
    }
    None
}

/// The words of a line that are left to be read. Contracts see the list of them.
#[derive(Drop)]
pub struct LineWords<'a> {
    left: &'a [u8],
}

impl<'a> Model for LineWords<'a> {
    ghost use Rattle.std.specs.Prelude.{ℕ, List};

    ghost Value = { List (List ℕ) };

    ghost use Rattle.hp_script.specs.Words.{words};

    ghost view = { λ w. words w.left.now };
}

impl<'a> LineWords<'a> {
    /// The words of a line. Takes no memory.
    pub fn of(line: &'a [u8]) -> LineWords<'a>
        ensures { result ≡ words line.now }
    {
        LineWords { left: line }
    }
}

impl<'a> Words<'a> for LineWords<'a> {
    ghost left = { λ w. w };

    fn next_word(&mut self) -> Option<&'a [u8]> {
        let (word, rest) = first_word(self.left)?;
        self.left = rest;
        Some(word)
    }
}
