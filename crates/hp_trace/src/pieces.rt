//! Bytes parted by a separator: a text into its lines, a line into its words.

ghost use Rattle.std.specs.Prelude.{◌≡◌, List, ℕ, option_map};
ghost use Rattle.hp_trace.specs.Pieces.{first_of, others_of, is_none_left, pieces, words_of};

use memchr::memchr;
use std::marker::Model;

/// The pieces between the separators of some bytes, as far as they are left to be read. Contracts see the list of them.
#[derive(Drop)]
pub struct Pieces<'a> {
    left: Option<&'a [u8]>,
    by: u8,
}

impl<'a> Model for Pieces<'a> {
    ghost use Rattle.std.specs.Prelude.{ℕ, List};

    ghost Value = { List (List ℕ) };

    ghost use Rattle.hp_trace.specs.Pieces.{pieces_left};

    ghost view = { λ p. pieces_left p.by p.left };
}

impl<'a> Pieces<'a> {
    /// The pieces between the separators of some bytes: one more than there are separators.
    pub fn of(bytes: &'a [u8], by: u8) -> Pieces<'a>
        ensures { result ≡ pieces by bytes.now }
    {
        Pieces {
            left: Some(bytes),
            by,
        }
    }

    /// The next piece, which is then no longer left. None where none is left.
    pub fn next(&mut self) -> Option<&'a [u8]>
        ensures piece { option_map (λ w. w.now) result ≡ first_of self.old }
        ensures rest { self.new ≡ others_of self.old }
    {
        let bytes = self.left?;
        match memchr(self.by, bytes) {
            Some(at) => {
                self.left = Some(&bytes[at + 1..]);
                Some(&bytes[..at])
            }
            None => {
                self.left = None;
                Some(bytes)
            }
        }
    }

    /// The pieces that are left, to look ahead.
    pub fn ahead(&self) -> Pieces<'a>
        ensures { result ≡ self.now }
    {
        Pieces {
            left: self.left,
            by: self.by,
        }
    }

    /// Whether no piece is left.
    pub fn is_done(&self) -> bool
        ensures { result ≡ is_none_left self.now }
    {
        match self.left {
            None => true,
            Some(_) => false,
        }
    }
}

/// The words of a line that are left to be read: the pieces between its spaces that aren't empty. Contracts see the list
/// of them.
#[derive(Drop)]
pub struct Words<'a> {
    pieces: Pieces<'a>,
}

impl<'a> Model for Words<'a> {
    ghost use Rattle.std.specs.Prelude.{ℕ, List};

    ghost Value = { List (List ℕ) };

    ghost use Rattle.hp_trace.specs.Pieces.{that_say};

    ghost view = { λ w. that_say w.pieces };
}

impl<'a> Words<'a> {
    /// The words of a line.
    pub fn of(line: &'a [u8]) -> Words<'a>
        ensures { result ≡ words_of line.now }
    {
        Words {
            pieces: Pieces::of(line, b' '),
        }
    }

    /// The words that are left, to look ahead.
    pub fn ahead(&self) -> Words<'a>
        ensures { result ≡ self.now }
    {
        Words {
            pieces: self.pieces.ahead(),
        }
    }

    /// The next word, which is then no longer left. None where no word is left.
    pub fn next(&mut self) -> Option<&'a [u8]>
        ensures word { option_map (λ w. w.now) result ≡ first_of self.old }
        ensures rest { self.new ≡ others_of self.old }
    {
        while let Some(piece) = self.pieces.next() {
            if !piece.is_empty() {
                return Some(piece);
            }
        }
        None
    }
}
