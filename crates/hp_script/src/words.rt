//! Pieces and words, as slices of the bytes.
//!
//! No reader takes memory, and each looks at a byte a few times at most.

ghost use Rattle.std.specs.Prelude.{◌≡◌, ◌<◌, length, IfSome, option_map};
ghost use Rattle.hp_script.specs.Pieces.{next, pieces};
ghost use Rattle.hp_script.specs.Words.{words, is_bad_byte, has_bad_byte, is_comment};

use hp_text::Words;
use std::marker::Model;

/// The piece before the first byte `end`, or all where there is none, and the bytes behind that
/// byte. Nothing where there are no bytes.
pub fn next_piece(end: u8, bytes: &[u8]) -> Option<(&[u8], &[u8])>
    ensures piece { option_map (λ x. (x.0.now, pieces end x.1.now)) result
        ≡ next (pieces end bytes.now) }
    ensures shorter { IfSome result (λ x. length x.1.now < length bytes.now) }
{
    if bytes.is_empty() {
        return None;
    }
    for (i, byte) in bytes.iter().enumerate() {
        if *byte == end {
            return Some((&bytes[..i], &bytes[i + 1..]));
        }
    }
    Some((bytes, &[]))
}

/// The first word, and the bytes behind it.
fn first_word(bytes: &[u8]) -> Option<(&[u8], &[u8])>
    ensures { option_map (λ x. (x.0.now, words x.1.now)) result ≡ next (words bytes.now) }
{
    for (i, byte) in bytes.iter().enumerate() {
        if *byte != b' ' {
            return next_piece(b' ', &bytes[i..]);
        }
    }
    None
}

/// The words of a line that are left to be read. Contracts see the list of them.
#[derive(Drop)]
pub struct LineWords<'a> {
    left: &'a [u8],
}

impl<'a> Model for LineWords<'a> {
    ghost use Rattle.std.specs.Prelude.{ℕ, List};

    ghost Value = { List (List ℕ) };

    ghost use Rattle.hp_script.specs.Words.{words};

    ghost view = { λ w. words w.left.now };
}

impl<'a> LineWords<'a> {
    /// The words of a line.
    pub fn of(line: &'a [u8]) -> LineWords<'a>
        ensures { result ≡ words line.now }
    {
        LineWords { left: line }
    }
}

impl<'a> Words<'a> for LineWords<'a> {
    ghost left = { λ w. w };

    fn next_word(&mut self) -> Option<&'a [u8]> {
        let (word, rest) = first_word(self.left)?;
        self.left = rest;
        Some(word)
    }
}

fn is_bad_byte(byte: u8) -> bool
    ensures { result ≡ is_bad_byte byte }
{
    !(32 <= byte && byte <= 126)
}

/// Whether a line has a byte outside 32 to 126.
pub fn has_bad_byte(line: &[u8]) -> bool
    ensures { result ≡ has_bad_byte line.now }
{
    line.iter().any(|byte| is_bad_byte(*byte))
}

/// Whether a first word makes its line a comment.
pub fn is_comment(word: &[u8]) -> bool
    ensures { result ≡ is_comment word.now }
{
    matches!(word, [b'#', ..])
}
