//! Where words and bytes stand in a line.

ghost use Rattle.std.specs.Prelude.{◌≡◌};
ghost use Rattle.hp_script.specs.Words.{is_bad_byte};
ghost use Rattle.hp_hint.specs.Places.{IsAt, IsBadByteAt};

use crate::piece::split_piece;

/// Bytes of a line that are marked.
#[derive(Clone, Copy, Debug, PartialEq, Eq)]
pub struct Mark {
    /// How many bytes of the line stand before it.
    pub start: usize,
    /// How many bytes it has; none at the end of the line.
    pub length: usize,
}

/// Where the word of this number stands in a line, counted from 0; the end, where the line has no such word. Takes no
/// memory.
pub fn place_of_word(line: &[u8], number: usize) -> Mark
    ensures { IsAt line.now number result }
{
    let mut start = 0;
    let mut left = number;
    while let Some((piece, _)) = split_piece(b' ', &line[start..]) {
        let length = piece.len();
        if length > 0 {
            if left == 0 {
                return Mark { start, length };
            }
            left -= 1;
        }
        if length == line.len() - start {
            break;
        }
        start += length + 1;
    }
    Mark {
        start: line.len(),
        length: 0,
    }
}

fn is_bad_byte(byte: u8) -> bool
    ensures { result ≡ is_bad_byte byte }
{
    !(32 <= byte && byte <= 126)
}

/// Where the first byte stands that no line may have; the end, where the line has none. Takes no memory.
pub fn first_bad_byte(line: &[u8]) -> Mark
    ensures { IsBadByteAt line.now result }
{
    for (start, byte) in line.iter().enumerate() {
        if is_bad_byte(*byte) {
            return Mark { start, length: 1 };
        }
    }
    Mark {
        start: line.len(),
        length: 0,
    }
}
