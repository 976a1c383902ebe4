//! Words, and what they say by a table.

ghost use Rattle.std.specs.Prelude.{◌≡◌};
ghost use Rattle.hp_states.specs.Words.{says};

/// What a word says by a table: what stands beside the first text of the table that is this word. None
/// where the word isn't in the table.
///
/// The table may be any. Takes no memory, and a comparison for each row up to that one. This project's
/// own.
pub fn find_word<T: Copy>(rows: &[(&[u8], T)], word: &[u8]) -> Option<T>
    ensures { result ≡ says word.now rows.now }
{
    for row in rows {
        if word == row.0 {
            return Some(row.1);
        }
    }
    None
}
