//! The form of a name.

ghost use Rattle.std.specs.Prelude.{◌≡◌, ◌↔◌, IsTrue, codes};
ghost use Rattle.std.specs.List.{AllPass};
ghost use Rattle.hp_states.specs.Names.{is_name_byte as is_name_byte_of, IsName};

use crate::limits::MAX_NAME_LEN;

/// Whether a byte can stand in a name: an ASCII letter, a digit, or one of `:` `_` `/` `.` `-`.
///
/// Takes no memory. This project's own.
pub fn is_name_byte(byte: u8) -> bool
    ensures { result ≡ is_name_byte_of byte }
{
    matches!(byte, b'a'..=b'z' | b'A'..=b'Z' | b'0'..=b'9' | b':' | b'_' | b'/' | b'.' | b'-')
}

/// Whether some bytes have the form of a name: at most `MAX_NAME_LEN` bytes that can stand in one,
/// and not `-` alone, which spells that there is no name. No bytes have it: they are no name.
///
/// Takes no memory, and time for the bytes up to the first that can't stand in a name. This
/// project's own.
pub fn is_name(bytes: &[u8]) -> bool
    ensures { IsTrue result ↔ IsName bytes.now }
{
    bytes.len() <= MAX_NAME_LEN as usize && are_name_bytes(bytes) && !is_dash(bytes)
}

/// Whether all bytes can stand in a name.
fn are_name_bytes(bytes: &[u8]) -> bool
    ensures { IsTrue result ↔ AllPass is_name_byte_of bytes.now }
{
    bytes.iter().all(|byte| is_name_byte(*byte))
}

/// Whether some bytes are a dash alone.
fn is_dash(bytes: &[u8]) -> bool
    ensures { IsTrue result ↔ (bytes.now ≡ codes "-") }
{
    bytes == b"-".as_slice()
}
