//! The pieces of bytes between those that part them.

ghost use Rattle.std.specs.Prelude.{◌≡◌, ◌+◌, ◌<◌, ◌≤◌, length, take, drop, get_or, IfSome, option_map};
ghost use Rattle.hp_script.specs.Pieces.{next, pieces};

/// The piece before the first byte `end`, or all where there is none, and the bytes behind that byte. Nothing where
/// there are no bytes. Takes no memory.
pub fn split_piece(end: u8, bytes: &[u8]) -> Option<(&[u8], &[u8])>
    ensures piece { option_map (λ x. (x.0.now, pieces end x.1.now)) result
        ≡ next (pieces end bytes.now) }
    ensures shorter { IfSome result (λ x. length x.1.now < length bytes.now) }
    ensures first { IfSome result (λ x. x.0.now ≡ take (length x.0.now) bytes.now) }
    ensures within { IfSome result (λ x. length x.0.now ≤ length bytes.now) }
    ensures parted { IfSome result (λ x. length x.0.now < length bytes.now → get_or bytes.now (length x.0.now) 0 ≡ end) }
    ensures behind { IfSome result (λ x. x.1.now ≡ drop (length x.0.now + 1) bytes.now) }
{
    if bytes.is_empty() {
        return None;
    }
    for (i, byte) in bytes.iter().enumerate() {
        if *byte == end {
            return Some((&bytes[..i], &bytes[i + 1..]));
        }
    }
    Some((bytes, &[]))
}

/// As `split_piece`. Contracts see the pieces alone.
pub fn next_piece(end: u8, bytes: &[u8]) -> Option<(&[u8], &[u8])>
    ensures piece { option_map (λ x. (x.0.now, pieces end x.1.now)) result
        ≡ next (pieces end bytes.now) }
    ensures shorter { IfSome result (λ x. length x.1.now < length bytes.now) }
{
    split_piece(end, bytes)
}
