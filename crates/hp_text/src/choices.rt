//! Words of which each is one of a few, and names.

ghost use Rattle.std.specs.Prelude.{◌≡◌, ◌≤◌, ◌<◌, ◌^◌, option_map};
ghost use Rattle.std.specs.List.{list_all};
ghost use Rattle.hp_states.specs.Names.{is_name_byte};
ghost use Rattle.hp_text.specs.Choices.{dir_of as dir_at, calls_of as calls_at, kind_of as kind_at, is_name as is_name_at, name_of as name_at, any_from as any_from_at};

use crate::numbers::number_from;
use crate::unread::Unread;
use hp_states::{Dir, MAX_NAME_LEN, is_name_byte};

/// The direction that a word says. None where it says none. Takes no memory. This project's own.
#[inline(always)]
#[tactic(auto, unfolding(crate::specs::Choices::dir_of))]
pub fn dir_of(word: &[u8]) -> Option<Dir>
    ensures { result ≡ dir_at word.now }
{
    match word {
        b"up" => Some(Dir::Up),
        b"down" => Some(Dir::Down),
        _ => None,
    }
}

/// Whether there is a startup, and whether there is a teardown.
#[tactic(auto, unfolding(crate::specs::Choices::calls_of))]
pub fn calls_of(word: &[u8]) -> Option<(bool, bool)>
    ensures { result ≡ calls_at word.now }
{
    match word {
        b"both" => Some((true, true)),
        b"up" => Some((true, false)),
        b"down" => Some((false, true)),
        b"none" => Some((false, false)),
        _ => None,
    }
}

/// Whether there are instances.
#[tactic(auto, unfolding(crate::specs::Choices::kind_of))]
pub fn kind_of(word: &[u8]) -> Option<bool>
    ensures { result ≡ kind_at word.now }
{
    if word == b"multi".as_slice() {
        return Some(true);
    }
    if word == b"single".as_slice() {
        return Some(false);
    }
    None
}

fn are_name_bytes(word: &[u8]) -> bool
    ensures { result ≡ list_all is_name_byte word.now }
{
    word.iter().all(|byte| is_name_byte(*byte))
}

/// Whether a word can stand for a name: 1 to `MAX_NAME_LEN` letters, digits and `:` `_` `/` `.` `-`.
///
/// Takes no memory. This project's own.
pub fn is_name(word: &[u8]) -> bool
    ensures { result ≡ is_name_at word.now }
{
    1 <= word.len() && word.len() <= MAX_NAME_LEN as usize && are_name_bytes(word)
}

/// The name that a word says, which is empty where a dash says that there is none.
#[tactic(auto, unfolding(crate::specs::Choices::name_of))]
pub fn name_of(word: &[u8]) -> Option<&[u8]>
    ensures { option_map (λ n. n.now) result ≡ name_at word.now }
{
    if word == b"-".as_slice() {
        return Some(&[]);
    }
    if is_name(word) { Some(word) } else { None }
}

/// The number from `low`, below a limit, that a word says, and none for the star.
#[tactic(auto, unfolding(crate::specs::Choices::any_from))]
pub fn any_from(low: u32, limit: u64, word: &[u8]) -> Result<Option<u32>, Unread>
    requires some { 0 < limit }
    requires small { limit ≤ 2 ^ 32 }
    ensures { result ≡ any_from_at low limit word.now }
{
    if word == b"*".as_slice() {
        return Ok(None);
    }
    Ok(Some(number_from(low, limit, word)?))
}
