//! The flags of a registration.

ghost use Rattle.std.specs.Prelude.{◌≡◌};
ghost use Rattle.hp_text.specs.Flags.{flags as flags_at, one_flag as one_flag_at, two_flags as two_flags_at, form as form_at};

use crate::unread::Unread;
use crate::words::Words;
use hp_event::Form;

fn flags(nocalls: bool, locked: bool) -> Form
    ensures { result ≡ flags_at nocalls locked }
{
    Form { nocalls, locked }
}

/// The form that one flag alone says.
fn one_flag(word: &[u8]) -> Result<Form, Unread>
    ensures { result ≡ one_flag_at word.now }
{
    if word == b"nocalls".as_slice() {
        Ok(flags(true, false))
    } else if word == b"locked".as_slice() {
        Ok(flags(false, true))
    } else {
        Err(Unread::NotOfForm)
    }
}

/// The form that two flags say.
fn two_flags(first: &[u8], second: &[u8]) -> Result<Form, Unread>
    ensures { result ≡ two_flags_at first.now second.now }
{
    if first == b"nocalls".as_slice() && second == b"locked".as_slice() {
        Ok(flags(true, true))
    } else {
        Err(Unread::NotOfForm)
    }
}

/// How a registration is asked for: by no flag, one of them, or both.
#[tactic(auto, unfolding(crate::specs::Flags::form))]
pub fn form<'a, W: Words<'a>>(words: &mut W) -> Result<Form, Unread>
    ensures { result ≡ form_at (W.left words.old) }
{
    let Some(first) = words.next_word() else {
        return Ok(flags(false, false));
    };
    let Some(second) = words.next_word() else {
        return one_flag(first);
    };
    if words.next_word().is_some() {
        return Err(Unread::NotOfForm);
    }
    two_flags(first, second)
}
