//! Words of lines, appended to a buffer, each behind a space where it isn't the first.

ghost use Rattle.std.specs.Prelude.{◌≡◌, ◌≤◌, ◌<◌, ◌+◌, ◌++◌, ◌∷◌, [], OnOk, map, decimal};
ghost use Rattle.std.specs.Fmt.{signed_decimal};
ghost use Rattle.hp_model.specs.Words.{spaced, dir_word, name_word, any_word, list_words};
ghost use Rattle.hp_text.specs.Appends.{Appends};

use crate::pieces::{FEW, FEW_DIGITS, push, push_number, put_back, take_out};
use hp_states::Dir;
use itoa::Buffer;
use std::alloc::AllocError;

/// Appends some bytes as they are, in one piece.
///
/// Takes memory; where it is wanting, the buffer stays as it was. This project's own.
#[inline(always)]
pub fn append(out: &mut Vec<u8>, bytes: &[u8]) -> Result<(), AllocError>
    ensures { OnOk result (Appends out.old out.new bytes.now) }
{
    out.reserve(bytes.len())?;
    let mut text = take_out(out);
    push(&mut text, bytes);
    put_back(out, text);
    Ok(())
}

/// Appends a number, behind a space. Most numbers of a journal are short, and these go in one piece.
///
/// Takes memory; where it is wanting, the buffer stays as it was. This project's own.
pub fn append_number(out: &mut Vec<u8>, number: u32) -> Result<(), AllocError>
    ensures { OnOk result (Appends out.old out.new (32 ∷ decimal number)) }
{
    append_of(out, b"", number)
}

/// Appends a number, behind a dot. Most instances are 0.
///
/// Takes memory; where it is wanting, the buffer may have a part of that. This project's own.
#[tactic(auto, using(std::proofs::lemmas::Fmt::decimal_digit))]
pub fn append_behind_dot(out: &mut Vec<u8>, number: u32) -> Result<(), AllocError>
    ensures { OnOk result (Appends out.old out.new (46 ∷ decimal number)) }
{
    if number < 10 {
        return append(out, &[b'.', b'0' + number as u8]);
    }
    let mut buffer = Buffer::new();
    out.push(b'.')?;
    append(out, buffer.format(number).as_bytes())
}

/// Appends a word and, behind a space, the number that it is of.
///
/// Takes memory; where it is wanting, the buffer may have a part of that. This project's own.
pub fn append_of(out: &mut Vec<u8>, word: &[u8], number: u32) -> Result<(), AllocError>
    ensures { OnOk result (Appends out.old out.new (word.now ++ 32 ∷ decimal number)) }
{
    if number >= FEW {
        append(out, word)?;
        return append_count(out, number as usize);
    }
    out.reserve(word.len() + (1 + FEW_DIGITS))?;
    let mut text = take_out(out);
    push(&mut text, word);
    push_number(&mut text, number);
    put_back(out, text);
    Ok(())
}

/// Appends a signed number, behind a space.
///
/// Takes memory; where it is wanting, the buffer may have a part of that. This project's own.
pub fn append_signed(out: &mut Vec<u8>, number: i32) -> Result<(), AllocError>
    ensures { OnOk result (Appends out.old out.new (32 ∷ signed_decimal number)) }
{
    let mut buffer = Buffer::new();
    out.push(b' ')?;
    out.extend_from_slice(buffer.format(number).as_bytes())
}

/// Appends a direction, behind a space.
///
/// Takes memory; where it is wanting, the buffer may have a part of that. This project's own.
pub fn append_dir(out: &mut Vec<u8>, dir: Dir) -> Result<(), AllocError>
    ensures { OnOk result (Appends out.old out.new (32 ∷ dir_word dir)) }
{
    match dir {
        Dir::Up => append(out, b" up"),
        Dir::Down => append(out, b" down"),
    }
}

/// Appends the end of a line.
///
/// Takes memory; where it is wanting, the buffer may have a part of that. This project's own.
pub fn end_line(out: &mut Vec<u8>) -> Result<(), AllocError>
    ensures { OnOk result (Appends out.old out.new (10 ∷ [])) }
{
    append(out, b"\n")
}

/// Appends a count, behind a space. It stands apart, so that shorter numbers don't pay for its
/// buffer.
///
/// Takes memory; where it is wanting, the buffer may have a part of that. This project's own.
#[inline(never)]
pub fn append_count(out: &mut Vec<u8>, count: usize) -> Result<(), AllocError>
    ensures { OnOk result (Appends out.old out.new (32 ∷ decimal count)) }
{
    let mut buffer = Buffer::new();
    out.push(b' ')?;
    out.extend_from_slice(buffer.format(count).as_bytes())
}

/// Appends a name, behind a space; a missing one is a dash.
///
/// Takes memory; where it is wanting, the buffer may have a part of that. This project's own.
pub fn append_name(out: &mut Vec<u8>, name: &[u8]) -> Result<(), AllocError>
    ensures { OnOk result (Appends out.old out.new (32 ∷ name_word name.now)) }
{
    if name.is_empty() {
        return append(out, b" -");
    }
    out.push(b' ')?;
    append(out, name)
}

/// Appends a number, behind a space; an absent one is a star.
///
/// Takes memory; where it is wanting, the buffer may have a part of that. This project's own.
pub fn append_any(out: &mut Vec<u8>, number: Option<u32>) -> Result<(), AllocError>
    ensures { OnOk result (Appends out.old out.new (32 ∷ any_word number)) }
{
    match number {
        None => append(out, b" *"),
        Some(n) => append_number(out, n),
    }
}

/// Appends some numbers, or a dash where there is none.
///
/// Takes memory; where it is wanting, the buffer may have a part of that. This project's own.
pub fn append_numbers(out: &mut Vec<u8>, numbers: &[u32]) -> Result<(), AllocError>
    ensures { OnOk result (Appends out.old out.new (spaced (list_words (map decimal numbers.now)))) }
{
    if numbers.is_empty() {
        return append(out, b" -");
    }
    for number in numbers {
        append_number(out, *number)?;
    }
    Ok(())
}
