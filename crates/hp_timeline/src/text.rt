//! The pieces of the picture's text, appended to a buffer: bytes, and numbers between bytes.

ghost use Rattle.std.specs.Prelude.{◌≡◌, ◌+◌, ◌/◌, ◌%◌, ◌<◌, ◌≤◌, ◌++◌, ◌∷◌, [], decimal, length, OnOk, vec_len, vec_capacity};
ghost use Rattle.hp_text.specs.Appends.{Appends};

use hp_text::{FEW, FEW_DIGITS, push, push_few, push_first, push_pair, put_back, take_out};
use itoa::Buffer;
use std::alloc::AllocError;

/// Numbers below this one have at most `DIGITS` digits.
pub const LONG: usize = 1_000_000;

const DIGITS: usize = 6;

/// Pushes a number of at most `DIGITS` digits.
#[inline(always)]
fn push_decimal(out: &mut Vec<u8>, number: u32)
    requires below { number < LONG }
    requires room { vec_len out.old + DIGITS ≤ vec_capacity out.old }
    ensures text { Appends out.old out.new (decimal number) }
    ensures many { vec_len out.new ≤ vec_len out.old + DIGITS }
    ensures room { vec_capacity out.new ≡ vec_capacity out.old }
{
    if number < FEW {
        push_few(out, number);
    } else {
        push_first(out, number / 10000);
        push_pair(out, number % 10000 / 100);
        push_pair(out, number % 10000 % 100);
    }
}

/// Appends bytes, and behind them a number that isn't below `LONG`.
#[inline(never)]
fn append_long(out: &mut Vec<u8>, bytes: &[u8], number: usize) -> Result<(), AllocError>
    ensures { OnOk result (Appends out.old out.new (bytes.now ++ decimal number)) }
{
    let mut buffer = Buffer::new();
    out.extend_from_slice(bytes)?;
    out.extend_from_slice(buffer.format(number).as_bytes())
}

/// Pushes bytes, and behind them a number of at most `DIGITS` digits.
#[inline(always)]
pub fn push_with(out: &mut Vec<u8>, bytes: &[u8], number: usize)
    requires below { number < LONG }
    requires room { vec_len out.old + (length bytes.now + DIGITS) ≤ vec_capacity out.old }
    ensures text { Appends out.old out.new (bytes.now ++ decimal number) }
    ensures many { vec_len out.new ≤ vec_len out.old + (length bytes.now + DIGITS) }
    ensures room { vec_capacity out.new ≡ vec_capacity out.old }
{
    push(out, bytes);
    push_decimal(out, number as u32);
}

/// Pushes bytes, and behind them a number of at most `FEW_DIGITS` digits.
#[inline(always)]
pub fn push_with_few(out: &mut Vec<u8>, bytes: &[u8], number: u32)
    requires below { number < FEW }
    requires room { vec_len out.old + (length bytes.now + FEW_DIGITS) ≤ vec_capacity out.old }
    ensures text { Appends out.old out.new (bytes.now ++ decimal number) }
    ensures many { vec_len out.new ≤ vec_len out.old + (length bytes.now + FEW_DIGITS) }
    ensures room { vec_capacity out.new ≡ vec_capacity out.old }
{
    push(out, bytes);
    push_few(out, number);
}

/// Appends bytes.
#[inline(always)]
pub fn append(out: &mut Vec<u8>, bytes: &[u8]) -> Result<(), AllocError>
    ensures { OnOk result (Appends out.old out.new bytes.now) }
{
    out.reserve(bytes.len())?;
    let mut text = take_out(out);
    push(&mut text, bytes);
    put_back(out, text);
    Ok(())
}

/// Appends bytes, and a number behind them.
#[inline(always)]
pub fn append_with(out: &mut Vec<u8>, bytes: &[u8], number: usize) -> Result<(), AllocError>
    ensures { OnOk result (Appends out.old out.new (bytes.now ++ decimal number)) }
{
    if number >= LONG {
        return append_long(out, bytes, number);
    }
    out.reserve(bytes.len() + DIGITS)?;
    let mut text = take_out(out);
    push_with(&mut text, bytes, number);
    put_back(out, text);
    Ok(())
}

/// Appends a number, and bytes behind it.
#[inline(always)]
pub fn append_before(out: &mut Vec<u8>, number: usize, bytes: &[u8]) -> Result<(), AllocError>
    ensures { OnOk result (Appends out.old out.new (decimal number ++ bytes.now)) }
{
    if number >= LONG {
        append_long(out, b"", number)?;
        return append(out, bytes);
    }
    out.reserve(DIGITS + bytes.len())?;
    let mut text = take_out(out);
    push_decimal(&mut text, number as u32);
    push(&mut text, bytes);
    put_back(out, text);
    Ok(())
}

/// Appends bytes and a number behind them, and both once more: a few bytes each time.
#[inline(always)]
pub fn append_two(
    out: &mut Vec<u8>,
    bytes: &[u8],
    number: usize,
    more: &[u8],
    other: usize,
) -> Result<(), AllocError>
    requires { length bytes.now + length more.now ≤ 256 }
    ensures { OnOk result (Appends out.old out.new (bytes.now ++ (decimal number ++ (more.now ++ decimal other)))) }
{
    if number.max(other) >= LONG {
        append_long(out, bytes, number)?;
        return append_long(out, more, other);
    }
    out.reserve(bytes.len() + DIGITS + (more.len() + DIGITS))?;
    let mut text = take_out(out);
    push_with(&mut text, bytes, number);
    push_with(&mut text, more, other);
    put_back(out, text);
    Ok(())
}

/// Appends bytes and a number behind them, both once more, and bytes behind that: a few bytes each time.
#[inline(always)]
pub fn append_two_before(
    out: &mut Vec<u8>,
    bytes: &[u8],
    number: usize,
    more: &[u8],
    other: usize,
    end: &[u8],
) -> Result<(), AllocError>
    requires { length bytes.now + (length more.now + length end.now) ≤ 256 }
    ensures { OnOk result (Appends out.old out.new
        (bytes.now ++ (decimal number ++ (more.now ++ (decimal other ++ end.now))))) }
{
    if number.max(other) >= LONG {
        append_long(out, bytes, number)?;
        append_long(out, more, other)?;
        return append(out, end);
    }
    out.reserve(bytes.len() + DIGITS + (more.len() + DIGITS) + end.len())?;
    let mut text = take_out(out);
    push_with(&mut text, bytes, number);
    push_with(&mut text, more, other);
    push(&mut text, end);
    put_back(out, text);
    Ok(())
}
