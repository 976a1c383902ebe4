//! Pieces of a text pushed into a buffer that has room for them.
//!
//! A piece asks for its room once. For the pushes the buffer is taken out of its place, so that no byte that is pushed
//! can be one of the buffer's own fields: a short piece then goes in by a few words, and not byte by byte.

ghost use Rattle.std.specs.Prelude.{◌≡◌, ◌+◌, ◌/◌, ◌%◌, ◌<◌, ◌≤◌, ◌++◌, ◌∷◌, [], decimal, length, vec_len, vec_capacity};
ghost use Rattle.hp_text.specs.Appends.{Appends};

use std::mem::{forget, replace};

/// The digits of the numbers below 100, two for each.
static PAIRS: [u8; 200] =
    *b"00010203040506070809101112131415161718192021222324252627282930313233343536373839404142434445464748495051525354555657585960616263646566676869707172737475767778798081828384858687888990919293949596979899";

/// Numbers below this one have at most `FEW_DIGITS` digits.
pub const FEW: u32 = 10_000;

/// How many digits numbers below `FEW` have at most.
pub const FEW_DIGITS: usize = 4;

/// Pushes bytes for which there is room. Takes no memory. This project's own.
#[inline(always)]
pub fn push(out: &mut Vec<u8>, bytes: &[u8])
    requires { vec_len out.old + length bytes.now ≤ vec_capacity out.old }
    ensures text { Appends out.old out.new bytes.now }
    ensures many { vec_len out.new ≡ vec_len out.old + length bytes.now }
    ensures room { vec_capacity out.new ≡ vec_capacity out.old }
{
    for byte in bytes {
        out.push_reserved(*byte);
    }
}

/// Pushes the two digits of a number below 100, of which the first may be 0. Takes no memory. This project's own.
#[inline(always)]
#[tactic(auto, using(crate::proofs::Pairs::pair_at))]
pub fn push_pair(out: &mut Vec<u8>, number: u32)
    requires below { number < 100 }
    requires room { vec_len out.old + 2 ≤ vec_capacity out.old }
    ensures text { Appends out.old out.new ((48 + number / 10) ∷ (48 + number % 10) ∷ []) }
    ensures many { vec_len out.new ≡ vec_len out.old + 2 }
    ensures room { vec_capacity out.new ≡ vec_capacity out.old }
{
    let at = 2 * number as usize;
    push(out, &[PAIRS[at], PAIRS[at + 1]]);
}

/// Pushes a number below 100. Takes no memory. This project's own.
#[inline(always)]
#[tactic(auto, using(std::proofs::lemmas::Fmt::decimal_digit, crate::proofs::Pairs::two_digits))]
pub fn push_first(out: &mut Vec<u8>, number: u32)
    requires below { number < 100 }
    requires room { vec_len out.old + 2 ≤ vec_capacity out.old }
    ensures text { Appends out.old out.new (decimal number) }
    ensures many { vec_len out.new ≤ vec_len out.old + 2 }
    ensures room { vec_capacity out.new ≡ vec_capacity out.old }
{
    if number < 10 {
        push(out, &[b'0' + number as u8]);
    } else {
        push_pair(out, number);
    }
}

/// Pushes a number of at most `FEW_DIGITS` digits. Takes no memory. This project's own.
#[inline(always)]
pub fn push_few(out: &mut Vec<u8>, number: u32)
    requires below { number < FEW }
    requires room { vec_len out.old + FEW_DIGITS ≤ vec_capacity out.old }
    ensures text { Appends out.old out.new (decimal number) }
    ensures many { vec_len out.new ≤ vec_len out.old + FEW_DIGITS }
    ensures room { vec_capacity out.new ≡ vec_capacity out.old }
{
    if number < 100 {
        push_first(out, number);
    } else {
        push_first(out, number / 100);
        push_pair(out, number % 100);
    }
}

/// Pushes a number of at most `FEW_DIGITS` digits behind a space. Takes no memory. This project's own.
#[inline(always)]
pub fn push_number(out: &mut Vec<u8>, number: u32)
    requires below { number < FEW }
    requires room { vec_len out.old + (1 + FEW_DIGITS) ≤ vec_capacity out.old }
    ensures text { Appends out.old out.new (32 ∷ decimal number) }
    ensures many { vec_len out.new ≤ vec_len out.old + (1 + FEW_DIGITS) }
    ensures room { vec_capacity out.new ≡ vec_capacity out.old }
{
    push(out, b" ");
    push_few(out, number);
}

/// Takes a buffer out of its place, where an empty one stands meanwhile. Takes no memory. This project's own.
#[inline(always)]
pub fn take_out(out: &mut Vec<u8>) -> Vec<u8>
    ensures { result ≡ out.old }
{
    let alloc = *out.allocator();
    replace(out, Vec::new(alloc))
}

/// Puts it back, in place of the empty one. Takes no memory. This project's own.
#[inline(always)]
pub fn put_back(out: &mut Vec<u8>, text: Vec<u8>)
    ensures { out.new ≡ text }
{
    forget(replace(out, text));
}
