//! Words that are numbers: `0`, or a digit 1 to 9 with digits behind it. A signed one may have a
//! `-` before it, but not before 0.

ghost use Rattle.std.specs.Prelude.{◌≡◌, ◌≤◌, ◌<◌, ◌^◌, ℕ, ℤ, Ok, IfOk, decimal};
ghost use Rattle.std.specs.Fmt.{signed_decimal};
ghost use Rattle.hp_text.specs.Fits.{IsU32, IsI32};
ghost use Rattle.hp_text.specs.Numbers.{are_digits, is_plain as is_plain_at, is_number as is_number_at, past_limit as past_limit_at, digits_below as digits_below_at, number_below as number_below_at, number_from as number_from_at, long_number as long_number_at, with_digit as with_digit_at, number as number_at, integer as integer_at, negated as negated_at};

use crate::unread::Unread;

/// One more than the highest number of the type `u32`.
const U32_LIMIT: u64 = 0x1_0000_0000;
/// One more than the highest number of the type `i32`.
const I32_LIMIT: u64 = 0x8000_0000;

fn are_digits(bytes: &[u8]) -> bool
    ensures { result ≡ are_digits bytes.now }
{
    bytes.iter().all(|byte| byte.is_ascii_digit())
}

/// Why digits say no number below a limit that they pass: other bytes may stand among them.
#[inline(never)]
fn past_limit(digits: &[u8]) -> Unread
    ensures { result ≡ past_limit_at digits.now }
{
    if are_digits(digits) {
        Unread::OutOfRange
    } else {
        Unread::NotOfForm
    }
}

/// The number below a limit that digits say. It ends at the first digit that passes the limit.
fn digits_below(limit: u64, digits: &[u8]) -> Result<u32, Unread>
    requires some { 0 < limit }
    requires small { limit ≤ 2 ^ 32 }
    ensures said { result ≡ digits_below_at limit digits.now }
    ensures below { IfOk result (λ n. n < limit) }
{
    let mut value: u64 = 0;
    for byte in digits {
        if !byte.is_ascii_digit() {
            return Err(Unread::NotOfForm);
        }
        value = value * 10 + (*byte - b'0') as u64;
        if value >= limit {
            return Err(past_limit(digits));
        }
    }
    Ok(value as u32)
}

/// A number with a digit more, where it is of the type `u64`.
fn with_digit(number: u64, digit: u8) -> Option<u64>
    ensures { result ≡ with_digit_at number digit }
{
    number.checked_mul(10)?.checked_add(digit as u64)
}

/// The number of the type `u64` that digits say. It ends at the first digit that passes the type.
fn long_digits(digits: &[u8]) -> Result<u64, Unread>
    ensures { result ≡ digits_below_at (2 ^ 64) digits.now }
{
    let mut value: u64 = 0;
    for byte in digits {
        if !byte.is_ascii_digit() {
            return Err(Unread::NotOfForm);
        }
        match with_digit(value, *byte - b'0') {
            Some(more) => value = more,
            None => return Err(past_limit(digits)),
        }
    }
    Ok(value)
}

/// Whether a word isn't empty, and has no 0 before other bytes.
fn is_plain(word: &[u8]) -> bool
    ensures { result ≡ is_plain_at word.now }
{
    match word {
        [] => false,
        [b'0', others @ ..] => others.is_empty(),
        _ => true,
    }
}

/// The number below a limit that a word says.
///
/// - `NotOfForm` where the word is no number.
/// - `OutOfRange` where it is a number that isn't below the limit.
///
/// The limit is above 0 and at most 2 ^ 32. Takes no memory. This project's own.
#[tactic(auto, unfolding(crate::specs::Numbers::number_below))]
pub fn number_below(limit: u64, word: &[u8]) -> Result<u32, Unread>
    requires some { 0 < limit }
    requires small { limit ≤ 2 ^ 32 }
    ensures said { result ≡ number_below_at limit word.now }
    ensures below { IfOk result (λ n. n < limit) }
{
    if !is_plain(word) {
        return Err(Unread::NotOfForm);
    }
    digits_below(limit, word)
}

/// A number of the type `u64`.
#[tactic(auto, unfolding(crate::specs::Numbers::number_below))]
fn any_long_number(word: &[u8]) -> Result<u64, Unread>
    ensures { result ≡ long_number_at word.now }
{
    if !is_plain(word) {
        return Err(Unread::NotOfForm);
    }
    long_digits(word)
}

/// The number of the type `u64` that a word says.
///
/// - `NotOfForm` where the word is no number.
/// - `OutOfRange` where the number is 2 ^ 64 or more.
///
/// There is no condition. Takes no memory. This project's own.
#[tactic(auto, using(crate::proofs::NumberLaws::long_spelled, crate::proofs::NumberLaws::long_read))]
pub fn long_number(word: &[u8]) -> Result<u64, Unread>
    ensures said { result ≡ long_number_at word.now }
    // A word that is read is the spelling of its number, and the spelling of a number is read.
    ensures spelled { IfOk result (λ n. word.now ≡ decimal n) }
    ensures read { (n : ℕ) → n < 2 ^ 64 → word.now ≡ decimal n → result ≡ Ok n }
{
    any_long_number(word)
}

/// The number from `low`, below a limit, that a word says.
///
/// - `NotOfForm` where the word is no number.
/// - `OutOfRange` where it is a number below `low`, or one that isn't below the limit.
///
/// The limit is above 0 and at most 2 ^ 32. Takes no memory. This project's own.
pub fn number_from(low: u32, limit: u64, word: &[u8]) -> Result<u32, Unread>
    requires some { 0 < limit }
    requires small { limit ≤ 2 ^ 32 }
    ensures said { result ≡ number_from_at low limit word.now }
    ensures below { IfOk result (λ n. n < limit) }
    ensures from { IfOk result (λ n. low ≤ n) }
{
    let n = number_below(limit, word)?;
    if low <= n {
        Ok(n)
    } else {
        Err(Unread::OutOfRange)
    }
}

/// The number of the type `u32` that a word says.
///
/// - `NotOfForm` where the word is no number.
/// - `OutOfRange` where the number is 2 ^ 32 or more.
///
/// There is no condition. Takes no memory. This project's own.
#[tactic(auto, using(crate::proofs::NumberLaws::number_spelled, crate::proofs::NumberLaws::number_read))]
pub fn number(word: &[u8]) -> Result<u32, Unread>
    ensures said { result ≡ number_at word.now }
    // A word that is read is the spelling of its number, and the spelling of a number is read.
    ensures spelled { IfOk result (λ n. word.now ≡ decimal n) }
    ensures read { (n : ℕ) → IsU32 n → word.now ≡ decimal n → result ≡ Ok n }
{
    number_below(U32_LIMIT, word)
}

/// A number behind a minus, which isn't 0.
fn negated(number: u32) -> Result<i32, Unread>
    requires { number ≤ 2 ^ 31 }
    ensures { result ≡ negated_at (Ok number) }
{
    if number == 0 {
        return Err(Unread::NotOfForm);
    }
    Ok((0 - number as i64) as i32)
}

/// Whether a word is a number, however large.
#[tactic(auto, unfolding(crate::specs::Numbers::number_below))]
pub fn is_number(word: &[u8]) -> bool
    ensures { result ≡ is_number_at word.now }
{
    !matches!(number(word), Err(Unread::NotOfForm))
}

/// A signed number of the type `i32`.
#[inline(always)]
#[tactic(auto, unfolding(crate::specs::Numbers::integer))]
fn signed(word: &[u8]) -> Result<i32, Unread>
    ensures { result ≡ integer_at word.now }
{
    let Some((first, others)) = word.split_first() else {
        return Err(Unread::NotOfForm);
    };
    if *first == b'-' {
        return negated(number_below(I32_LIMIT + 1, others)?);
    }
    Ok(number_below(I32_LIMIT, word)? as i32)
}

/// The signed number of the type `i32` that a word says.
///
/// - `NotOfForm` where the word is neither a number nor a `-` and a number other than 0.
/// - `OutOfRange` where the number is below -2 ^ 31, or 2 ^ 31 or more.
///
/// There is no condition. Takes no memory. This project's own.
#[inline(always)]
#[tactic(auto, using(crate::proofs::NumberLaws::integer_is_spelled))]
pub fn integer(word: &[u8]) -> Result<i32, Unread>
    ensures said { result ≡ integer_at word.now }
    // A word that is read is the spelling of its number, and the spelling of a number is read.
    ensures spelled { IfOk result (λ z. word.now ≡ signed_decimal z) }
    ensures read { (z : ℤ) → IsI32 z → word.now ≡ signed_decimal z → result ≡ Ok z }
{
    signed(word)
}
