//! Numbers in files.

ghost use Rattle.std.specs.Prelude.{◌≡◌, ◌==◌, ◌<◌, ◌^◌, ◌++◌, slice_index, ℤ, pos, IfSome, IfOk, IfErr, MatchOption, length, drop};
ghost use Rattle.hp_files.specs.Numbers.{DigitsSay, IsNumberText, minus_if, negative_if, without_newline, number_line, IsShortNumeralOf, IsNoShortNumeral};

use itoa::Buffer;

/// The bytes say no number: they are of another form, or the number isn't of the type `i32`.
#[derive(Clone, Copy, Debug, PartialEq, Eq)]
pub struct BadNumber;

/// The front of a text, up to its last newline where it ends in one.
fn without_newline(bytes: &[u8]) -> &[u8]
    ensures { result.now ≡ without_newline bytes.now }
{
    match bytes {
        [line @ .., b'\n'] => line,
        _ => bytes,
    }
}

/// Whether a line begins with a minus, and what stands behind it, or else the line.
fn split_minus(line: &[u8]) -> (bool, &[u8])
    ensures first { result.0 ≡ (slice_index line.now 0 == 45) }
    ensures parts { line.now ≡ minus_if result.0 ++ result.1.now }
{
    if line.first() == Some(&b'-') {
        (true, &line[1..])
    } else {
        (false, line)
    }
}

/// The number that one to ten digits say.
fn value_of(digits: &[u8]) -> Option<u64>
    ensures small { IfSome result (λ n. n < 10 ^ 10) }
    ensures said { MatchOption result (IsNoShortNumeral digits.now) (IsShortNumeralOf digits.now) }
{
    if digits.is_empty() || digits.len() > 10 {
        return None;
    }
    let mut value: u64 = 0;
    for byte in digits {
        if !byte.is_ascii_digit() {
            return None;
        }
        value = value * 10 + (*byte - b'0') as u64;
    }
    Some(value)
}

/// A number, with a minus where it is to have one.
fn signed(is_negative: bool, value: u64) -> i64
    requires { value < 10 ^ 10 }
    ensures { result ≡ negative_if is_negative (pos value) }
{
    if is_negative {
        0 - value as i64
    } else {
        value as i64
    }
}

/// The number that digits say behind a minus or without one.
fn number_of(is_negative: bool, digits: &[u8]) -> Result<i32, BadNumber>
    ensures said { IfOk result (DigitsSay is_negative digits.now) }
    ensures refused { IfErr result (λ _. (number : ℤ) → DigitsSay is_negative digits.now number → ⊥) }
{
    let value = match value_of(digits) {
        Some(value) => value,
        None => return Err(BadNumber),
    };
    let number = signed(is_negative, value);
    if number < i32::MIN as i64 || number > i32::MAX as i64 {
        return Err(BadNumber);
    }
    Ok(number as i32)
}

/// The number that is written to a file: an optional `-`, one to ten digits and an optional last
/// newline. Digits may begin with zeros, and `-0` says 0.
///
/// - `BadNumber` where the bytes are of another form, and where the number is below -2,147,483,648
///   or above 2,147,483,647.
///
/// There is no condition, and no other refusal. Takes no memory. The form is this project's own;
/// `target_store` and `fail_store` of `kernel/cpu.c` read their number by `kstrtoint`.
pub fn read_i32(bytes: &[u8]) -> Result<i32, BadNumber>
    ensures said { IfOk result (IsNumberText bytes.now) }
    ensures refused { IfErr result (λ _. (number : ℤ) → IsNumberText bytes.now number → ⊥) }
{
    let line = without_newline(bytes);
    let (is_negative, digits) = split_minus(line);
    number_of(is_negative, digits)
}

/// Writes the text of a file that holds a number to the front of a buffer: the number and a
/// newline. It answers how many bytes that is; the bytes behind them stay.
///
/// There is no condition and no refusal: no number of the type `i32` has more than 12 bytes with
/// its newline. Takes no memory. The form is the `%d\n` of `target_show` of `kernel/cpu.c`.
pub fn show_number(number: i32, buf: &mut [u8; 12]) -> usize
    ensures count { result ≡ length (number_line number) }
    ensures shown { buf.new ≡ number_line number ++ drop (length (number_line number)) buf.old }
    ensures reads_back { IsNumberText (number_line number) number }
{
    let mut digits = Buffer::new();
    let text = digits.format(number).as_bytes();
    let count = text.len();
    buf[..count].copy_from_slice(text);
    buf[count] = b'\n';
    count + 1
}
