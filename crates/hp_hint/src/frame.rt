//! A line of a script with a mark beneath it, as rustc shows them.

use crate::place::Mark;
use hp_states::NoMemory;
use std::fmt::Write;

/// The most bytes of a line that are shown.
const MAX_LINE: usize = 160;

/// The bytes of a line that are shown before a mark, where not all are.
const BEFORE: usize = 60;

/// What parts a hint is painted in.
#[derive(Clone, Copy)]
pub enum Paint {
    /// The edge beside the line.
    Edge,
    /// What is wrong.
    Alarm,
    /// All else.
    Plain,
}

/// What begins a part of a hint, where there is colour.
fn begin(text: &mut String, colour: bool, paint: Paint) -> Result<(), NoMemory> {
    if colour {
        text.push_str(match paint {
            Paint::Edge => "\x1b[1;34m",
            Paint::Alarm => "\x1b[1;31m",
            Paint::Plain => "\x1b[0m",
        })?;
    }
    Ok(())
}

/// The first byte of a line that is shown, where not all are.
fn start_of(line: &[u8], mark: Mark) -> usize {
    if line.len() <= MAX_LINE {
        0
    } else {
        mark.start.saturating_sub(BEFORE)
    }
}

/// How wide a byte is shown.
fn width_of(byte: u8) -> usize {
    if 32 <= byte && byte <= 126 { 1 } else { 4 }
}

/// A byte as it is shown: other ones than printable as `\x09`.
fn append_byte(text: &mut String, byte: u8) -> Result<(), NoMemory> {
    if 32 <= byte && byte <= 126 {
        text.push(char::from(byte))?;
    } else {
        write!(text, "\\x{byte:02x}")?;
    }
    Ok(())
}

fn append_many(text: &mut String, piece: &str, many: usize) -> Result<(), NoMemory> {
    for _ in 0..many {
        text.push_str(piece)?;
    }
    Ok(())
}

/// The bytes of a line that are shown.
fn append_line(text: &mut String, line: &[u8], start: usize) -> Result<(), NoMemory> {
    if start > 0 {
        text.push_str("..")?;
    }
    for byte in line.iter().skip(start).take(MAX_LINE) {
        append_byte(text, *byte)?;
    }
    if line.len().saturating_sub(start) > MAX_LINE {
        text.push_str("..")?;
    }
    Ok(())
}

/// The mark beneath them.
fn append_mark(text: &mut String, line: &[u8], start: usize, mark: Mark) -> Result<(), NoMemory> {
    if start > 0 {
        text.push_str("  ")?;
    }
    let before = mark.start.saturating_sub(start);
    for byte in line.iter().skip(start).take(before) {
        append_many(text, " ", width_of(*byte))?;
    }
    if mark.length == 0 {
        return Ok(text.push_str("^")?);
    }
    let shown = MAX_LINE.saturating_sub(before);
    for byte in line.iter().skip(mark.start).take(mark.length.min(shown)) {
        append_many(text, "^", width_of(*byte))?;
    }
    Ok(())
}

/// How many digits a number has.
fn digits_of(number: u32) -> usize {
    let mut digits: usize = 1;
    let mut left = number / 10;
    for _ in 0..10 {
        if left > 0 {
            digits = digits.saturating_add(1);
        }
        left /= 10;
    }
    digits
}

/// The edge of a line of a hint: so many spaces, and what stands behind them.
fn append_edge(text: &mut String, colour: bool, room: usize, edge: &str) -> Result<(), NoMemory> {
    begin(text, colour, Paint::Edge)?;
    append_many(text, " ", room)?;
    text.push_str(edge)?;
    begin(text, colour, Paint::Plain)
}

/// A line of this number with its mark, up to where the cause stands. Of a line of many bytes those about the mark are shown.
///
/// There is no condition. Takes memory for the text; where there is none: `NoMemory`.
pub fn append_frame(
    text: &mut String,
    colour: bool,
    number: u32,
    line: &[u8],
    mark: Mark,
) -> Result<(), NoMemory> {
    let room = digits_of(number);
    let start = start_of(line, mark);
    append_edge(text, colour, room, "-->")?;
    let column = mark.start.saturating_add(1);
    write!(text, " line {number}, column {column}\n")?;
    append_edge(text, colour, room, " |")?;
    text.push_str("\n")?;
    begin(text, colour, Paint::Edge)?;
    write!(text, "{number} |")?;
    begin(text, colour, Paint::Plain)?;
    text.push_str(" ")?;
    append_line(text, line, start)?;
    text.push_str("\n")?;
    append_edge(text, colour, room, " |")?;
    text.push_str(" ")?;
    begin(text, colour, Paint::Alarm)?;
    append_mark(text, line, start, mark)?;
    text.push_str(" ")?;
    Ok(())
}

/// The end of a hint.
pub fn append_end(text: &mut String, colour: bool) -> Result<(), NoMemory> {
    begin(text, colour, Paint::Plain)?;
    text.push_str("\n")?;
    Ok(())
}
