//! The hint of a refused script: its line, what is marked of it, and in a few words what belongs there.

use crate::cause::{Marked, append_cause, append_cause_at_end};
use crate::context::Context;
use crate::fault::{Fault, fault_of, line_of};
use crate::frame::{append_end, append_frame};
use crate::place::Mark;
use crate::verb::verb_of;
use crate::words::LineWords;
use hp_states::NoMemory;
use hp_text::Words;
use std::alloc::Global;

/// The bytes of a mark.
fn marked(line: &[u8], mark: Mark) -> &[u8] {
    if mark.start > line.len() || mark.length > line.len() - mark.start {
        return &[];
    }
    &line[mark.start..mark.start + mark.length]
}

/// How many words these bytes have.
fn count_words(bytes: &[u8]) -> usize {
    let mut words = LineWords::of(bytes);
    for count in 0..bytes.len() {
        if words.next_word().is_none() {
            return count;
        }
    }
    bytes.len()
}

/// What the hint of a line speaks of.
fn marked_of(line: &[u8], mark: Mark) -> Marked<'_> {
    let mut words = LineWords::of(line);
    let verb = match words.next_word() {
        Some(first) => verb_of(first),
        None => None,
    };
    Marked {
        verb,
        second: words.next_word().unwrap_or(&[]),
        word: marked(line, mark),
        place: count_words(&line[..mark.start.min(line.len())]),
        is_last: line.len().saturating_sub(mark.start) <= mark.length,
    }
}

/// The hint of a fault, behind what the text has.
fn append_hint(
    text: &mut String,
    bytes: &[u8],
    fault: &Fault,
    colour: bool,
) -> Result<(), NoMemory> {
    let context = Context::before(bytes, fault.line);
    match (line_of(bytes, fault.line), fault.mark) {
        (Some(line), Some(mark)) => {
            append_frame(text, colour, fault.line, line, mark)?;
            append_cause(text, fault.kind, &marked_of(line, mark), &context)?;
        }
        _ => {
            text.push_str("  = ")?;
            append_cause_at_end(text, fault.kind, &context)?;
        }
    }
    append_end(text, colour)
}

/// The hint of a script that is refused, where its setups have so many hooks to take; with colour, where that is asked for. It is
/// empty where the script isn't refused.
///
/// The line and the column are those of `fault_of`. There is no condition. Takes memory for what is read, and for the text; where
/// there is none: `NoMemory`. The words are this project's own.
pub fn script_hint(
    alloc: Global,
    bytes: &[u8],
    hooks: u32,
    colour: bool,
) -> Result<String, NoMemory> {
    let found = fault_of(alloc, bytes, hooks)?;
    let mut text = String::new(alloc);
    if let Some(fault) = found {
        append_hint(&mut text, bytes, &fault, colour)?;
    }
    Ok(text)
}
