//! An input with one of its lines changed, or a front of it, and what is said of that.

use crate::command::run;
use hp_edge::{BAD_JOURNAL, DONE};
use std::alloc::{AllocError, Global};

/// The lines of an input.
fn lines_of(alloc: Global, input: &str) -> Result<Vec<String>, AllocError> {
    let mut lines = Vec::new(alloc);
    for line in input.split('\n') {
        lines.push(String::from_str(alloc, line)?)?;
    }
    Ok(lines)
}

/// Changes the line of this number, counted from 1, in this way, if there is such a line and way.
fn change(
    alloc: Global,
    lines: &mut Vec<String>,
    way: &str,
    number: usize,
    text: &str,
) -> Result<bool, AllocError> {
    let at = number.wrapping_sub(1);
    if at >= lines.len() {
        return Ok(false);
    }
    match way {
        "instead" => lines[at] = String::from_str(alloc, text)?,
        "without" => {
            lines.remove(at);
        }
        "twice" => {
            let again = String::from_str(alloc, lines[at].as_str())?;
            lines.insert(at, again)?;
        }
        "swap" if number < lines.len() => lines.swap(at, number),
        _ => return Ok(false),
    }
    Ok(true)
}

/// The input with the line of a number changed in a way, if there is such a line and way.
fn changed(
    alloc: Global,
    input: &str,
    way: &str,
    number: usize,
    text: &str,
) -> Result<Option<String>, AllocError> {
    let mut lines = lines_of(alloc, input)?;
    if change(alloc, &mut lines, way, number, text)? {
        Ok(Some(lines.join(alloc, "\n")?))
    } else {
        Ok(None)
    }
}

/// Whether the command of these words says `LINE KIND` of an input; where the kind is `accepted`, whether it accepts it, and
/// where it is `refused`, whether it refuses it, at whatever line.
fn says(
    alloc: Global,
    words: &str,
    input: &[u8],
    line: &str,
    kind: &str,
) -> Result<bool, AllocError> {
    let (status, output) = run(alloc, words, input)?;
    match kind {
        "accepted" => return Ok(status == DONE),
        "refused" => return Ok(status == BAD_JOURNAL),
        _ => {}
    }
    let wanted = format!(in alloc; "error: line {line}: {kind}\n")?;
    Ok(status == BAD_JOURNAL && output.as_slice() == wanted.as_bytes())
}

/// Whether it says so of each front of the input that has FROM to TO bytes; these words are `FROM TO LINE KIND`.
fn is_said_of_fronts(
    alloc: Global,
    words: &str,
    input: &[u8],
    fronts: &str,
) -> Result<bool, AllocError> {
    let mut parts = fronts.splitn(4, ' ');
    let (Some(from), Some(to), Some(line), Some(kind)) = (
        parts.next(),
        parts.next(),
        parts.next(),
        parts.next(),
    ) else {
        return Ok(false);
    };
    let (Ok(from), Ok(to)) = (from.parse::<usize>(), to.parse::<usize>()) else {
        return Ok(false);
    };
    if from > to || to > input.len() {
        return Ok(false);
    }
    for length in from..to.saturating_add(1) {
        let front = &input[..length.min(input.len())];
        if !says(alloc, words, front, line, kind)? {
            return Ok(false);
        }
    }
    Ok(true)
}

/// Whether the command of these words says what a line of a change wants of the input with that change: `LINE KIND`, or
/// `0 accepted`.
///
/// A line of a change is `WAY NUMBER LINE KIND TEXT`. The way is `instead`, of the text in place of the line; `without` and
/// `twice`, of that line; or `swap`, of it and the next. A line `front FROM TO LINE KIND` wants so of each front of the input
/// that has FROM to TO bytes.
pub fn is_said(alloc: Global, words: &str, input: &str, change: &str) -> Result<bool, AllocError> {
    if let Some(fronts) = change.strip_prefix("front ") {
        return is_said_of_fronts(alloc, words, input.as_bytes(), fronts);
    }
    let mut parts = change.splitn(5, ' ');
    let (Some(way), Some(number), Some(line), Some(kind)) = (
        parts.next(),
        parts.next(),
        parts.next(),
        parts.next(),
    ) else {
        return Ok(false);
    };
    let text = parts.next().unwrap_or("");
    let Ok(number) = number.parse::<usize>() else {
        return Ok(false);
    };
    let Some(input) = changed(alloc, input, way, number, text)? else {
        return Ok(false);
    };
    says(alloc, words, input.as_bytes(), line, kind)
}
