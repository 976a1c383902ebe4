//! The hint of a window that a journal hasn't.

use crate::words::LineWords;
use hp_states::NoMemory;
use hp_text::{Words, long_number};
use std::alloc::Global;

/// The most events that a picture shows.
const MAX_SHOWN: u64 = 20_000;

/// The number behind an option, as a word of its own or behind `=`.
fn number_of(option: &str, words: &[String]) -> Option<u64> {
    for at in 0..words.len() {
        let word = words[at].as_str();
        let value = if word == option {
            words.get(at + 1)?.as_str()
        } else {
            match word.strip_prefix(option) {
                Some(rest) => rest.strip_prefix('=')?,
                None => continue,
            }
        };
        return long_number(value.as_bytes()).ok();
    }
    None
}

/// How many events the journal has, by the line that was written: `error: 28 events: ..`.
fn events_in(written: &[u8]) -> Option<u64> {
    let mut words = LineWords::of(written);
    let _error = words.next_word();
    long_number(words.next_word()?).ok()
}

/// Why a journal of so many events has no window from one event to another, the ends that were asked for.
fn cause_of(
    alloc: Global,
    many: u64,
    from: Option<u64>,
    to: Option<u64>,
) -> Result<String, NoMemory> {
    let first = from.unwrap_or(1);
    let last = to.unwrap_or(many);
    if first == 0 {
        return Ok(String::from_str(alloc, "events are counted from 1, and --from is 0")?);
    }
    if last > many {
        return Ok(format!(in alloc; "the journal has {many} events, and --to is {last}")?);
    }
    if first > many {
        return Ok(format!(in alloc; "the journal has {many} events, and --from is {first}")?);
    }
    if first > last {
        return Ok(format!(in alloc; "no event is from {first} to {last}")?);
    }
    let shown = (last - first).saturating_add(1);
    if shown > MAX_SHOWN {
        return Ok(format!(in alloc;
            "from {first} to {last} are {shown} events, and a picture shows {MAX_SHOWN} at most"
        )?);
    }
    Ok(String::new(alloc))
}

/// What `hpview` says on standard error of a window that a journal hasn't, by its words and the first bytes of the line that it
/// wrote: which of its ends lies where no event is, or how many events it would show. Empty where the line doesn't say how many
/// events the journal has.
///
/// There is no condition. Takes memory; where that is wanting: `NoMemory`. The words are this project's own.
pub fn window_hint(alloc: Global, words: &[String], written: &[u8]) -> Result<String, NoMemory> {
    let Some(many) = events_in(written) else {
        return Ok(String::new(alloc));
    };
    cause_of(
        alloc,
        many,
        number_of("--from", words),
        number_of("--to", words),
    )
}
