//! What is wrong with a line at its mark, in a few words.

use crate::context::Context;
use crate::grammar::{Meaning, form_of, limit_of, meaning_of, order_of};
use crate::verb::Verb;
use hp_script::ScriptKind;
use hp_states::{MAX_OPERATIONS, MAX_SCRIPT_BYTES, NoMemory};
use hp_text::OpWord;
use std::fmt::Write;

/// The most bytes of a word that a hint repeats.
const MAX_SHOWN: usize = 40;

/// What a hint speaks of: the line's first two words, and the word that is marked with its place among them.
#[derive(Clone, Copy)]
pub struct Marked<'a> {
    /// What kind of line it is, where its first word says one.
    pub verb: Option<Verb>,
    /// The second word, which may be empty.
    pub second: &'a [u8],
    /// The word that is marked; empty at the end of the line.
    pub word: &'a [u8],
    /// How many words stand before the mark.
    pub place: usize,
    /// Whether the mark ends the line.
    pub is_last: bool,
}

/// What is wrong with a script as a whole, or at its end.
pub fn append_cause_at_end(
    text: &mut String,
    kind: ScriptKind,
    context: &Context,
) -> Result<(), NoMemory> {
    match kind {
        ScriptKind::TooLong => write!(text, "a script has at most {MAX_SCRIPT_BYTES} bytes")?,
        ScriptKind::NoCpus => {
            text.push_str(
                "no line says anything; a script begins with cpus N, where N is 1 to 256",
            )?
        }
        ScriptKind::NoActor => text.push_str(
            "the script ends here without an actor: a line actor NAME is wanting, and its operations behind it",
        )?,
        _ => append_open_lock(text, "the script ends here", context)?,
    }
    Ok(())
}

/// Which lock is open.
fn append_open_lock(text: &mut String, place: &str, context: &Context) -> Result<(), NoMemory> {
    let line = context.open_lock;
    write!(
        text,
        "{place}, and the lock of line {line} is open: an unlock belongs before"
    )?;
    Ok(())
}

fn append_no_sub(text: &mut String, context: &Context) -> Result<(), NoMemory> {
    text.push_str("SUB is the number of a sub line, and ")?;
    match context.subs {
        0 => text.push_str("there is none")?,
        1 => text.push_str("there is one: 1")?,
        many => write!(text, "there are {many}: 1 to {many}")?,
    }
    Ok(())
}

/// What is wrong with a byte that no line may have.
fn cause_of_byte(byte: u8, is_last: bool) -> &'static str {
    match byte {
        b'\r' if is_last => "a carriage return: lines end with LF alone, not with CR LF",
        b'\r' => "a carriage return: lines end with LF",
        b'\t' => "a tab: words are parted by spaces",
        128..=255 => {
            "this byte isn't ASCII: a line, a comment too, has printable ASCII and spaces alone"
        }
        _ => "a control byte: a line, a comment too, has printable ASCII and spaces alone",
    }
}

/// A word as a hint repeats it: its first bytes, which are printable.
fn append_word(text: &mut String, word: &[u8]) -> Result<(), NoMemory> {
    for byte in word.iter().take(MAX_SHOWN) {
        text.push(char::from(*byte))?;
    }
    if word.len() > MAX_SHOWN {
        text.push_str("..")?;
    }
    Ok(())
}

/// What there can't be more of.
fn append_limit(text: &mut String, verb: Verb, context: &Context) -> Result<(), NoMemory> {
    let is_setup = matches!(verb, Verb::Operation(OpWord::Setup));
    if is_setup && context.ops < MAX_OPERATIONS {
        let setups = context.setups;
        write!(
            text,
            "there are {setups} setups already, in all actors together, and no more may be"
        )?;
        return Ok(());
    }
    text.push_str(limit_of(verb))?;
    Ok(())
}

/// Which processors may be absent.
fn append_absent_range(text: &mut String, context: &Context) -> Result<(), NoMemory> {
    let possible = context.possible;
    if possible <= 1 {
        text.push_str(": with cpus 1 no processor may be absent, since processor 0 is there")?;
        return Ok(());
    }
    let last = possible - 1;
    write!(
        text,
        ": each C is a number above the one before it, from 1 to {last}, the last of cpus {possible}"
    )?;
    Ok(())
}

/// What is wrong with a number that is out of its range.
fn append_range(
    text: &mut String,
    verb: Verb,
    at: &Marked<'_>,
    context: &Context,
) -> Result<(), NoMemory> {
    text.push_str("not ")?;
    append_word(text, at.word)?;
    if matches!(verb, Verb::Absent) {
        return append_absent_range(text, context);
    }
    text.push_str(": ")?;
    match meaning_of(verb, at.second, at.place) {
        Some(meaning) => meaning.append(text)?,
        None => text.push_str("out of its range")?,
    }
    Ok(())
}

/// Whether the word at this place of a line, counted from 1 behind the first one, may have a sign.
fn has_sign(verb: Verb, place: usize) -> bool {
    match verb {
        Verb::Operation(OpWord::Target | OpWord::Fail) => place == 2,
        Verb::Operation(OpWord::Freeze) => place == 1,
        _ => false,
    }
}

/// Why a word that begins as a number is none, where a number may have a sign or not.
fn no_number(word: &[u8], is_signed: bool) -> &'static str {
    match word {
        [b'0', b'0'..=b'9', ..] => " (a number has no zero before others)",
        [b'0', b'x' | b'X', ..] => " (a number is decimal)",
        [b'-', b'0'..=b'9', ..] if !is_signed => " (no sign belongs here)",
        [b'-', b'0', ..] => " (no zero stands behind a minus)",
        [b'+', b'0'..=b'9', ..] => " (a number has no plus)",
        _ => "",
    }
}

/// What a word that isn't of the form is told beside it.
fn append_misfit(
    text: &mut String,
    word: &[u8],
    is_signed: bool,
    meaning: Option<Meaning>,
) -> Result<(), NoMemory> {
    if word.is_empty() {
        text.push_str("a word is wanting")?;
    } else if word.first().copied() == Some(b'#') {
        text.push_str("a comment has a line of its own")?;
    } else if meaning.is_none() {
        append_word(text, word)?;
        text.push_str(" is a word too many")?;
    } else {
        text.push_str("not ")?;
        append_word(text, word)?;
        text.push_str(no_number(word, is_signed))?;
    }
    Ok(())
}

/// What is wrong with a line that isn't of its form.
fn append_form(text: &mut String, verb: Verb, at: &Marked<'_>) -> Result<(), NoMemory> {
    let meaning = meaning_of(verb, at.second, at.place);
    append_misfit(text, at.word, has_sign(verb, at.place), meaning)?;
    text.push_str(": the form is ")?;
    text.push_str(form_of(verb, at.second))?;
    if let Some(meaning) = meaning {
        text.push_str("; ")?;
        meaning.append(text)?;
    }
    Ok(())
}

/// What is wrong with a line of a verb.
fn append_cause_of(
    text: &mut String,
    kind: ScriptKind,
    verb: Verb,
    at: &Marked<'_>,
    context: &Context,
) -> Result<(), NoMemory> {
    match kind {
        ScriptKind::BadOrder => text.push_str(order_of(verb))?,
        ScriptKind::StillLocked => append_open_lock(text, "another actor begins", context)?,
        ScriptKind::NoSub => append_no_sub(text, context)?,
        ScriptKind::TooMany => append_limit(text, verb, context)?,
        ScriptKind::BadNumber => append_range(text, verb, at, context)?,
        _ => append_form(text, verb, at)?,
    }
    Ok(())
}

/// What is wrong with a line that is refused so.
///
/// There is no condition. Takes memory for the text; where there is none: `NoMemory`.
pub fn append_cause(
    text: &mut String,
    kind: ScriptKind,
    at: &Marked<'_>,
    context: &Context,
) -> Result<(), NoMemory> {
    if matches!(kind, ScriptKind::BadByte) {
        let byte = at.word.first().copied().unwrap_or(0);
        text.push_str(cause_of_byte(byte, at.is_last))?;
        return Ok(());
    }
    if matches!(kind, ScriptKind::NoCpus) {
        text.push_str(
            "the first line says how many processors there may be: cpus N, where N is 1 to 256",
        )?;
        return Ok(());
    }
    match at.verb {
        Some(verb) => append_cause_of(text, kind, verb, at, context),
        None => {
            text.push_str(
                "no line begins with this word; those that do are cpus, absent, sub, rule, schedule and actor, and of operations up, down, upmany, target, fail, show, setup, remove, add, del, lock, unlock, boot, disable, enable, freeze, thaw and wakeup",
            )?;
            Ok(())
        }
    }
}
