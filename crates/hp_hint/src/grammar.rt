//! The forms of lines in words, and what each of their words is.

use crate::verb::{Verb, file_of};
use hp_event::File;
use hp_states::{MAX_EVENTS, NoMemory};
use hp_text::OpWord;
use std::fmt::Write;

const NAME: &str = "NAME is 1 to 32 letters, digits and any of : _ / . -";

const CPU: &str = "C is a processor, a number from 0 to 4095";

const STATE: &str = "S is a state, a number from 0 to 65535";

const TARGET: &str =
    "V is the number of the state to go to, 0 to 200; any from -2147483648 to 2147483647 is read";

const FAIL: &str =
    "V is the number of the state that is to fail, 0 to 200, or -1 for none; any from -2147483648 to 2147483647 is read";

const FLAGS: &str = "FLAGS is nothing, nocalls, locked, or nocalls locked in this order";

/// What a word of a line is.
#[derive(Clone, Copy)]
pub enum Meaning {
    /// As these words say.
    Words(&'static str),
    /// Of which call a rule speaks: there may be as many as events.
    Call,
}

impl Meaning {
    /// Says it behind what the text has. Takes memory for it; where there is none: `NoMemory`.
    pub fn append(self, text: &mut String) -> Result<(), NoMemory> {
        match self {
            Meaning::Words(words) => text.push_str(words)?,
            Meaning::Call => write!(text, "NTH is a number from 1 to {MAX_EVENTS}, or * for any")?,
        }
        Ok(())
    }
}

/// The form of a line with this first word and, of `show` and `schedule`, this second one. Takes no memory.
pub fn form_of(verb: Verb, second: &[u8]) -> &'static str {
    match verb {
        Verb::Cpus => "cpus N",
        Verb::Absent => "absent C C ..",
        Verb::Sub => "sub NAME CALLS KIND",
        Verb::Rule => "rule DIR CPU INST NTH CODE",
        Verb::Schedule => schedule_form(second),
        Verb::Actor => "actor NAME",
        Verb::Operation(first) => operation_form(first, second),
    }
}

fn schedule_form(second: &[u8]) -> &'static str {
    if second == b"rounds".as_slice() {
        return "schedule rounds";
    }
    if second == b"turns".as_slice() {
        return "schedule turns S S ..";
    }
    if second == b"mix".as_slice() {
        return "schedule mix SEED N";
    }
    "schedule rounds, schedule turns S S .. or schedule mix SEED N"
}

fn operation_form(first: OpWord, second: &[u8]) -> &'static str {
    match first {
        OpWord::Up => "up C",
        OpWord::Down => "down C",
        OpWord::Target => "target C V",
        OpWord::Fail => "fail C V",
        OpWord::Show => show_form(second),
        OpWord::Setup => "setup S SUB FLAGS",
        OpWord::Remove => "remove S FLAGS",
        OpWord::Add => "add S I FLAGS",
        OpWord::Del => "del S I FLAGS",
        OpWord::Lock => "lock",
        OpWord::Unlock => "unlock",
        OpWord::Boot => "boot N",
        OpWord::Disable => "disable",
        OpWord::Enable => "enable",
        OpWord::Freeze => "freeze P",
        OpWord::Thaw => "thaw",
        OpWord::Wakeup => "wakeup",
        OpWord::UpMany => "upmany C C ..",
    }
}

fn show_form(second: &[u8]) -> &'static str {
    match file_of(second) {
        Some(File::State) => "show state C",
        Some(File::Target) => "show target C",
        Some(File::Fail) => "show fail C",
        Some(File::States) => "show states",
        None => "show state C, show target C, show fail C or show states",
    }
}

/// What the word at this place of such a line is, counted from 1 behind the first word; none where no word stands there. Takes
/// no memory.
pub fn meaning_of(verb: Verb, second: &[u8], place: usize) -> Option<Meaning> {
    match verb {
        Verb::Cpus => at(
            place,
            &["N is how many processors there may be, a number from 1 to 256"],
        ),
        Verb::Absent => Some(Meaning::Words(
            "each C is a number above the one before it, from 1 to the last possible processor",
        )),
        Verb::Sub => at(
            place,
            &[
                "NAME is 1 to 32 letters, digits and any of : _ / . -, or a dash for none",
                "CALLS is both, up, down or none",
                "KIND is single or multi",
            ],
        ),
        Verb::Rule => rule_meaning(place),
        Verb::Schedule => schedule_meaning(second, place),
        Verb::Actor => at(place, &[NAME]),
        Verb::Operation(first) => operation_meaning(first, second, place),
    }
}

/// The text at a place, counted from 1.
fn at(place: usize, texts: &[&'static str]) -> Option<Meaning> {
    if place == 0 || place > texts.len() {
        return None;
    }
    Some(Meaning::Words(texts[place - 1]))
}

fn rule_meaning(place: usize) -> Option<Meaning> {
    match place {
        1 => Some(Meaning::Words("DIR is up or down")),
        2 => Some(Meaning::Words("CPU is a number from 0 to 255, or * for any")),
        3 => Some(Meaning::Words("INST is a number from 0 to 65535, or * for any")),
        4 => Some(Meaning::Call),
        5 => Some(Meaning::Words("CODE is a number from 1 to 4095")),
        _ => None,
    }
}

fn schedule_meaning(second: &[u8], place: usize) -> Option<Meaning> {
    if place == 1 {
        return Some(Meaning::Words("this word is rounds, turns or mix"));
    }
    if second == b"turns".as_slice() {
        return Some(Meaning::Words("each S is a seat, a number from 0 to 319"));
    }
    if second == b"mix".as_slice() {
        return at(
            place.saturating_sub(1),
            &[
                "SEED is a number from 0 to 18446744073709551615",
                "N is how many turns are drawn, a number from 0 to 1000000",
            ],
        );
    }
    None
}

fn operation_meaning(first: OpWord, second: &[u8], place: usize) -> Option<Meaning> {
    match first {
        OpWord::Up | OpWord::Down => at(place, &[CPU]),
        OpWord::Target => at(place, &[CPU, TARGET]),
        OpWord::Fail => at(place, &[CPU, FAIL]),
        OpWord::Show => show_meaning(second, place),
        OpWord::Setup => at(
            place,
            &[
                STATE,
                "SUB is the number of a sub line, from 1 to 128",
                FLAGS,
                FLAGS,
            ],
        ),
        OpWord::Remove => at(place, &[STATE, FLAGS, FLAGS]),
        OpWord::Add | OpWord::Del => at(
            place,
            &[
                STATE,
                "I is an instance, a number from 0 to 65535",
                FLAGS,
                FLAGS,
            ],
        ),
        OpWord::Boot => at(
            place,
            &["N is how many are to be online, a number from 0 to 4095"],
        ),
        OpWord::Freeze => at(
            place,
            &["P is the processor that stays, or -1 for the lowest one, a number from -1 to 4095"],
        ),
        OpWord::UpMany => Some(Meaning::Words(
            "each C is a number above the one before it, from 0 to 255",
        )),
        OpWord::Lock
        | OpWord::Unlock
        | OpWord::Disable
        | OpWord::Enable
        | OpWord::Thaw
        | OpWord::Wakeup => None,
    }
}

fn show_meaning(second: &[u8], place: usize) -> Option<Meaning> {
    if place == 1 {
        return Some(Meaning::Words("this word is state, target, fail or states"));
    }
    match file_of(second) {
        Some(File::State | File::Target | File::Fail) => at(place.saturating_sub(1), &[CPU]),
        _ => None,
    }
}

/// Where a line of this first word may stand. Takes no memory.
pub fn order_of(verb: Verb) -> &'static str {
    match verb {
        Verb::Cpus => "cpus stands once, as the first line",
        Verb::Absent => "absent stands once, right behind cpus",
        Verb::Sub => "sub lines stand before schedule and before the first actor",
        Verb::Rule => "a rule stands behind the sub line that it is of",
        Verb::Schedule => "schedule stands once, before the first actor",
        Verb::Actor => "an actor stands behind cpus",
        Verb::Operation(_) => "an operation stands behind the actor line that it is of",
    }
}

/// What there can't be more of, but for setups. Takes no memory.
pub fn limit_of(verb: Verb) -> &'static str {
    match verb {
        Verb::Sub => "there are 128 sub lines already, and no more may be",
        Verb::Rule => "this sub has 8 rules already, and no more may be",
        Verb::Actor => "there are 32 actors already, and no more may be",
        _ => "this actor has 4096 operations already, and no more may be",
    }
}
