//! How far the words of a line are those of its form, or those of one whose numbers are in their ranges too: which of both,
//! the measure says.
//!
//! Each function answers how many of the words go on to the form: with the next one, where there is one, nothing that stands
//! behind makes them a line of it. The words are as few as those of a line.

ghost use Rattle.std.specs.Prelude.{◌≡◌, ◌<◌, ◌≤◌, true, Some, [], ◌∷◌};
ghost use Rattle.std.specs.List.{list_all};
ghost use Rattle.hp_hint.specs.Forms.{IsGood, AreFew, ends, locked_or_none, are_fields, are_several, fits, risen, can_rise};
ghost use Rattle.hp_hint.specs.LineForms.{shown_form, show_form, schedule_form, op_form, line_form, has_lines};

use crate::field::Field;
use crate::measure::Measure;
use crate::rising::good_above;
use crate::verb::{Verb, file_of};
use hp_event::File;
use hp_states::MAX_CPU_SET;
use hp_text::{OpWord, Words};

/// What may stand behind the fields of a line.
#[derive(Clone, Copy)]
pub enum Ending {
    /// Nothing.
    Nothing,
    /// No flag, `nocalls`, `locked`, or both in this order.
    Flags,
    /// One word or more, each of this field.
    Several(Field),
}

/// The flag `locked`, or nothing.
fn good_locked<'a, W: Words<'a>>(words: &mut W) -> usize
    requires { AreFew (W.left words.old) }
    ensures { IsGood locked_or_none (W.left words.old) result }
{
    let Some(word) = words.next_word() else {
        return 0;
    };
    if word == b"locked".as_slice() { 1 } else { 0 }
}

fn good_flags<'a, W: Words<'a>>(measure: Measure, words: &mut W) -> usize
    requires { AreFew (W.left words.old) }
    ensures { IsGood (ends measure Ending.Flags) (W.left words.old) result }
{
    let Some(first) = words.next_word() else {
        return 0;
    };
    if first == b"locked".as_slice() {
        return 1;
    }
    if first == b"nocalls".as_slice() {
        return 1 + good_locked(words);
    }
    0
}

/// Any number of words, each of a field.
fn good_more<'a, W: Words<'a>>(measure: Measure, field: Field, words: &mut W) -> usize
    requires { AreFew (W.left words.old) }
    ensures { IsGood (list_all (fits measure field)) (W.left words.old) result }
{
    let mut good: usize = 0;
    while let Some(word) = words.next_word() {
        if !field.fits(measure, word) {
            return good;
        }
        good += 1;
    }
    good
}

/// One word or more, each of a field.
fn good_several<'a, W: Words<'a>>(measure: Measure, field: Field, words: &mut W) -> usize
    requires { AreFew (W.left words.old) }
    ensures { IsGood (are_several measure field) (W.left words.old) result }
{
    let Some(first) = words.next_word() else {
        return 0;
    };
    if !field.fits(measure, first) {
        return 0;
    }
    1 + good_more(measure, field, words)
}

/// Numbers of which each is above the one before it, from `low` to below a limit.
fn good_rising<'a, W: Words<'a>>(measure: Measure, low: u32, limit: u32, words: &mut W) -> usize
    requires few { AreFew (W.left words.old) }
    requires low { low ≤ 1 }
    requires some { can_rise measure limit ≡ true }
    ensures { IsGood (risen measure low limit) (W.left words.old) result }
{
    match measure {
        Measure::Form => good_several(measure, Field::Cpu, words),
        Measure::Ranges(_) => good_above(low, limit, words),
    }
}

fn good_ending<'a, W: Words<'a>>(measure: Measure, ending: Ending, words: &mut W) -> usize
    requires { AreFew (W.left words.old) }
    ensures { IsGood (ends measure ending) (W.left words.old) result }
{
    match ending {
        Ending::Nothing => 0,
        Ending::Flags => good_flags(measure, words),
        Ending::Several(field) => good_several(measure, field, words),
    }
}

/// A word for each field, and then such an ending.
fn good_fields<'a, W: Words<'a>>(
    measure: Measure,
    fields: &[Field],
    ending: Ending,
    words: &mut W,
) -> usize
    requires { AreFew (W.left words.old) }
    ensures { IsGood (are_fields measure fields.now ending) (W.left words.old) result }
{
    let mut good: usize = 0;
    for field in fields {
        let Some(word) = words.next_word() else {
            return good;
        };
        if !field.fits(measure, word) {
            return good;
        }
        good += 1;
    }
    good + good_ending(measure, ending, words)
}

/// The words behind the name of a file that is shown.
fn good_shown<'a, W: Words<'a>>(measure: Measure, file: File, words: &mut W) -> usize
    requires { AreFew (W.left words.old) }
    ensures { IsGood (shown_form measure (Some file)) (W.left words.old) result }
{
    match file {
        File::States => 0,
        File::State | File::Target | File::Fail => {
            good_fields(measure, &[Field::Cpu], Ending::Nothing, words)
        }
    }
}

/// The words behind `show`.
fn good_show<'a, W: Words<'a>>(measure: Measure, words: &mut W) -> usize
    requires { AreFew (W.left words.old) }
    ensures { IsGood (show_form measure) (W.left words.old) result }
{
    let Some(name) = words.next_word() else {
        return 0;
    };
    match file_of(name) {
        Some(file) => 1 + good_shown(measure, file, words),
        None => 0,
    }
}

/// The words behind `schedule`.
fn good_schedule<'a, W: Words<'a>>(measure: Measure, words: &mut W) -> usize
    requires { AreFew (W.left words.old) }
    ensures { IsGood (schedule_form measure) (W.left words.old) result }
{
    let Some(name) = words.next_word() else {
        return 0;
    };
    if name == b"rounds".as_slice() {
        return 1;
    }
    if name == b"turns".as_slice() {
        return 1 + good_several(measure, Field::Seat, words);
    }
    if name == b"mix".as_slice() {
        return 1
            + good_fields(
                measure,
                &[Field::Seed, Field::Turns],
                Ending::Nothing,
                words,
            );
    }
    0
}

/// The words behind the first one of an operation.
fn good_operation<'a, W: Words<'a>>(measure: Measure, first: OpWord, words: &mut W) -> usize
    requires { AreFew (W.left words.old) }
    ensures { IsGood (op_form measure first) (W.left words.old) result }
{
    match first {
        OpWord::Up | OpWord::Down | OpWord::Boot => {
            good_fields(measure, &[Field::Cpu], Ending::Nothing, words)
        }
        OpWord::Target | OpWord::Fail => good_fields(
            measure,
            &[Field::Cpu, Field::Value],
            Ending::Nothing,
            words,
        ),
        OpWord::Show => good_show(measure, words),
        OpWord::Setup => good_fields(measure, &[Field::State, Field::Sub], Ending::Flags, words),
        OpWord::Add | OpWord::Del => good_fields(
            measure,
            &[Field::State, Field::Instance],
            Ending::Flags,
            words,
        ),
        OpWord::Remove => good_fields(measure, &[Field::State], Ending::Flags, words),
        OpWord::Freeze => good_fields(measure, &[Field::Primary], Ending::Nothing, words),
        OpWord::UpMany => good_rising(measure, 0, MAX_CPU_SET, words),
        OpWord::Lock
        | OpWord::Unlock
        | OpWord::Disable
        | OpWord::Enable
        | OpWord::Thaw
        | OpWord::Wakeup => 0,
    }
}

/// The words behind the first one of a line.
///
/// Of `absent`, where ranges are asked, two processors or more are possible.
pub fn good_words<'a, W: Words<'a>>(measure: Measure, verb: Verb, words: &mut W) -> usize
    requires few { AreFew (W.left words.old) }
    requires some { has_lines measure verb ≡ true }
    ensures { IsGood (line_form measure verb) (W.left words.old) result }
{
    match verb {
        Verb::Cpus => good_fields(measure, &[Field::Possible], Ending::Nothing, words),
        Verb::Absent => good_rising(measure, 1, measure.possible(), words),
        Verb::Sub => good_fields(
            measure,
            &[Field::Name, Field::Calls, Field::Kind],
            Ending::Nothing,
            words,
        ),
        Verb::Rule => good_fields(
            measure,
            &[
                Field::Dir,
                Field::RuleCpu,
                Field::RuleInstance,
                Field::RuleCall,
                Field::Code,
            ],
            Ending::Nothing,
            words,
        ),
        Verb::Schedule => good_schedule(measure, words),
        Verb::Actor => good_fields(measure, &[Field::Label], Ending::Nothing, words),
        Verb::Operation(first) => good_operation(measure, first, words),
    }
}
