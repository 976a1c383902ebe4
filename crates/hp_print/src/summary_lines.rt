//! The summary of a journal.

ghost use Rattle.std.specs.Prelude.{◌≡◌, ◌+◌, ◌<◌, ◌++◌, ◌∷◌, OnOk, IfOk, length, decimal};
ghost use Rattle.std.specs.List.{flat_map};
ghost use Rattle.hp_model.specs.Words.{line, spaced};
ghost use Rattle.hp_model.specs.Summary.{presence_word, name_of as name_of_sub, summary as summary_of};
ghost use Rattle.hp_print.specs.TallyText.{key_text, cpu_words, cpu_text, cpus_text, disabled_text, frozen_word, frozen_text, sub_text, subs_text, ops_text, events_text, tally_text, keys_words, each_frozen, frozen_words, sub_line, list_ended, text_and_summary};
ghost use Rattle.hp_print.specs.Appends.{Appends};

use crate::answer_counts::AnswerCounts;
use crate::journal::append_journal;
use crate::keys::KeyCount;
use crate::processor_tally::ProcessorTally;
use crate::state_tally::StateTally;
use crate::tally::{Tally, tally_of};
use hp_event::{Head, Journal};
use hp_states::{NoMemory, ONLINE};
use hp_text::{
    append, append_behind_dot, append_count, append_name, append_number, append_numbers, end_line,
};
use std::alloc::{AllocError, Global};

/// Appends a word and a count, behind a space.
fn append_count_of(out: &mut Vec<u8>, word: &[u8], count: usize) -> Result<(), AllocError>
    ensures { OnOk result (Appends out.old out.new (word.now ++ 32 ∷ decimal count)) }
{
    append(out, word)?;
    append_count(out, count)
}

/// Appends a dash where nothing was appended since the buffer had this length.
fn end_list(out: &mut Vec<u8>, start: usize) -> Result<(), AllocError>
    ensures { OnOk result (out.new.items ≡ list_ended start out.old.items) }
{
    if out.len() == start {
        append(out, b" -")
    } else {
        Ok(())
    }
}

/// Appends a key where it counts as in force.
fn append_key(out: &mut Vec<u8>, count: &KeyCount) -> Result<(), AllocError>
    ensures { OnOk result (Appends out.old out.new (key_text count.now)) }
{
    if count.downs >= count.ups {
        return Ok(());
    }
    append_number(out, count.key.state)?;
    append_behind_dot(out, count.key.inst)
}

/// Appends the keys that count as in force.
fn append_each_key(out: &mut Vec<u8>, counts: &[KeyCount]) -> Result<(), AllocError>
    ensures { OnOk result (Appends out.old out.new (flat_map key_text counts.now)) }
{
    for count in counts {
        append_key(out, count)?;
    }
    Ok(())
}

/// Appends the keys that count as in force, or a dash.
fn append_keys(out: &mut Vec<u8>, counts: &[KeyCount]) -> Result<(), AllocError>
    ensures { OnOk result (Appends out.old out.new (spaced (keys_words counts.now))) }
{
    let start = out.len();
    append_each_key(out, counts)?;
    end_list(out, start)?;
    Ok(())
}

/// Appends whether a processor is present.
fn append_presence(out: &mut Vec<u8>, present: bool) -> Result<(), AllocError>
    ensures { OnOk result (Appends out.old out.new (32 ∷ presence_word present)) }
{
    if present {
        append(out, b" present")
    } else {
        append(out, b" absent")
    }
}

/// Appends the line of a processor.
fn append_cpu(
    out: &mut Vec<u8>,
    cpu: u32,
    present: bool,
    settled: u32,
    counts: &[KeyCount],
) -> Result<(), AllocError>
    ensures { OnOk result (Appends out.old out.new (line (cpu_words cpu present settled counts.now))) }
{
    append(out, b"cpu")?;
    append_number(out, cpu)?;
    append_presence(out, present)?;
    append(out, b" state")?;
    append_number(out, settled)?;
    append(out, b" keys")?;
    append_keys(out, counts)?;
    end_line(out)
}

/// Appends a line for each processor.
#[tactic(auto, unfolding(crate::specs::TallyText::cpus_text))]
fn append_cpus(
    out: &mut Vec<u8>,
    head: &Head,
    processors: &ProcessorTally,
) -> Result<(), AllocError>
    requires settled { length processors.now.settled.items ≡ head.now.possible }
    requires keys { length processors.now.keys.items ≡ head.now.possible }
    ensures { OnOk result (Appends out.old out.new (cpus_text head.now processors.now)) }
{
    for cpu in 0..head.possible {
        append_cpu_of(out, head, processors, cpu)?;
    }
    Ok(())
}

/// Appends the line of a processor as it is tallied.
#[tactic(auto, unfolding(crate::specs::TallyText::cpu_text))]
fn append_cpu_of(
    out: &mut Vec<u8>,
    head: &Head,
    processors: &ProcessorTally,
    cpu: u32,
) -> Result<(), AllocError>
    requires possible { cpu < head.now.possible }
    requires settled { length processors.now.settled.items ≡ head.now.possible }
    requires keys { length processors.now.keys.items ≡ head.now.possible }
    ensures { OnOk result (Appends out.old out.new (cpu_text head.now processors.now cpu)) }
{
    let present = head.is_present(cpu);
    let settled = processors.settled[cpu as usize];
    append_cpu(
        out,
        cpu,
        present,
        settled,
        processors.keys[cpu as usize].as_slice(),
    )
}

/// Appends how often hotplug is disabled.
#[tactic(auto, unfolding(crate::specs::TallyText::disabled_text))]
fn append_disabled(out: &mut Vec<u8>, disabled: usize) -> Result<(), AllocError>
    ensures { OnOk result (Appends out.old out.new (disabled_text disabled)) }
{
    append_count_of(out, b"disabled", disabled)?;
    end_line(out)
}

/// Appends a processor where it is frozen.
fn append_if_frozen(out: &mut Vec<u8>, frozen: &[u32], cpu: u32) -> Result<(), AllocError>
    ensures { OnOk result (Appends out.old out.new (frozen_word frozen.now cpu)) }
{
    if frozen.contains(&cpu) {
        append_number(out, cpu)
    } else {
        Ok(())
    }
}

/// Appends the processors that are frozen, in rising number.
fn append_each_frozen(out: &mut Vec<u8>, frozen: &[u32], possible: u32) -> Result<(), AllocError>
    ensures { OnOk result (Appends out.old out.new (each_frozen possible frozen.now)) }
{
    for cpu in 0..possible {
        append_if_frozen(out, frozen, cpu)?;
    }
    Ok(())
}

/// Appends the processors that are frozen, in rising number, or a dash.
fn append_frozen_list(out: &mut Vec<u8>, frozen: &[u32], possible: u32) -> Result<(), AllocError>
    ensures { OnOk result (Appends out.old out.new (spaced (frozen_words possible frozen.now))) }
{
    let start = out.len();
    append_each_frozen(out, frozen, possible)?;
    end_list(out, start)?;
    Ok(())
}

/// Appends the line of the frozen processors.
#[tactic(auto, unfolding(crate::specs::TallyText::frozen_text))]
fn append_frozen(out: &mut Vec<u8>, frozen: &[u32], possible: u32) -> Result<(), AllocError>
    ensures { OnOk result (Appends out.old out.new (frozen_text possible frozen.now)) }
{
    append(out, b"frozen")?;
    append_frozen_list(out, frozen, possible)?;
    end_line(out)
}

/// Appends the line of a state that is registered.
fn append_registered(
    out: &mut Vec<u8>,
    state: u32,
    name: &[u8],
    made: usize,
    faults: usize,
    insts: &[u32],
) -> Result<(), AllocError>
    ensures { OnOk result (Appends out.old out.new (sub_line state name.now made faults insts.now)) }
{
    append(out, b"sub")?;
    append_number(out, state)?;
    append_name(out, name)?;
    append_count_of(out, b" made", made)?;
    append_count_of(out, b" faults", faults)?;
    append(out, b" instances")?;
    append_numbers(out, insts)?;
    end_line(out)
}

/// The name of a subsystem, numbered from 1; empty where there is none of that number.
pub fn name_of(head: &Head, number: u32) -> &[u8]
    ensures { result.now ≡ name_of_sub head.now number }
{
    match head.sub(number) {
        Some(sub) => sub.name.as_slice(),
        None => &[],
    }
}

/// Appends the line of a state, where it is registered.
#[tactic(auto, unfolding(crate::specs::TallyText::sub_text))]
fn append_state(
    out: &mut Vec<u8>,
    head: &Head,
    states: &StateTally,
    state: u32,
) -> Result<(), AllocError>
    requires subs { state < length states.now.subs.items }
    requires insts { state < length states.now.insts.items }
    requires made { state < length states.now.made.items }
    requires faults { state < length states.now.faults.items }
    ensures { OnOk result (Appends out.old out.new (sub_text head.now states.now state)) }
{
    let at = state as usize;
    match states.subs[at] {
        None => Ok(()),
        Some(sub) => append_registered(
            out,
            state,
            name_of(head, sub),
            states.made[at],
            states.faults[at],
            states.insts[at].as_slice(),
        ),
    }
}

/// Appends a line for each of the states below a number that is registered.
#[tactic(auto, unfolding(crate::specs::TallyText::subs_text))]
fn append_states(
    out: &mut Vec<u8>,
    head: &Head,
    states: &StateTally,
    many: u32,
) -> Result<(), AllocError>
    requires subs { length states.now.subs.items ≡ many }
    requires insts { length states.now.insts.items ≡ many }
    requires made { length states.now.made.items ≡ many }
    requires faults { length states.now.faults.items ≡ many }
    ensures { OnOk result (Appends out.old out.new (subs_text head.now states.now many)) }
{
    for state in 0..many {
        append_state(out, head, states, state)?;
    }
    Ok(())
}

/// Appends how operations were answered.
#[tactic(auto, unfolding(crate::specs::TallyText::ops_text))]
fn append_ops(out: &mut Vec<u8>, answers: &AnswerCounts) -> Result<(), AllocError>
    ensures { OnOk result (Appends out.old out.new (ops_text answers.now)) }
{
    append_count_of(out, b"ops ok", answers.ok)?;
    append_count_of(out, b" refused", answers.refused)?;
    append_count_of(out, b" fault", answers.fault)?;
    append_count_of(out, b" stuck", answers.stuck)?;
    append_count_of(out, b" full", answers.full)?;
    end_line(out)
}

/// Appends the number of events.
#[tactic(auto, unfolding(crate::specs::TallyText::events_text))]
fn append_event_count(out: &mut Vec<u8>, count: usize) -> Result<(), AllocError>
    ensures { OnOk result (Appends out.old out.new (events_text count)) }
{
    append_count_of(out, b"events", count)?;
    end_line(out)
}

/// Appends the summary that a tally makes.
#[tactic(auto, unfolding(crate::specs::TallyText::tally_text))]
fn append_tally(
    out: &mut Vec<u8>,
    head: &Head,
    tally: &Tally,
    count: usize,
) -> Result<(), AllocError>
    requires settled { length tally.now.processors.settled.items ≡ head.now.possible }
    requires keys { length tally.now.processors.keys.items ≡ head.now.possible }
    requires subs { length tally.now.states.subs.items ≡ ONLINE + 1 }
    requires insts { length tally.now.states.insts.items ≡ ONLINE + 1 }
    requires made { length tally.now.states.made.items ≡ ONLINE + 1 }
    requires faults { length tally.now.states.faults.items ≡ ONLINE + 1 }
    ensures { OnOk result (Appends out.old out.new (tally_text head.now tally.now count)) }
{
    append_cpus(out, head, &tally.processors)?;
    append_disabled(out, tally.suspended.disabled)?;
    append_frozen(out, tally.suspended.frozen.as_slice(), head.possible)?;
    append_states(out, head, &tally.states, ONLINE + 1)?;
    append_ops(out, &tally.answers)?;
    append_event_count(out, count)
}

/// Appends the summary of a journal.
fn append_summary(alloc: Global, out: &mut Vec<u8>, journal: &Journal) -> Result<(), AllocError>
    ensures { OnOk result (Appends out.old out.new (summary_of journal.now.head journal.now.events)) }
{
    let tally = tally_of(alloc, journal.head(), journal.events())?;
    append_tally(out, journal.head(), &tally, journal.events().len())
}

/// The summary of a journal: where its processors stand and which callbacks are in force there,
/// what is registered, and how the operations were answered.
///
/// The journal may be in flight: a registration in flight isn't registered, and a walk in flight
/// leaves the settled state at its start. Takes memory for the text and for a tally of the journal;
/// where it is wanting the answer is `NoMemory`, and the journal is as before. The form of the
/// summary is this project's own.
pub fn summary(alloc: Global, journal: &Journal) -> Result<Vec<u8>, NoMemory>
    ensures { IfOk result (λ v. v.items ≡ summary_of journal.now.head journal.now.events) }
{
    let mut out = Vec::new(alloc);
    append_summary(alloc, &mut out, journal)?;
    Ok(out)
}

/// The text of a journal, and behind it its summary.
///
/// Takes memory as `journal_text` and `summary` do, but in one buffer; where it is wanting the
/// answer is `NoMemory`, and the journal is as before.
pub fn journal_and_summary(alloc: Global, journal: &Journal) -> Result<Vec<u8>, NoMemory>
    ensures { IfOk result (λ v. v.items ≡ text_and_summary journal.now.head journal.now.events) }
{
    let mut out = Vec::new(alloc);
    append_journal(&mut out, journal)?;
    append_summary(alloc, &mut out, journal)?;
    Ok(out)
}
