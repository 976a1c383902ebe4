//! What the lines before the events say.

ghost use Rattle.std.specs.Prelude.{◌≡◌, IfOk};
ghost use Rattle.hp_replay.specs.HeadLines.{cpus_tail, cpus_at, absent_tail, absent_at, sub_tail, rule_tail, the_events, head_line_at};
ghost use Rattle.hp_replay.specs.Readers.{done};

use crate::line::Line;
use crate::versions::most_cpus;
use crate::words::Words;
use hp_event::{Numbers, Sub, Version};
use hp_states::{NoMemory, Rule};
use hp_text::{number_from, number_list_or_dash, rise_from, rule, sub};
use std::alloc::Global;

/// What a line behind those of the processors says.
#[derive(Drop)]
pub enum HeadLine {
    /// A subsystem, as yet without rules.
    Sub(Sub),
    /// A rule of the subsystem above it.
    Rule(Rule),
    /// The events follow.
    Events,
}

/// The words behind `cpus`.
fn possible(version: Version, words: &mut Words<'_>) -> Option<u32>
    ensures { result ≡ cpus_tail version words.old }
{
    let Some(word) = words.next() else {
        return None;
    };
    words.done(())?;
    number_from(1, most_cpus(version) as u64 + 1, word).ok()
}

/// How many processors are possible, as a line says in a version.
#[tactic(auto, unfolding(crate::specs::HeadLines::cpus_at))]
pub fn cpus(version: Version, line: &Line<'_>) -> Option<u32>
    ensures { result ≡ cpus_at version line.now.bytes.now }
{
    let mut words = line.words()?;
    if words.next()? == b"cpus".as_slice() {
        return possible(version, &mut words);
    }
    None
}

/// The words behind `absent`.
fn absent_words(
    alloc: Global,
    possible: u32,
    words: &mut Words<'_>,
) -> Result<Option<Numbers>, NoMemory>
    ensures { IfOk result (λ o. o ≡ absent_tail possible words.old) }
{
    let Ok(absent) = number_list_or_dash(alloc, words)? else {
        return Ok(None);
    };
    if rise_from(1, possible, absent.as_slice()) {
        Ok(Some(absent))
    } else {
        Ok(None)
    }
}

/// Which of the possible processors are absent, as a line says.
#[tactic(auto, unfolding(crate::specs::HeadLines::absent_at))]
pub fn absent(alloc: Global, possible: u32, line: &Line<'_>) -> Result<Option<Numbers>, NoMemory>
    ensures { IfOk result (λ o. o ≡ absent_at possible line.now.bytes.now) }
{
    let Some(mut words) = line.words() else {
        return Ok(None);
    };
    let Some(word) = words.next() else {
        return Ok(None);
    };
    if word == b"absent".as_slice() {
        return absent_words(alloc, possible, &mut words);
    }
    Ok(None)
}

/// The words behind `sub`.
fn sub_line(alloc: Global, words: &mut Words<'_>) -> Result<Option<HeadLine>, NoMemory>
    ensures { IfOk result (λ o. o ≡ sub_tail words.old) }
{
    match sub(alloc, words)? {
        Ok(sub) => Ok(Some(HeadLine::Sub(sub))),
        Err(_) => Ok(None),
    }
}

/// The words behind `rule`.
fn rule_line(words: &mut Words<'_>) -> Option<HeadLine>
    ensures { result ≡ rule_tail words.old }
{
    let rule = rule(words).ok()?;
    Some(HeadLine::Rule(rule))
}

/// The words behind `events`: none.
fn events(words: &Words<'_>) -> Option<HeadLine>
    ensures { result ≡ done the_events words.now }
{
    if words.is_done() {
        return Some(HeadLine::Events);
    }
    None
}

/// What a line behind those of the processors says.
#[tactic(auto, unfolding(crate::specs::HeadLines::head_line_at))]
pub fn head_line(alloc: Global, line: &Line<'_>) -> Result<Option<HeadLine>, NoMemory>
    ensures { IfOk result (λ o. o ≡ head_line_at line.now.bytes.now) }
{
    let Some(mut words) = line.words() else {
        return Ok(None);
    };
    let Some(word) = words.next() else {
        return Ok(None);
    };
    if word == b"sub".as_slice() {
        return sub_line(alloc, &mut words);
    }
    if word == b"rule".as_slice() {
        return Ok(rule_line(&mut words));
    }
    if word == b"events".as_slice() {
        return Ok(events(&words));
    }
    Ok(None)
}
