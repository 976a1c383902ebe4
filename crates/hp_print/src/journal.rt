//! The text of a journal.

ghost use Rattle.std.specs.Prelude.{◌≡◌, ◌≤◌, [], length, OnOk, IfOk};
ghost use Rattle.std.specs.List.{flat_map};
ghost use Rattle.hp_states.specs.declared.limits.TheConstants.{MAX_EVENTS};
ghost use Rattle.hp_model.specs.JournalText.{rule_line, sub_lines, processor_lines, title_line, head_text, event_lines, journal_text as text_of};
ghost use Rattle.hp_event.specs.declared.version.Version.TheVariants.{Two};
ghost use Rattle.hp_print.specs.Appends.{Appends};

use crate::event::append_event;
use crate::operation_numbers::OperationNumbers;
use hp_event::{Event, Head, Journal, Sub};
use hp_states::{NoMemory, Rule};
use hp_text::{
    append, append_count, append_number, append_numbers, append_rule, append_sub, end_line,
};
use std::alloc::{AllocError, Global};

/// Appends the line of a rule.
fn append_rule_line(out: &mut Vec<u8>, rule: &Rule) -> Result<(), AllocError>
    ensures { OnOk result (Appends out.old out.new (rule_line rule.now)) }
{
    append(out, b"rule")?;
    append_rule(out, rule)?;
    end_line(out)
}

/// Appends the lines of some rules.
fn append_rules(out: &mut Vec<u8>, rules: &[Rule]) -> Result<(), AllocError>
    ensures { OnOk result (Appends out.old out.new (flat_map rule_line rules.now)) }
{
    for rule in rules {
        append_rule_line(out, rule)?;
    }
    Ok(())
}

/// Appends the line of a subsystem, and those of its rules.
fn append_sub_lines(out: &mut Vec<u8>, sub: &Sub) -> Result<(), AllocError>
    ensures { OnOk result (Appends out.old out.new (sub_lines sub.now)) }
{
    append(out, b"sub")?;
    append_sub(out, sub)?;
    end_line(out)?;
    append_rules(out, sub.plan.rules())
}

/// Appends the lines of some subsystems, each with its rules.
fn append_subs(out: &mut Vec<u8>, subs: &[Sub]) -> Result<(), AllocError>
    ensures { OnOk result (Appends out.old out.new (flat_map sub_lines subs.now)) }
{
    for sub in subs {
        append_sub_lines(out, sub)?;
    }
    Ok(())
}

/// Appends the lines of a journal's processors.
#[tactic(auto, unfolding(hp_model::specs::JournalText::processor_lines))]
fn append_processors(out: &mut Vec<u8>, head: &Head) -> Result<(), AllocError>
    ensures { OnOk result (Appends out.old out.new (processor_lines head.now)) }
{
    append(out, b"cpus")?;
    append_number(out, head.possible)?;
    append(out, b"\nabsent")?;
    append_numbers(out, head.absent.as_slice())?;
    end_line(out)
}

/// Appends the line of the format.
#[tactic(auto, unfolding(hp_model::specs::JournalText::title_line))]
fn append_title(out: &mut Vec<u8>) -> Result<(), AllocError>
    ensures { OnOk result (Appends out.old out.new (title_line Two)) }
{
    append(out, b"cpuhp journal 2\n")
}

/// Appends the lines before a journal's events.
#[tactic(auto, unfolding(hp_model::specs::JournalText::head_text))]
fn append_head(out: &mut Vec<u8>, head: &Head) -> Result<(), AllocError>
    ensures { OnOk result (Appends out.old out.new (head_text Two head.now)) }
{
    append_title(out)?;
    append_processors(out, head)?;
    append_subs(out, head.subs.as_slice())?;
    append(out, b"events\n")
}

/// Appends the lines of some events, the first ones of a journal.
fn append_events(alloc: Global, out: &mut Vec<u8>, events: &[Event]) -> Result<(), AllocError>
    requires { length events.now ≤ MAX_EVENTS }
    ensures { OnOk result (Appends out.old out.new (event_lines Two [] events.now)) }
{
    let mut numbers = OperationNumbers::new(alloc);
    for event in events {
        let number = numbers.take(event)?;
        append_event(out, event, number)?;
    }
    Ok(())
}

/// For how many bytes a line memory is taken at once: most lines of events have fewer.
const LINE: usize = 32;

/// Appends the text of a journal.
#[tactic(auto, unfolding(hp_model::specs::JournalText::journal_text))]
pub fn append_journal(out: &mut Vec<u8>, journal: &Journal) -> Result<(), AllocError>
    ensures { OnOk result (Appends out.old out.new (text_of Two journal.now.head journal.now.events)) }
{
    let count = journal.len() as usize;
    out.reserve(count.saturating_mul(LINE))?;
    append_head(out, journal.head())?;
    append_events(journal.allocator(), out, journal.events())?;
    append(out, b"end")?;
    append_count(out, count)?;
    end_line(out)
}

/// The text of a journal, version 2: its head, a line for each event, oldest first, and their
/// number.
///
/// Takes memory for the text, and for how many operations the seats have, up to the highest; where it is
/// wanting the answer is `NoMemory`, and the journal is as before. There is one text of a journal, and it
/// is this project's own.
pub fn journal_text(alloc: Global, journal: &Journal) -> Result<Vec<u8>, NoMemory>
    ensures { IfOk result (λ v. v.items ≡ text_of Two journal.now.head journal.now.events) }
{
    let mut out = Vec::new(alloc);
    append_journal(&mut out, journal)?;
    Ok(out)
}
