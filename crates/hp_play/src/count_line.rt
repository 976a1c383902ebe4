//! The line of counters that went through a journal.

ghost use Rattle.std.specs.Prelude.{◌≡◌, ◌≤◌, ◌∷◌, IfOk, OnOk};
ghost use Rattle.std.specs.Fmt.{signed_decimal};
ghost use Rattle.hp_states.specs.declared.limits.TheConstants.{MAX_CPU_SET};
ghost use Rattle.hp_model.specs.Lawful.{IsLawful};
ghost use Rattle.hp_model.specs.Words.{spaced};
ghost use Rattle.hp_text.specs.Appends.{Appends};
ghost use Rattle.hp_play.specs.CountLine.{part_words, count_line};
ghost use Rattle.hp_play.specs.Ranges.{CanBeCounted};

use hp_command::Counting;
use hp_event::Journal;
use hp_pcount::{Counters, count};
use hp_states::NoMemory;
use hp_text::{append, end_line};
use itoa::Buffer;
use std::alloc::{AllocError, Global};

/// Appends a number, behind a space.
fn append_long(out: &mut Vec<u8>, number: i128) -> Result<(), AllocError>
    ensures { OnOk result (Appends out.old out.new (32 ∷ signed_decimal number)) }
{
    let mut buffer = Buffer::new();
    out.push(b' ')?;
    out.extend_from_slice(buffer.format(number).as_bytes())
}

/// Appends the parts of the processors below a number.
fn append_parts(out: &mut Vec<u8>, counters: &Counters, possible: u32) -> Result<(), AllocError>
    requires { possible ≤ MAX_CPU_SET }
    ensures { OnOk result (Appends out.old out.new (spaced (part_words counters.now possible))) }
{
    for cpu in 0..possible {
        append_long(out, i128::from(counters.part(cpu)))?;
    }
    Ok(())
}

/// The line of counters of a state that went through a lawful journal: the total, the base, and the part
/// of each possible processor.
///
/// Takes memory for it; where there is none: `NoMemory`. This project's own.
pub fn line_of_count(
    alloc: Global,
    journal: &Journal,
    counting: Counting,
) -> Result<Vec<u8>, NoMemory>
    requires lawful { IsLawful journal.now.head journal.now.events }
    requires ranges { CanBeCounted counting }
    ensures { IfOk result (λ text. text.items
        ≡ count_line journal.now.head counting.state counting.batch journal.now.events) }
{
    let counters = count(journal, counting.state, counting.batch);
    let mut out = Vec::new(alloc);
    append(&mut out, b"count total")?;
    append_long(&mut out, counters.total())?;
    append(&mut out, b" base")?;
    append_long(&mut out, counters.base())?;
    append(&mut out, b" parts")?;
    append_parts(&mut out, &counters, journal.head().possible)?;
    end_line(&mut out)?;
    Ok(out)
}
