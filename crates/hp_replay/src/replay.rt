//! The whole of a journal's text.

ghost use Rattle.std.specs.Prelude.{◌≡◌, IfOk, IfSome, IfErr};
ghost use Rattle.hp_event.specs.declared.version.Version.TheVariants.{One, Two};
ghost use Rattle.hp_replay.specs.Verdict.{IsRefusal};
ghost use Rattle.hp_replay.specs.Stories.{IsAccepted, summary_of};

use crate::error::{ReplayError, ReplayKind};
use crate::events::read_events;
use crate::head::read_head;
use crate::line::Lines;
use crate::summary_lines::read_summary;
use hp_event::{Journal, Version};
use hp_print::summary;
use hp_states::MAX_JOURNAL_BYTES;
use std::alloc::Global;

/// The lawful journal whose text in version 2 an input is, or that text with its summary.
///
/// The bytes may be any.
///
/// - `Bad` where they are no such text: with the first line that can't stand, counted from 1, and
///   its kind (`ReplayKind`); with the line behind the last, where one is missing; or with line 0,
///   where there are more than `MAX_JOURNAL_BYTES` bytes, of which none is looked at then.
/// - `NoMemory` where memory was wanting.
///
/// Takes a time linear in the bytes, but for what the processors, the states and the instances of an
/// event's own operation take. Takes memory for the journal, for what its events amount to, and for
/// the summary where the input has one. Nothing is promised a place in the journal. The text of
/// journals is this project's own.
pub fn check(alloc: Global, bytes: &[u8]) -> Result<Journal, ReplayError>
    // The bytes are the text of this lawful journal, or its text and its summary.
    ensures journal { IfOk result (λ j. IsAccepted Two bytes.now j) }
    ensures promised { IfOk result (λ j. j.promised ≡ 0) }
    // They are none, and this is the first line that can't stand, or that is missing.
    ensures refused { IfErr result (IsRefusal Two bytes.now) }
{
    let (journal, _) = read(alloc, Version::Two, bytes)?;
    Ok(journal)
}

/// The lawful journal whose text in version 1 an input is, or that text with its summary.
///
/// The bytes may be any. Version 1 is of journals of at most 64 possible processors and 96 seats that come in.
/// It answers, and refuses, as `check` does: a line of more processors is `Header`, one of a seat more
/// `Unlawful`. Takes time and memory as `check` does.
pub fn check1(alloc: Global, bytes: &[u8]) -> Result<Journal, ReplayError>
    ensures journal { IfOk result (λ j. IsAccepted One bytes.now j) }
    ensures promised { IfOk result (λ j. j.promised ≡ 0) }
    ensures refused { IfErr result (IsRefusal One bytes.now) }
{
    let (journal, _) = read(alloc, Version::One, bytes)?;
    Ok(journal)
}

/// The journal that `check` answers, and its summary.
///
/// It refuses what `check` refuses, and as `check` does. The summary is that of the input, where it has
/// one, and is printed where it has none. Takes memory for it in either case.
pub fn check_and_summarize(alloc: Global, bytes: &[u8]) -> Result<(Journal, Vec<u8>), ReplayError>
    ensures journal { IfOk result (λ r. IsAccepted Two bytes.now r.0) }
    ensures promised { IfOk result (λ r. r.0.promised ≡ 0) }
    ensures summary { IfOk result (λ r. r.1.items ≡ summary_of r.0) }
    ensures refused { IfErr result (IsRefusal Two bytes.now) }
{
    let (journal, text) = read(alloc, Version::Two, bytes)?;
    let text = match text {
        Some(text) => text,
        None => summary(alloc, &journal)?,
    };
    Ok((journal, text))
}

/// The journal whose text in a version an input is, and its summary where the input has one.
fn read(
    alloc: Global,
    version: Version,
    bytes: &[u8],
) -> Result<(Journal, Option<Vec<u8>>), ReplayError>
    ensures journal { IfOk result (λ r. IsAccepted version bytes.now r.0) }
    ensures promised { IfOk result (λ r. r.0.promised ≡ 0) }
    ensures text { IfOk result (λ r. IfSome r.1 (λ text. text.items ≡ summary_of r.0)) }
    ensures refused { IfErr result (IsRefusal version bytes.now) }
{
    if bytes.len() > MAX_JOURNAL_BYTES as usize {
        return Err(ReplayError::Bad {
            line: 0,
            kind: ReplayKind::TooLong,
        });
    }
    let mut lines = Lines::of(bytes);
    let head = read_head(alloc, version, &mut lines)?;
    let journal = read_events(alloc, version, &head, &mut lines)?;
    let text = read_summary(alloc, &journal, &mut lines)?;
    Ok((journal, text))
}
