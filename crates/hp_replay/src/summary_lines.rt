//! The lines behind the `end` line: none, or those of the journal's summary.

ghost use Rattle.std.specs.Prelude.{◌≡◌, OnOk, IfOk, IfSome, IfErr};
ghost use Rattle.hp_event.specs.declared.version.Version.{Version as AVersion};
ghost use Rattle.hp_replay.specs.Reading.{RefusedFrom};
ghost use Rattle.hp_replay.specs.Stories.{AcceptsAsSummary, RefusesAsSummary, AcceptsRest, text_stage, summary_of};

use crate::error::{ReplayError, ReplayKind};
use crate::line::{Lines, line_end};
use hp_event::Journal;
use hp_print::summary;
use std::alloc::Global;

/// Compares the lines that are left with those of a summary, of whichever journal it is.
fn compare(text: &[u8], lines: &mut Lines<'_>) -> Result<(), ReplayError>
    ensures same { OnOk result ((v : AVersion) → AcceptsAsSummary v text.now lines.old) }
    ensures bad { IfErr result (λ e. (v : AVersion) → RefusesAsSummary v text.now lines.old e) }
{
    let mut rest = text;
    while !rest.is_empty() {
        let (wanted, others) = rest.split_at(line_end(rest));
        let line = lines.expect()?;
        if line.bytes != wanted {
            return Err(line.bad(ReplayKind::Trailing));
        }
        rest = others;
    }
    match lines.next() {
        None => Ok(()),
        Some(line) => Err(line.bad(ReplayKind::Trailing)),
    }
}

/// Takes the lines that are left behind the `end` line of a journal's text. The summary is printed only
/// where there is one, and is then the answer.
pub fn read_summary(
    alloc: Global,
    journal: &Journal,
    lines: &mut Lines<'_>,
) -> Result<Option<Vec<u8>>, ReplayError>
    ensures ok { OnOk result ((v : AVersion) → AcceptsRest v lines.old journal.now) }
    ensures text { IfOk result (λ found. IfSome found (λ text. text.items ≡ summary_of journal.now)) }
    ensures bad { IfErr result (λ e. (v : AVersion) → RefusedFrom v (text_stage journal.now) lines.old e) }
{
    if lines.is_done() {
        return Ok(None);
    }
    let text = summary(alloc, journal)?;
    compare(text.as_slice(), lines)?;
    Ok(Some(text))
}
