//! What is answered to the bytes of a trace.

ghost use Rattle.std.specs.Prelude.{◌≡◌, ◌<◌, IfOk, OnOk, OnErr, string_bytes};
ghost use Rattle.hp_trace_run.specs.Answers.{reached_text, end_text, walked_text, judged_text, end_status, judged_status, IsAnswerTo};
ghost use Rattle.hp_trace_run.specs.Calls.{ReadsAnswer, LosesAtMost};
ghost use Rattle.hp_io.specs.Faults.{CountsReadFault};

use crate::status::{LAWFUL, NO_TRACE, UNLAWFUL};
use crate::text::{FailureLines, FaultLine, MoreLine, OpenLine};
use crate::walk_text::{Heading, MisfitLine, UnjudgedLine};
use hp_io::{ReadError, Source, read_up_to};
use hp_trace::{End, Failures, Judged, MAX_TRACE_BYTES, Place, failures_before, judge};
use hp_trace_judge::{Walks, walks_before};
use std::alloc::{AllocError, Global};

/// What is written, and the status behind it.
#[derive(Drop)]
pub struct Answer {
    pub text: String,
    pub status: u8,
}

/// What is written of how far the lines of a trace were judged, and their walks.
fn reached_text_of(
    alloc: Global,
    bytes: &[u8],
    place: &Place,
    walks: Walks,
) -> Result<String, AllocError>
    requires { place.now.events < place.now.line }
    ensures { IfOk result (λ text. string_bytes text ≡ reached_text bytes.now place.now walks) }
{
    let events = place.events;
    if events == 0 {
        return format!(in alloc; "no event of CPU hotplug\n");
    }
    let others = place.line - 1 - events;
    let Failures { first, count } = failures_before(alloc, bytes, place.line)?;
    let heading = Heading { walks };
    let named = FailureLines { failures: first };
    let more = MoreLine { count };
    let unjudged = UnjudgedLine { walks };
    format!(in alloc; "{heading}: {events} events, {others} other lines\n{named}{more}{unjudged}")
}

/// What is written of a judgement of some bytes, of which no line can't be one of lawful walks.
fn end_text_of(
    alloc: Global,
    bytes: &[u8],
    judged: &Judged,
    walks: Walks,
) -> Result<String, AllocError>
    requires { judged.now.place.events < judged.now.place.line }
    ensures { IfOk result (λ text. string_bytes text ≡ end_text bytes.now judged.now.place walks judged.now.end) }
{
    let line = judged.place.line;
    match judged.end {
        End::Whole => reached_text_of(alloc, bytes, &judged.place, walks),
        End::Lost => {
            let reached = reached_text_of(alloc, bytes, &judged.place, walks)?;
            format!(in alloc;
                "line {line}: events were lost, or may be (perf script): no line behind is judged\n{reached}"
            )
        }
        End::NoForm => {
            let reached = reached_text_of(alloc, bytes, &judged.place, walks)?;
            format!(in alloc;
                "line {line}: an event in no form that is known: no line behind is judged\n{reached}"
            )
        }
        End::Broken(fault) => {
            let broken = FaultLine { line, fault };
            format!(in alloc; "{broken}")
        }
    }
}

/// What is written of a judgement of some bytes and of their walks, but for what is open.
fn walked_text_of(
    alloc: Global,
    bytes: &[u8],
    judged: &Judged,
    walks: Walks,
) -> Result<String, AllocError>
    requires { judged.now.place.events < judged.now.place.line }
    ensures { IfOk result (λ text. string_bytes text ≡ walked_text bytes.now judged.now walks) }
{
    match walks {
        Walks::Misfit(misfit) => {
            let line = MisfitLine { misfit };
            format!(in alloc; "{line}")
        }
        Walks::Lawful | Walks::Far(_) | Walks::NoBorders => end_text_of(
            alloc, bytes, judged, walks,
        ),
    }
}

/// What is written of a judgement of some bytes and of their walks.
fn text_of(alloc: Global, bytes: &[u8], judged: &Judged, walks: Walks) -> Result<String, AllocError>
    requires { judged.now.place.events < judged.now.place.line }
    ensures { IfOk result (λ text. string_bytes text ≡ judged_text bytes.now judged.now walks) }
{
    let outer = OpenLine {
        entry: judged.place.nest.mark,
    };
    let inner = OpenLine {
        entry: judged.place.nest.call,
    };
    let walked = walked_text_of(alloc, bytes, judged, walks)?;
    format!(in alloc; "{outer}{inner}{walked}")
}

/// The status behind a judgement of lines, of which no line can't be one of lawful walks.
fn end_status_of(judged: &Judged) -> u8
    ensures { result ≡ end_status judged.now.place judged.now.end }
{
    match judged.end {
        End::Broken(_) => UNLAWFUL,
        End::Whole | End::Lost | End::NoForm if judged.place.events == 0 => NO_TRACE,
        End::Whole | End::Lost | End::NoForm => LAWFUL,
    }
}

/// The status behind a judgement.
fn status_of(judged: &Judged, walks: Walks) -> u8
    ensures { result ≡ judged_status judged.now walks }
{
    match walks {
        Walks::Misfit(_) => UNLAWFUL,
        Walks::Lawful | Walks::Far(_) | Walks::NoBorders => end_status_of(judged),
    }
}

/// What is answered to some bytes. Takes memory for the text.
fn answer_to(alloc: Global, bytes: &[u8]) -> Result<Answer, AllocError>
    ensures { IfOk result (λ answer. IsAnswerTo bytes.now (string_bytes answer.text) answer.status) }
{
    if bytes.len() > MAX_TRACE_BYTES as usize {
        return Ok(Answer {
            text: format!(in alloc; "error: more than {MAX_TRACE_BYTES} bytes\n")?,
            status: NO_TRACE,
        });
    }
    let judged = judge(bytes);
    let walks = walks_before(alloc, bytes, judged.place.line)?;
    Ok(Answer {
        text: text_of(alloc, bytes, &judged, walks)?,
        status: status_of(&judged, walks),
    })
}

/// What is answered to the bytes of a source, which is read to its end, or to one byte past the most of a trace.
///
/// - `Failed` where a read failed; the source's count of faults rose by one then.
/// - `NoMemory` where memory was wanting.
///
/// Takes memory for the bytes and for the text. After an error what was read is lost.
pub fn read_answer<S: Source>(alloc: Global, source: &mut S) -> Result<Answer, ReadError>
    requires { S.faults source.old < u64.MAX }
    ensures read { IfOk result (ReadsAnswer S.Source source.old source.new) }
    ensures faults { OnOk result (S.faults source.new ≡ S.faults source.old) }
    ensures counted { CountsReadFault result (S.faults source.old) (S.faults source.new) }
    ensures lost { OnErr result (LosesAtMost S.Source source.old source.new) }
{
    let bytes = read_up_to(alloc, source, MAX_TRACE_BYTES as usize)?;
    Ok(answer_to(alloc, &bytes)?)
}
