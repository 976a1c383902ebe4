//! The top call.

ghost use Rattle.std.specs.Prelude.{◌<◌, ◌≤◌};
ghost use Rattle.hp_trace_run.specs.Calls.{call, Ends, EndsExactly, Wrote};

use crate::answer::read_answer;
use crate::status::{BAD_WORDS, NO_MEMORY, READ_FAULT, UNLAWFUL, WRITE_FAULT};
use hp_io::{Failed, ReadError, Sink, Source, write_all};
use std::alloc::Global;

const USAGE: &[u8] = b"usage: hptrace < TEXT\n";

/// Writes bytes, and answers a status: this one, or that a write failed.
fn write_answer<K: Sink>(sink: &mut K, bytes: &[u8], status: u8) -> u8
    requires { K.faults sink.old < u64.MAX }
    ensures { Wrote K.Sink sink.old sink.new bytes.now status result }
{
    match write_all(sink, bytes) {
        Ok(()) => status,
        Err(Failed) => WRITE_FAULT,
    }
}

/// The program `hptrace`: reads a kernel's trace of CPU hotplug, writes what its lines alone decide, and answers the
/// exit status. It always returns.
///
/// It has no words. What is written under 0, 2 and 6 is first what the judged lines entered and did not leave, the
/// outer one first; then why the judgement ended early, if it did; then
///
/// | Status | comes | written |
/// |---|---|---|
/// | 0 | exactly where the judged lines can stand and an event is among them | how many are events and how many others; the exits among them whose code isn't 0, the first 20 of them and how many more; and that no undoing was judged |
/// | 1 | exactly where there are words; nothing is read | the usage line |
/// | 2 | exactly where no event is among the judged lines, all of which can stand, or the source has more than `MAX_TRACE_BYTES` bytes | that it is so; of too many bytes that alone |
/// | 3 | only where a read failed | nothing |
/// | 4 | only where a write failed | the first bytes of what was to be written |
/// | 5 | memory was wanting; never where there are words | nothing |
/// | 6 | exactly where a line can't stand behind those before it | the first such line, and why |
///
/// "Exactly" is said of what was read, where nothing fails and memory isn't wanting: the text and the status are those
/// that `specs/Answers.antt` gives the bytes, by `judged` of `hp_trace`. The source is read to its end, or to one byte
/// past `MAX_TRACE_BYTES`. It takes memory for the bytes and for the text. The statuses are this project's own.
pub fn trace_main<S: Source, K: Sink>(
    alloc: Global,
    words: &[String],
    source: &mut S,
    sink: &mut K,
) -> u8
    requires source { S.faults source.old < u64.MAX }
    requires sink { K.faults sink.old < u64.MAX }

    // Which statuses there are.
    ensures statuses { result ≤ UNLAWFUL }

    // What was read is answered, or it is named which object failed, or that memory was wanting.
    ensures ends { Ends
        (call S.Source K.Sink words.now source.old source.new sink.old sink.new) result }

    // A source that tells its bytes is answered by all of them.
    ensures exact { EndsExactly
        (call S.Source K.Sink words.now source.old source.new sink.old sink.new) result }
{
    if !words.is_empty() {
        return write_answer(sink, USAGE, BAD_WORDS);
    }
    match read_answer(alloc, source) {
        Ok(answer) => write_answer(sink, answer.text.as_bytes(), answer.status),
        Err(ReadError::Failed) => READ_FAULT,
        Err(ReadError::NoMemory) => NO_MEMORY,
    }
}
