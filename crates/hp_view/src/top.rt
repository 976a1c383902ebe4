//! The top call.

ghost use Rattle.std.specs.Prelude.{◌≡◌, ◌≢◌, ◌<◌, ◌≤◌};
ghost use Rattle.hp_view.specs.Main.{Answer};
ghost use Rattle.hp_view.specs.Calls.{call, IsDoneIfFine, EndsWith, EndsUnread, EndsHalfWritten, EndsWanting};

use crate::asked::asked_of;
use crate::show::shown;
use crate::stop::Stop;
use hp_edge::{BAD_JOURNAL, BAD_WORDS, DONE, NO_MEMORY, READ_FAULT, WRITE_FAULT, write_answer};
use hp_io::{Sink, Source};
use hp_states::NoMemory;
use std::alloc::Global;

const USAGE: &[u8] = b"usage: hpview [--from N] [--to M]\n";

/// The journal has no such window: the line that says so is written.
pub const BAD_WINDOW: u8 = 2;

/// The program `hpview`: reads a journal as `hp replay` does, writes the picture of the window that the words ask for,
/// and answers the exit status. It always returns.
///
/// The words are `--from N` or `--from=N`, and `--to M` or `--to=M`, in any order, each at most once: the numbers of
/// the window's first and last event, counted from 1. Where they aren't given, they are those of the journal.
///
/// | Status | comes | written |
/// |---|---|---|
/// | 0 | done | the picture |
/// | 1 | exactly where the words are none of these; nothing is read | the usage line |
/// | 2 | exactly where the journal is accepted and has no such window: it doesn't lie within the journal, shows no event though there is one, or shows more than 20,000 | `error: 38400 events: choose a window of at most 20000 with --from and --to` |
/// | 3 | only where a read failed | nothing |
/// | 4 | only where a write failed | the first bytes of what was to be written |
/// | 5 | memory was wanting; only where the words can be options: at most four, and none is `--` | nothing |
/// | 6 | exactly where the journal is refused | its first line that can't stand, and the cause |
///
/// A lawful journal that has the window is never refused: where no read and no write fails the status is 0, or 5. For
/// the statuses 0, 2 and 6 the source was read to its end, or to one byte past the most bytes of a journal. The
/// statuses are this project's own.
pub fn view_main<S: Source, K: Sink>(
    alloc: Global,
    words: &Vec<String>,
    source: &mut S,
    sink: &mut K,
) -> u8
    requires source { S.faults source.old < u64.MAX }
    requires sink { K.faults sink.old < u64.MAX }

    // Which statuses there are.
    ensures statuses { result ≤ BAD_JOURNAL }

    // A journal that has the window is shown, where no object fails and memory isn't wanting.
    ensures accepted { IsDoneIfFine (call S.Source K.Sink words.now source.old source.new sink.old sink.new) result }

    // What is written under 0, 1, 2 and 6.
    ensures done { result ≡ DONE →
        EndsWith Answer.done (call S.Source K.Sink words.now source.old source.new sink.old sink.new) }
    ensures bad_words { result ≡ BAD_WORDS →
        EndsWith Answer.usage (call S.Source K.Sink words.now source.old source.new sink.old sink.new) }
    ensures bad_window { result ≡ BAD_WINDOW →
        EndsWith Answer.bad_window (call S.Source K.Sink words.now source.old source.new sink.old sink.new) }
    ensures bad_journal { result ≡ BAD_JOURNAL →
        EndsWith Answer.bad_journal (call S.Source K.Sink words.now source.old source.new sink.old sink.new) }

    // A fault has its cause in the object that failed.
    ensures read_fault { result ≡ READ_FAULT →
        EndsUnread (call S.Source K.Sink words.now source.old source.new sink.old sink.new) }
    ensures write_fault { result ≡ WRITE_FAULT →
        EndsHalfWritten (call S.Source K.Sink words.now source.old source.new sink.old sink.new) }
    ensures no_memory { result ≡ NO_MEMORY →
        EndsWanting (call S.Source K.Sink words.now source.old source.new sink.old sink.new) }
    ensures source_faults { result ≢ READ_FAULT → S.faults source.new ≡ S.faults source.old }
    ensures sink_faults { result ≢ WRITE_FAULT → K.faults sink.new ≡ K.faults sink.old }
{
    let asked = match asked_of(alloc, words) {
        Ok(Some(asked)) => asked,
        Ok(None) => return write_answer(sink, USAGE, BAD_WORDS),
        Err(NoMemory) => return NO_MEMORY,
    };
    match shown(alloc, asked, source) {
        Ok(picture) => write_answer(sink, &picture, DONE),
        Err(Stop::BadWindow(line)) => write_answer(sink, &line, BAD_WINDOW),
        Err(Stop::BadJournal(line)) => write_answer(sink, &line, BAD_JOURNAL),
        Err(Stop::ReadFault) => READ_FAULT,
        Err(Stop::NoMemory) => NO_MEMORY,
    }
}
