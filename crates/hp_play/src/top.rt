//! The top call.

ghost use Rattle.std.specs.Prelude.{◌≡◌, ◌≢◌, ◌<◌, ◌≤◌};
ghost use Rattle.hp_play.specs.Main.{Answer, PlaysNothing};
ghost use Rattle.hp_play.specs.Calls.{AskedIn, call, IsDoneIfFine, EndsWith, EndsUnread, EndsHalfWritten, EndsWanting};

use crate::commands::output_of;
use crate::stop::Stop;
use hp_command::command_of;
use hp_edge::{
    BAD_JOURNAL, BAD_SCRIPT, BAD_WORDS, DONE, NO_MEMORY, READ_FAULT, WRITE_FAULT, write_answer,
};
use hp_hook::{Hook, Rack};
use hp_io::{Sink, Source};
use hp_states::NoMemory;
use std::alloc::Global;

const USAGE: &[u8] =
    b"usage: hp play|replay|states|report|gen|bench|migrate|smt|count [--seed N] [--size N] [T MODE] [STATE BATCH]\n";

/// The program `hp`: does what the words say, and answers the exit status. It always returns.
///
/// | Words | reads | writes under status 0 |
/// |---|---|---|
/// | `play` | a script | the text of its journal, then the summary |
/// | `replay` | the text of a journal, with or without its summary | the summary |
/// | `migrate` | the text of a journal in version 1, with or without its summary | its text in version 2, then the summary |
/// | `states` | a script | the states file after its run |
/// | `report` | a script | the report of its journal, in JSON |
/// | `count STATE BATCH` | a script | the line of counters that went through its journal |
/// | `smt T MODE` | a script | the text of its journal under SMT control, the summary, and what came of that |
/// | `gen` with options | nothing | the generated script |
/// | `bench` with options | nothing | the summary of the generated script's run |
///
/// STATE is 1 to 198 and BATCH 1 to 1,000,000, each in decimal digits without a sign and without a zero before
/// others. T is 2 to 8, the threads of a core, and MODE `off` or `forceoff`. The options are `--seed V` or
/// `--seed=V`, and `--size V` or `--size=V`, in any order, each at most once.
///
/// | Status | comes | written |
/// |---|---|---|
/// | 0 | done | as above |
/// | 1 | exactly where the words are none of these; nothing is read | the usage line |
/// | 2 | exactly where the script is refused; of `bench`, where the rack has fewer than twelve hooks | its first refused line and the cause: `error: line 3: bad word` |
/// | 3 | only where a read failed, so never of `gen` and `bench` | nothing |
/// | 4 | only where a write failed | the first bytes of what was to be written |
/// | 5 | memory was wanting; only where the words are one of these, or are `gen` or `bench` and can go on as these do: by at most four words, none of them `--` | nothing |
/// | 6 | exactly where the journal is refused, of `replay` and `migrate` alone | its first line that can't stand, and the cause |
///
/// The text of a journal is in version 2, but where version 1 is named. A script, and the text of a lawful
/// journal, is never refused: where no read and no write fails the status is 0, or 5. For the statuses 0, 2
/// and 6 of a command that reads, the source was read to its end, or to one byte past the most bytes of such
/// an input. A script is played with hooks of the rack, one for each of its setups; the journal is the run of
/// its actors by its schedule, and lawful: `specs/Played.antt` says what is so of it, and `specs/Racks.antt` of
/// the rack after it; of `smt` it is the run that `specs/Controlled.antt` says. Under 1, 2, 3 and 6 the rack is
/// as it was, and of `replay`, `migrate` and `gen` under every status; under 4 it is as under the status whose
/// answer was begun. Where memory was wanting for a script, some hooks may be lost. The statuses are this
/// project's own.
pub fn hp_main<S: Source, K: Sink, H: Hook>(
    alloc: Global,
    words: &Vec<String>,
    source: &mut S,
    sink: &mut K,
    rack: &mut Rack<H>,
) -> u8
    requires source { S.faults source.old < u64.MAX }
    requires sink { K.faults sink.old < u64.MAX }

    // Which statuses there are.
    ensures statuses { result ≤ BAD_JOURNAL }

    // What has its input is done, where no object fails and memory isn't wanting.
    ensures accepted { IsDoneIfFine
        (call S.Source K.Sink H.Hook words.now source.old source.new sink.old sink.new rack.old rack.new)
        result }

    // What is written under 0, 1, 2 and 6, and the rack then.
    ensures done { result ≡ DONE → EndsWith Answer.done
        (call S.Source K.Sink H.Hook words.now source.old source.new sink.old sink.new rack.old rack.new) }
    ensures bad_words { result ≡ BAD_WORDS → EndsWith Answer.usage
        (call S.Source K.Sink H.Hook words.now source.old source.new sink.old sink.new rack.old rack.new) }
    ensures bad_script { result ≡ BAD_SCRIPT → EndsWith Answer.refusal
        (call S.Source K.Sink H.Hook words.now source.old source.new sink.old sink.new rack.old rack.new) }
    ensures bad_journal { result ≡ BAD_JOURNAL → EndsWith Answer.bad_journal
        (call S.Source K.Sink H.Hook words.now source.old source.new sink.old sink.new rack.old rack.new) }

    // A fault has its cause in the object that failed.
    ensures read_fault { result ≡ READ_FAULT → EndsUnread
        (call S.Source K.Sink H.Hook words.now source.old source.new sink.old sink.new rack.old rack.new) }
    ensures write_fault { result ≡ WRITE_FAULT → EndsHalfWritten
        (call S.Source K.Sink H.Hook words.now source.old source.new sink.old sink.new rack.old rack.new) }
    ensures no_memory { result ≡ NO_MEMORY → EndsWanting
        (call S.Source K.Sink H.Hook words.now source.old source.new sink.old sink.new rack.old rack.new) }
    ensures source_faults { result ≢ READ_FAULT → S.faults source.new ≡ S.faults source.old }
    ensures sink_faults { result ≢ WRITE_FAULT → K.faults sink.new ≡ K.faults sink.old }

    // A command that plays no script leaves the rack as it was, under each status.
    ensures rack { AskedIn words.now PlaysNothing → rack.new.hooks.items ≡ rack.old.hooks.items }
{
    let command = match command_of(alloc, words) {
        Ok(Some(command)) => command,
        Ok(None) => return write_answer(sink, USAGE, BAD_WORDS),
        Err(NoMemory) => return NO_MEMORY,
    };
    match output_of(alloc, command, source, rack) {
        Ok(text) => write_answer(sink, &text, DONE),
        Err(Stop::BadScript(line)) => write_answer(sink, &line, BAD_SCRIPT),
        Err(Stop::BadJournal(line)) => write_answer(sink, &line, BAD_JOURNAL),
        Err(Stop::ReadFault) => READ_FAULT,
        Err(Stop::NoMemory) => NO_MEMORY,
    }
}
