//! The top call.

ghost use Rattle.std.specs.Prelude.{◌≡◌, ◌≢◌, ◌<◌, ◌≤◌};
ghost use Rattle.hp_run.specs.Main.{Answer};
ghost use Rattle.hp_run.specs.Calls.{call, IsDoneIfFine, EndsWith, EndsUnread, EndsHalfWritten, EndsWanting};

use crate::command::command_of;
use crate::run::text_of_command;
use hp_edge::{
    BAD_SCRIPT, BAD_WORDS, DONE, NO_MEMORY, NoScript, READ_FAULT, WRITE_FAULT, write_answer,
};
use hp_hook::{Hook, Rack};
use hp_io::{Sink, Source};
use hp_live::Gate;
use std::alloc::Global;
use std::sync::Wait;
use std::thread::Threads;

const USAGE: &[u8] = b"usage: hpd run|work STATE\n";

/// The program `hpd`: runs a script on threads, and answers the exit status.
///
/// The words are exactly `run`, or `work` and a state from 1 to 198. The script that the source holds is read; its schedule
/// isn't used. Each actor is a
/// client's seat on a thread of its own, and so is the hotplug thread of each processor. Each setup is given a hook of the
/// rack, which has as many as the script has setups. The gate is passed before each lock section of a seat.
///
/// | Status | comes | written |
/// |---|---|---|
/// | 0 | done | the text of the journal of the run, then its summary; under `work`, then what queues that follow the state hold after it |
/// | 1 | exactly where the words are others, if no write fails; nothing is read | the usage line |
/// | 2 | exactly where the script is refused | its first refused line and the cause: `error: line 3: bad word` |
/// | 3 | only where a read failed | nothing |
/// | 4 | only where a write failed | the first bytes of what was to be written |
/// | 5 | memory was wanting | nothing |
///
/// Under 0 there is one journal of which all is written, and what is so of it `IsJournalOf` of `hp_threads` says. A
/// script is never refused: where no read and no write fails the status is 0, or 5. For the statuses 0 and 2 the
/// source was read to its end, or to one byte past the most bytes of a script. The rack is given away.
///
/// All of it holds if the call returns, and nothing promises that: the threads wait for one another. Which thread goes
/// first is the system's. Takes memory for the script, the run and the text. The statuses are this project's own.
pub fn hpd_main<R: Threads + Wait + Sync, S: Source, K: Sink, G: Gate + Sync, H: Hook + Send>(
    rt: &R,
    alloc: Global,
    words: &Vec<String>,
    source: &mut S,
    sink: &mut K,
    rack: Rack<H>,
    gate: &G,
) -> u8
    requires source { S.faults source.old < u64.MAX }
    requires sink { K.faults sink.old < u64.MAX }

    // Which statuses there are.
    ensures statuses { result ≤ NO_MEMORY }

    // Words and a script that are fine are done, where no object fails and memory isn't wanting.
    ensures accepted { IsDoneIfFine
        (call S.Source K.Sink words.now source.old source.new sink.old sink.new rack) result }

    // What is written under 0, 1 and 2.
    ensures done { result ≡ DONE →
        EndsWith Answer.done (call S.Source K.Sink words.now source.old source.new sink.old sink.new rack) }
    ensures bad_words { result ≡ BAD_WORDS →
        EndsWith Answer.usage (call S.Source K.Sink words.now source.old source.new sink.old sink.new rack) }
    ensures bad_script { result ≡ BAD_SCRIPT →
        EndsWith Answer.refusal (call S.Source K.Sink words.now source.old source.new sink.old sink.new rack) }

    // A fault has its cause in the object that failed.
    ensures read_fault { result ≡ READ_FAULT →
        EndsUnread (call S.Source K.Sink words.now source.old source.new sink.old sink.new rack) }
    ensures write_fault { result ≡ WRITE_FAULT →
        EndsHalfWritten (call S.Source K.Sink words.now source.old source.new sink.old sink.new rack) }
    ensures no_memory { result ≡ NO_MEMORY →
        EndsWanting (call S.Source K.Sink words.now source.old source.new sink.old sink.new rack) }
    ensures source_faults { result ≢ READ_FAULT → S.faults source.new ≡ S.faults source.old }
    ensures sink_faults { result ≢ WRITE_FAULT → K.faults sink.new ≡ K.faults sink.old }
{
    let Some(command) = command_of(words) else {
        return write_answer(sink, USAGE, BAD_WORDS);
    };
    match text_of_command(rt, alloc, command, source, rack, gate) {
        Ok(text) => write_answer(sink, &text, DONE),
        Err(NoScript::Refused(line)) => write_answer(sink, &line, BAD_SCRIPT),
        Err(NoScript::ReadFault) => READ_FAULT,
        Err(NoScript::NoMemory) => NO_MEMORY,
    }
}
