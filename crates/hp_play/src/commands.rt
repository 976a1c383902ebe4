//! What each command does.

ghost use Rattle.std.specs.Prelude.{◌≡◌, ◌<◌, length, IfOk, IfErr, OnOk};
ghost use Rattle.hp_play.specs.Main.{PlaysNothing};
ghost use Rattle.hp_play.specs.Played.{IsPlayed};
ghost use Rattle.hp_play.specs.Racks.{racks_of, StaysUnlessWanting};
ghost use Rattle.hp_play.specs.Ranges.{CanBeWritten};
ghost use Rattle.hp_play.specs.Stops.{HasRanges, Refuses};
ghost use Rattle.hp_command.specs.Controlling.{AreThreads};
ghost use Rattle.hp_play.specs.Calls.{Does, StopsAt, Plays, StopsScriptAt, Controls};
ghost use Rattle.hp_event.specs.declared.version.Version.TheVariants.{One, Two};
ghost use Rattle.hp_play.specs.Calls.{Replays, Migrates, StopsJournalAt};

use crate::controlled::text_controlled;
use crate::output::Output;
use crate::play::text_played;
use crate::stop::Stop;
use hp_command::{Command, Controlling};
use hp_edge::{journal_error_line, read_input, read_script, script_of};
use hp_hook::{Hook, Rack};
use hp_io::Source;
use hp_print::journal_and_summary;
use hp_replay::{ReplayError, check_and_summarize, check1};
use hp_script::generate;
use hp_states::MAX_JOURNAL_BYTES;
use std::alloc::Global;

/// What a command writes.
pub fn output_of<S: Source, H: Hook>(
    alloc: Global,
    command: Command,
    source: &mut S,
    rack: &mut Rack<H>,
) -> Result<Vec<u8>, Stop>
    requires faults { S.faults source.old < u64.MAX }
    requires ranges { HasRanges command }
    ensures done { IfOk result (Does command S.Source H.Hook source.old source.new rack.old rack.new) }
    ensures faults { OnOk result (S.faults source.new ≡ S.faults source.old) }
    ensures stop { IfErr result (StopsAt command S.Source source.old source.new rack.old) }
    ensures rack { IfErr result (StaysUnlessWanting rack.old rack.new) }
    ensures unused { PlaysNothing command → rack.new.hooks.items ≡ rack.old.hooks.items }
{
    match command {
        Command::Play => script_played(alloc, Output::Journal, source, rack),
        Command::States => script_played(alloc, Output::States, source, rack),
        Command::Report => script_played(alloc, Output::Report, source, rack),
        Command::Replay => replayed(alloc, source),
        Command::Migrate => migrated(alloc, source),
        Command::Count(counting) => script_played(alloc, Output::Count(counting), source, rack),
        Command::Smt(controlling) => script_controlled(alloc, controlling, source, rack),
        Command::Gen(options) => Ok(generate(alloc, options.seed, options.size)?),
        Command::Bench(options) => {
            let script = generate(alloc, options.seed, options.size)?;
            text_of_script(alloc, Output::Summary, &script, rack)
        }
    }
}

/// What is written of the script that a source holds.
fn script_played<S: Source, H: Hook>(
    alloc: Global,
    of: Output,
    source: &mut S,
    rack: &mut Rack<H>,
) -> Result<Vec<u8>, Stop>
    requires faults { S.faults source.old < u64.MAX }
    requires ranges { CanBeWritten of }
    ensures played { IfOk result (Plays of S.Source H.Hook source.old source.new rack.old rack.new) }
    ensures faults { OnOk result (S.faults source.new ≡ S.faults source.old) }
    ensures stop { IfErr result (StopsScriptAt S.Source source.old source.new rack.old) }
    ensures rack { IfErr result (StaysUnlessWanting rack.old rack.new) }
{
    match read_script(alloc, source, rack.hooks.len()) {
        Ok(script) => Ok(text_played(alloc, of, &script, rack)?),
        Err(error) => Err(Stop::of_script(error)),
    }
}

/// What is written of the script that a source holds, under SMT control.
fn script_controlled<S: Source, H: Hook>(
    alloc: Global,
    controlling: Controlling,
    source: &mut S,
    rack: &mut Rack<H>,
) -> Result<Vec<u8>, Stop>
    requires faults { S.faults source.old < u64.MAX }
    requires threads { AreThreads controlling.threads }
    ensures controlled { IfOk result (Controls controlling S.Source H.Hook source.old source.new rack.old rack.new) }
    ensures faults { OnOk result (S.faults source.new ≡ S.faults source.old) }
    ensures stop { IfErr result (StopsScriptAt S.Source source.old source.new rack.old) }
    ensures rack { IfErr result (StaysUnlessWanting rack.old rack.new) }
{
    match read_script(alloc, source, rack.hooks.len()) {
        Ok(script) => Ok(text_controlled(alloc, controlling, &script, rack)?),
        Err(error) => Err(Stop::of_script(error)),
    }
}

/// What is written of the script that some bytes are.
fn text_of_script<H: Hook>(
    alloc: Global,
    of: Output,
    bytes: &[u8],
    rack: &mut Rack<H>,
) -> Result<Vec<u8>, Stop>
    requires { CanBeWritten of }
    ensures played { IfOk result (λ text. IsPlayed of
        (racks_of H.Hook rack.old rack.new)
        bytes.now text.items) }
    ensures stop { IfErr result (Refuses (length rack.old.hooks.items) bytes.now) }
    ensures rack { IfErr result (StaysUnlessWanting rack.old rack.new) }
{
    match script_of(alloc, bytes, rack.hooks.len()) {
        Ok(script) => Ok(text_played(alloc, of, &script, rack)?),
        Err(error) => Err(Stop::of_script(error)),
    }
}

/// The summary of the journal whose text in version 2 a source holds.
fn replayed<S: Source>(alloc: Global, source: &mut S) -> Result<Vec<u8>, Stop>
    requires { S.faults source.old < u64.MAX }
    ensures replayed { IfOk result (Replays S.Source source.old source.new) }
    ensures faults { OnOk result (S.faults source.new ≡ S.faults source.old) }
    ensures stop { IfErr result (StopsJournalAt Two S.Source source.old source.new) }
{
    let bytes = match read_input(alloc, source, MAX_JOURNAL_BYTES) {
        Ok(bytes) => bytes,
        Err(error) => return Err(Stop::of_read(error)),
    };
    match check_and_summarize(alloc, &bytes) {
        Ok((_, summary)) => Ok(summary),
        Err(ReplayError::NoMemory) => Err(Stop::NoMemory),
        Err(error) => Err(Stop::BadJournal(journal_error_line(alloc, error)?)),
    }
}

/// The text in version 2 of the journal whose text in version 1 a source holds, and its summary.
fn migrated<S: Source>(alloc: Global, source: &mut S) -> Result<Vec<u8>, Stop>
    requires { S.faults source.old < u64.MAX }
    ensures migrated { IfOk result (Migrates S.Source source.old source.new) }
    ensures faults { OnOk result (S.faults source.new ≡ S.faults source.old) }
    ensures stop { IfErr result (StopsJournalAt One S.Source source.old source.new) }
{
    let bytes = match read_input(alloc, source, MAX_JOURNAL_BYTES) {
        Ok(bytes) => bytes,
        Err(error) => return Err(Stop::of_read(error)),
    };
    match check1(alloc, &bytes) {
        Ok(journal) => Ok(journal_and_summary(alloc, &journal)?),
        Err(ReplayError::NoMemory) => Err(Stop::NoMemory),
        Err(error) => Err(Stop::BadJournal(journal_error_line(alloc, error)?)),
    }
}
