//! A script is run, and what is written of it under a command.

ghost use Rattle.std.specs.Prelude.{◌≡◌, ◌<◌, ◌≤◌, length, sum_by, IfOk, IfErr, OnOk};
ghost use Rattle.hp_edge.specs.Scripts.{StopsAt};
ghost use Rattle.hp_model.specs.Lawful.{IsLawful};
ghost use Rattle.hp_model.specs.Scripts.{IsScript};
ghost use Rattle.hp_run.specs.Calls.{Does};
ghost use Rattle.hp_run.specs.Main.{WasDone, text_under};
ghost use Rattle.hp_run.specs.Commands.{CanBeDone};
ghost use Rattle.hp_script.specs.Playable.{setups_in};

use crate::command::Command;
use crate::work_lines::append_work;
use hp_edge::{NoScript, read_script};
use hp_event::Journal;
use hp_hook::{Hook, Rack};
use hp_io::Source;
use hp_live::Gate;
use hp_print::journal_and_summary;
use hp_script::Script;
use hp_states::NoMemory;
use hp_threads::run_script;
use std::alloc::Global;
use std::sync::Wait;
use std::thread::Threads;

/// What is written under a command of a run of the script that a source holds, or why there is none: the text and the summary
/// of its journal, and for `Work` the lines of what queues hold behind it.
///
/// Takes memory for all of it; where that is wanting: `NoMemory`. May wait for ever where its threads do.
pub fn text_of_command<R: Threads + Wait + Sync, S: Source, G: Gate + Sync, H: Hook + Send>(
    rt: &R,
    alloc: Global,
    command: Command,
    source: &mut S,
    rack: Rack<H>,
    gate: &G,
) -> Result<Vec<u8>, NoScript>
    requires source { S.faults source.old < u64.MAX }
    requires command { CanBeDone command }
    ensures done { IfOk result (λ text. Does S.Source source.old source.new rack command text) }
    ensures faults { OnOk result (S.faults source.new ≡ S.faults source.old) }
    ensures none { IfErr result (λ error. StopsAt S.Source (length rack.hooks.items) source.old source.new error) }
{
    let script = read_script(alloc, source, rack.hooks.len())?;
    Ok(text_of_script(rt, alloc, command, &script, rack, gate)?)
}

/// What is written under a command of a run of a script, each of whose setups can take a hook of the rack.
fn text_of_script<R: Threads + Wait + Sync, G: Gate + Sync, H: Hook + Send>(
    rt: &R,
    alloc: Global,
    command: Command,
    script: &Script,
    rack: Rack<H>,
    gate: &G,
) -> Result<Vec<u8>, NoMemory>
    requires script { IsScript script.now.head script.now.actors }
    requires hooks { sum_by setups_in script.now.actors ≤ length rack.hooks.items }
    requires command { CanBeDone command }
    ensures { IfOk result (λ text. WasDone command script.now text.items) }
{
    let journal = run_script(rt, alloc, script, rack, gate)?;
    Ok(text_of_journal(rt, alloc, command, &journal)?)
}

/// What is written under a command of a lawful journal. Takes memory for it; where that is wanting: `NoMemory`.
fn text_of_journal<R: Threads + Sync>(
    rt: &R,
    alloc: Global,
    command: Command,
    journal: &Journal,
) -> Result<Vec<u8>, NoMemory>
    requires lawful { IsLawful journal.now.head journal.now.events }
    requires command { CanBeDone command }
    ensures { IfOk result (λ text. text.items ≡ text_under command journal.now.head journal.now.events) }
{
    let mut text = journal_and_summary(alloc, journal)?;
    match command {
        Command::Run => Ok(text),
        Command::Work(state) => {
            append_work(rt, alloc, &mut text, journal, state)?;
            Ok(text)
        }
    }
}
