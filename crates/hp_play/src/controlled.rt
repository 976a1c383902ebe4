//! A script is played under SMT control, and what is written of it.

ghost use Rattle.std.specs.Prelude.{◌≡◌, ◌≤◌, IfOk, length, sum_by};
ghost use Rattle.hp_command.specs.Controlling.{AreThreads};
ghost use Rattle.hp_model.specs.Scripts.{IsScript};
ghost use Rattle.hp_script.specs.Playable.{setups_in};
ghost use Rattle.hp_play.specs.Controlled.{HasSeatMore, WasControlled, control_of as control_for};
ghost use Rattle.hp_play.specs.Racks.{racks_of};

use crate::control_text::append_control_text;
use hp_command::{ControlMode, Controlling};
use hp_hook::{Hook, Rack};
use hp_print::journal_and_summary;
use hp_script::Script;
use hp_smt::Control;
use hp_smt_run::SmtRun;
use hp_states::NoMemory;
use std::alloc::Global;

/// What is written for a mode, before On. Takes no memory.
fn control_of(mode: ControlMode) -> Control
    ensures { result ≡ control_for mode }
{
    match mode {
        ControlMode::Off => Control::Off,
        ControlMode::ForceOff => Control::ForceOff,
    }
}

/// Plays a script under SMT control with hooks of the rack, and answers what is written of the run: the text of its
/// journal, its summary, and what came of the writes of control.
///
/// There is a seat more than for the script's threads and actors, a core has 2 to 8 threads, and the rack has at least as
/// many hooks as the script has setups, each of which takes one of its own. After the run the rack has as many hooks as
/// before (`specs/Racks.antt`), and of each that came back it is known what turns made of it (`specs/Controlled.antt`).
/// Where memory is wanting, some hooks of the rack are lost: `NoMemory`. This project's own.
pub fn text_controlled<H: Hook>(
    alloc: Global,
    controlling: Controlling,
    script: &Script,
    rack: &mut Rack<H>,
) -> Result<Vec<u8>, NoMemory>
    requires script { IsScript script.now.head script.now.actors }
    requires seat { HasSeatMore script.now }
    requires threads { AreThreads controlling.threads }
    requires hooks { sum_by setups_in script.now.actors ≤ length rack.old.hooks.items }
    ensures { IfOk result (λ text. WasControlled controlling script.now
        (racks_of H.Hook rack.old rack.new)
        text.items) }
{
    let want = control_of(controlling.mode);
    let mut run = SmtRun::start(alloc, script, controlling.threads, want, rack)?;
    run.play(alloc)?;
    run.rests();
    run.smt.sound();
    let mut text = journal_and_summary(alloc, run.smt.board().journal())?;
    append_control_text(&mut text, &run.written, run.denied.len())?;
    run.finish(rack)?;
    Ok(text)
}
