//! A script is played, and what is written of it.

ghost use Rattle.std.specs.Prelude.{◌≤◌, IfOk, length, sum_by};
ghost use Rattle.hp_model.specs.Scripts.{IsScript};
ghost use Rattle.hp_script.specs.Playable.{setups_in};
ghost use Rattle.hp_play.specs.Played.{IsRunOf, WasPlayed};
ghost use Rattle.hp_play.specs.Racks.{racks_of};
ghost use Rattle.hp_play.specs.Ranges.{CanBeWritten};

use crate::output::{Output, text_of};
use hp_actors::Run;
use hp_hook::{Hook, Rack};
use hp_script::Script;
use hp_states::NoMemory;
use std::alloc::Global;

/// Plays a script to its journal: the run in which every operation is answered. The journal is that of its board
/// (`Run::board`), and its hooks go back to the rack where it is given up (`Run::finish`).
///
/// The rack has at least as many hooks as the script has setups, each of which takes the last of those that are
/// left; the others stay as they were. Takes memory for the run and its journal; where that is wanting, some hooks
/// of the rack are lost: `NoMemory`. This project's own.
pub fn play<H: Hook>(alloc: Global, script: &Script, rack: &mut Rack<H>) -> Result<Run<H>, NoMemory>
    requires script { IsScript script.now.head script.now.actors }
    requires hooks { sum_by setups_in script.now.actors ≤ length rack.old.hooks.items }
    ensures { IfOk result (λ run. IsRunOf script.now
        (racks_of H.Hook rack.old rack.new)
        run) }
{
    let mut run = Run::start(alloc, script, rack)?;
    run.play(script.schedule())?;
    run.rests();
    Ok(run)
}

/// Plays a script with hooks of the rack, and answers what is written of the run.
///
/// The rack has at least as many hooks as the script has setups, each of which takes one of its own. Behind the
/// hooks that were left, which stay as they were, the rack then has those that came back, and last those of the
/// registered states, in rising state: as many as before (`specs/Racks.antt`). Where memory is wanting, some
/// hooks of the rack are lost: `NoMemory`.
pub fn text_played<H: Hook>(
    alloc: Global,
    of: Output,
    script: &Script,
    rack: &mut Rack<H>,
) -> Result<Vec<u8>, NoMemory>
    requires script { IsScript script.now.head script.now.actors }
    requires hooks { sum_by setups_in script.now.actors ≤ length rack.old.hooks.items }
    requires ranges { CanBeWritten of }
    ensures { IfOk result (λ text. WasPlayed of script.now
        (racks_of H.Hook rack.old rack.new)
        text.items) }
{
    let run = play(alloc, script, rack)?;
    let text = text_of(alloc, of, run.board())?;
    run.finish(rack)?;
    Ok(text)
}
