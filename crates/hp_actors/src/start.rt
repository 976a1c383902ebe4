//! The start of a run.

ghost use Rattle.std.specs.Prelude.{◌≡◌, ◌≤◌, IfOk, OnOk, map, length, sum_by};
ghost use Rattle.hp_model.specs.Scripts.{IsScript};
ghost use Rattle.hp_script.specs.Playable.{setups_in};
ghost use Rattle.hp_actors.specs.Hooks.{OneForEachSetup, hooks_there, AreDealtFrom, hooks_among};
ghost use Rattle.hp_actors.specs.Positions.{ops_of};
ghost use Rattle.hp_actors.specs.Racks.{IsFresh, TakesLast};
ghost use Rattle.hp_actors.specs.Runs.{at_start};

use crate::actor::Actor;
use crate::run::Run;
use crate::seating::{present_count, seated_board};
use hp_hook::{Hook, Rack};
use hp_script::Script;
use hp_states::NoMemory;
use std::alloc::Global;

impl<H: Hook> Run<H> {
    /// The start of a script's run: every seat is in, and no operation has begun. Each setup has a hook of its
    /// own, as it is in the rack: one after the other they take the last. No other operation has one.
    ///
    /// The script is one that can be played, and the rack has as many hooks as it has setups. Takes memory;
    /// where there is none, some hooks of the rack are lost: `NoMemory`. Runs are this project's own.
    pub fn start(alloc: Global, script: &Script, rack: &mut Rack<H>) -> Result<Run<H>, NoMemory>
        requires script { IsScript script.now.head script.now.actors }
        requires hooks { sum_by setups_in script.now.actors ≤ length rack.old.hooks.items }
        ensures started { IfOk result (λ run. run ≡ at_start script.now.head script.now.actors run.hooks) }
        ensures rack { OnOk result (TakesLast rack.old rack.new (sum_by setups_in script.now.actors)) }
        ensures loaded { IfOk result (λ run. OneForEachSetup script.now.actors run.hooks) }
        ensures hooks { IfOk result (λ run. AreDealtFrom H.counts rack.old rack.new (hooks_there run.hooks)) }
    {
        let actors = actors_of(alloc, script, rack)?;
        let board = seated_board(alloc, script.head(), script.actors())?;
        let threads = present_count(script.head());
        Ok(Run {
            board,
            threads,
            last_end: 0,
            actors,
        })
    }
}

/// The actors of a script, of whose operations none is answered. Each setup has a hook of its own, as it is in the
/// rack: one after the other they take the last. No other operation has one.
///
/// The rack has as many hooks as the script has setups. Takes memory; where there is none, some hooks of the rack
/// are lost: `NoMemory`. This project's own.
pub fn actors_of<H: Hook>(
    alloc: Global,
    script: &Script,
    rack: &mut Rack<H>,
) -> Result<Vec<Actor<H>>, NoMemory>
    requires { sum_by setups_in script.now.actors ≤ length rack.old.hooks.items }
    ensures ops { IfOk result (λ actors. map ops_of actors.items ≡ script.now.actors) }
    ensures fresh { IfOk result (λ actors. IsFresh actors.items) }
    ensures rack { OnOk result (TakesLast rack.old rack.new (sum_by setups_in script.now.actors)) }
    ensures hooks { IfOk result (λ actors.
        AreDealtFrom H.counts rack.old rack.new (hooks_among H.counts actors.items)) }
{
    let mut actors = Vec::new(alloc);
    for number in 0..script.actors() {
        actors.push(Actor::new(alloc, script.ops(number), rack)?)?;
    }
    Ok(actors)
}
