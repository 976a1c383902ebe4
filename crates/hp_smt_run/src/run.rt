//! The run of a script under SMT control, from its start to its end.

ghost use Rattle.std.specs.Prelude.{◌≡◌, ◌+◌, ◌≤◌, IfOk, OnOk, length, map, sum_by};
ghost use Rattle.hp_model.specs.Processors.{present};
ghost use Rattle.hp_model.specs.Scripts.{IsScript};
ghost use Rattle.hp_script.specs.Playable.{setups_in};
ghost use Rattle.hp_states.specs.declared.limits.TheConstants.{MAX_SEATS};
ghost use Rattle.hp_actors.specs.Hooks.{OneForEachSetup, AreDealtFrom, hooks_among};
ghost use Rattle.hp_actors.specs.Positions.{hooks_of};
ghost use Rattle.hp_actors.specs.Racks.{TakesLast};
ghost use Rattle.hp_smt.specs.Run.{smt_start};
ghost use Rattle.hp_smt_run.specs.Playing.{IsPlaying, setup, setup_of, state_of};

use crate::written::Written;
use hp_actors::{Actor, actors_of, present_count, seated_board};
use hp_hook::{Hook, Rack};
use hp_model::set_is_of_its_numbers;
use hp_script::Script;
use hp_smt::{Control, Smt};
use hp_states::NoMemory;
use std::alloc::Global;

/// The run of a script under SMT control: the machine with its control, the actors whose turns come, and what came of
/// the writes and of the operations that were denied.
#[derive(Drop)]
pub struct SmtRun<H: Hook> {
    pub smt: Smt<H>,
    /// How many threads there are: their seats come before those of the actors, and the seat of the client that writes
    /// comes last.
    pub seats: u32,
    pub actors: Vec<Actor<H>>,
    /// What the client writes before it writes On.
    pub want: Control,
    /// The writes that are answered.
    pub written: Vec<Written>,
    /// Of each operation that was denied its seat, in the order of turns.
    pub denied: Vec<u32>,
}

impl<H: Hook> SmtRun<H> {
    /// The start of a script's run: every seat is in, and nothing has begun. Each setup has a hook of its own, as it is
    /// in the rack: one after the other they take the last.
    ///
    /// The script is one that can be played, there is a seat more than for its threads and actors, cores have 2 to 8
    /// threads, and the rack has as many hooks as the script has setups. Takes memory; where there is none, some hooks of
    /// the rack are lost: `NoMemory`. This project's own.
    pub fn start(
        alloc: Global,
        script: &Script,
        threads: u32,
        want: Control,
        rack: &mut Rack<H>,
    ) -> Result<SmtRun<H>, NoMemory>
        requires script { IsScript script.now.head script.now.actors }
        requires seats { length (present script.now.head) + length script.now.actors + 1 ≤ MAX_SEATS }
        requires at_least_two { 2 ≤ threads }
        requires at_most_eight { threads ≤ 8 }
        requires hooks { sum_by setups_in script.now.actors ≤ length rack.old.hooks.items }
        ensures playing { IfOk result IsPlaying }
        ensures of_script { IfOk result (λ run. setup_of run ≡ setup script.now.head threads script.now.actors want) }
        ensures started { IfOk result (λ run. state_of run ≡ smt_start script.now.head script.now.actors) }
        ensures rack { OnOk result (TakesLast rack.old rack.new (sum_by setups_in script.now.actors)) }
        ensures loaded { IfOk result (λ run. OneForEachSetup script.now.actors (map (hooks_of H.counts) run.actors.items)) }
        ensures hooks { IfOk result (λ run. AreDealtFrom H.counts rack.old rack.new (hooks_among H.counts run.actors.items)) }
    {
        let actors = actors_of(alloc, script, rack)?;
        let board = seated_board(alloc, script.head(), script.actors() + 1)?;
        let seats = present_count(script.head());
        let smt = Smt::over(board, threads);
        set_is_of_its_numbers(smt.recorded());
        Ok(SmtRun {
            smt,
            seats,
            actors,
            want,
            written: Vec::new(alloc),
            denied: Vec::new(alloc),
        })
    }
}
