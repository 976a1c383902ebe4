//! The end of a run.

ghost use Rattle.std.specs.Prelude.{◌≡◌, ◌+◌, ◌++◌, true, None, OnOk, sum_by};
ghost use Rattle.hp_script.specs.Playable.{setups_in};
ghost use Rattle.hp_board.specs.Retired.{PutsBehind};
ghost use Rattle.hp_model.specs.MapLock.{operation};
ghost use Rattle.hp_model.specs.Registrations.{registration};
ghost use Rattle.hp_model.specs.ScriptRun.{is_over};
ghost use Rattle.hp_actors.specs.Hooks.{hooks_at_end};
ghost use Rattle.hp_actors.specs.Racks.{HasMore, actors_hooks};

use crate::actor::Actor;
use crate::run::Run;
use hp_board::Board;
use hp_hook::{Hook, Rack};
use hp_states::NoMemory;

impl<H: Hook> Run<H> {
    /// The machine as it stands, at any time. Takes no memory. This project's own.
    pub fn board(&self) -> &Board<H>
        ensures head { result.now.head ≡ self.now.head }
        ensures events { result.now.events ≡ self.now.progress.events }
    {
        let _ = &self.threads;
        &self.board
    }

    /// What holds where every operation is answered: nothing is in flight.
    ///
    /// Every operation is answered. Does nothing, and takes no memory. This project's own.
    pub fn rests(&self)
        requires { is_over self.now.actors self.now.progress ≡ true }
        ensures operation { operation self.now.progress.events ≡ None }
        ensures registration { registration self.now.progress.events ≡ None }
    {
        let _ = &self.threads;
    }

    /// Gives the run up: its hooks go behind those of the rack, which stay as they are. First come those that
    /// operations have, by actor and operation, as they came back; and last those of the registered states, in
    /// rising state, each with the plan of its subsystem and having counted the calls of the journal. No hook is
    /// lost: those of all setups are there.
    ///
    /// Every operation is answered. The rack may be any. Takes memory for places in it; where that is wanting, some
    /// hooks are lost: `NoMemory`. This project's own.
    pub fn finish(self, rack: &mut Rack<H>) -> Result<(), NoMemory>
        requires { is_over self.actors self.progress ≡ true }
        ensures hooks { OnOk result (PutsBehind H.counts rack.old rack.new (hooks_at_end self)) }
        ensures all { OnOk result (HasMore rack.old rack.new (sum_by setups_in self.actors)) }
    {
        self.rests();
        let Run { board, actors, .. } = self;
        let given = give_back(actors, rack);
        match board.retire(rack) {
            Ok(_) => given,
            Err((error, board)) => {
                // Lets the board go with its hooks, by a call that is proved once.
                board.into_journal();
                Err(error)
            }
        }
    }
}

/// Gives actors up: the hooks that their operations have go behind those of the rack, by actor and operation.
///
/// Takes memory for places in the rack; where that is wanting, some hooks are lost: `NoMemory`. This project's own.
pub fn give_back<H: Hook>(actors: Vec<Actor<H>>, rack: &mut Rack<H>) -> Result<(), NoMemory>
    ensures { OnOk result (rack.new.hooks.items ≡ rack.old.hooks.items ++ actors_hooks actors.items) }
{
    for actor in actors {
        actor.give_back(rack)?;
    }
    Ok(())
}
