//! The end of a run.

ghost use Rattle.std.specs.Prelude.{◌≡◌, true, None, IfOk, OnOk};
ghost use Rattle.std.specs.List.{sum_by};
ghost use Rattle.hp_actors.specs.Racks.{HasMore};
ghost use Rattle.hp_model.specs.MapLock.{operation};
ghost use Rattle.hp_model.specs.Registrations.{registration};
ghost use Rattle.hp_script.specs.Playable.{setups_in};
ghost use Rattle.hp_smt.specs.Run.{is_over};
ghost use Rattle.hp_smt_run.specs.Ended.{GivesBack};
ghost use Rattle.hp_smt_run.specs.Playing.{IsPlaying, ops_in, state_of};

use crate::run::SmtRun;
use hp_actors::give_back;
use hp_event::Journal;
use hp_hook::{Hook, Rack};
use hp_states::NoMemory;

impl<H: Hook> SmtRun<H> {
    /// What holds where a run is over: nothing is in flight. Does nothing, and takes no memory. This project's own.
    pub fn rests(&self)
        requires playing { IsPlaying self.now }
        requires over { is_over (ops_in self.now) (state_of self.now) ≡ true }
        ensures operation { operation self.now.smt.board.events ≡ None }
        ensures registration { registration self.now.smt.board.events ≡ None }
    {}

    /// Gives the run up: its journal is answered, and its hooks go behind those of the rack, which stay as they are. First
    /// come those that operations have, by actor and operation, as they came back; and last those of the registered
    /// states, in rising state, each with the plan of its subsystem and having counted the calls of the journal. No hook is
    /// lost: those of all setups are there.
    ///
    /// The run is over. The rack may be any. Takes memory for places in it; where that is wanting, some hooks are lost:
    /// `NoMemory`. This project's own.
    pub fn finish(self, rack: &mut Rack<H>) -> Result<Journal, NoMemory>
        requires playing { IsPlaying self }
        requires over { is_over (ops_in self) (state_of self) ≡ true }
        ensures head { IfOk result (λ journal. journal.head ≡ self.smt.board.head) }
        ensures events { IfOk result (λ journal. journal.events ≡ self.smt.board.events) }
        ensures rack { OnOk result (GivesBack H.counts self rack.old rack.new) }
        ensures all { OnOk result (HasMore rack.old rack.new (sum_by setups_in (ops_in self))) }
    {
        self.smt.sound();
        self.rests();
        let SmtRun { smt, actors, .. } = self;
        give_back(actors, rack)?;
        match smt.into_board().retire(rack) {
            Ok(journal) => Ok(journal),
            Err((error, board)) => {
                // Lets the board go with its hooks, by a call that is proved once.
                board.into_journal();
                Err(error)
            }
        }
    }
}
