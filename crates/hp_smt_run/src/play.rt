//! The rounds of a run, to its end.

ghost use Rattle.std.specs.Prelude.{◌≡◌, OnOk};
ghost use Rattle.hp_model.specs.ScriptRun.{is_over as all_answered};
ghost use Rattle.hp_smt.specs.Run.{is_over, smt_start};
ghost use Rattle.hp_smt_run.specs.Hooks.{IsMadeLater};
ghost use Rattle.hp_smt_run.specs.Playing.{IsPlaying, IsPlayed, ops_in, run_of, state_of};

use crate::run::SmtRun;
use hp_hook::Hook;
use hp_states::NoMemory;
use std::alloc::Global;

impl<H: Hook> SmtRun<H> {
    /// Rounds, until each operation is answered or denied and both writes are answered. What turns make of the hooks of
    /// operations, `specs/Hooks.antt` says.
    ///
    /// The run is at its start. Takes memory as turns do, for what is denied and for what is written; where that is
    /// wanting the run stands somewhere: `NoMemory`. This project's own.
    pub fn play(&mut self, alloc: Global) -> Result<(), NoMemory>
        requires playing { IsPlaying self.old }
        requires start { state_of self.old ≡ smt_start self.old.smt.board.head (ops_in self.old) }
        ensures played { OnOk result (IsPlayed self.old self.new) }
        ensures made { OnOk result (IsMadeLater H.counts self.old self.new) }
    {
        while !self.is_over() {
            self.round(alloc)?;
        }
        Ok(())
    }

    /// Whether each operation is answered or denied, and both writes are answered. Takes no memory.
    pub fn is_over(&self) -> bool
        ensures { result ≡ is_over (ops_in self.now) (state_of self.now) }
    {
        self.all_answered() && self.written.len() == 2
    }

    /// Whether each operation is answered or denied. Takes no memory.
    fn all_answered(&self) -> bool
        ensures { result ≡ all_answered (ops_in self.now) (run_of self.now) }
    {
        for actor in self.actors.as_slice() {
            if !actor.is_done() {
                return false;
            }
        }
        true
    }
}
