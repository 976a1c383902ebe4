//! Rounds: one turn of each seat, in rising number.

ghost use Rattle.std.specs.Prelude.{◌≡◌, ℕ, ◌+◌, ◌<◌, IfSome, IfNone, OnOk, List, length, true};
ghost use Rattle.hp_account.specs.UnderWay.{IsNextThreadDue, NoThreadDueFrom};
ghost use Rattle.hp_model.specs.Processors.{present};
ghost use Rattle.hp_model.specs.ScriptRun.{is_over};
ghost use Rattle.hp_actors.specs.Hooks.{IsLater, KeepsHooks};
ghost use Rattle.hp_actors.specs.Runs.{IsAfterTurns, IsWholeRun, further_round, after_threads};

use crate::run::Run;
use hp_hook::Hook;
use hp_states::NoMemory;

impl<H: Hook> Run<H> {
    /// Rounds, until every operation is answered.
    ///
    /// Takes memory as turns do; where that is wanting the run stands where it came: `NoMemory`.
    #[tactic(auto, using(crate::proofs::Later::later_same))]
    pub(crate) fn play_rounds(&mut self) -> Result<(), NoMemory>
        ensures ran { (seats : List ℕ) →
            IsAfterTurns seats self.old → OnOk result (IsWholeRun seats self.old self.new) }
        ensures head { self.new.head ≡ self.old.head }
        ensures actors { self.new.actors ≡ self.old.actors }
        ensures made { IsLater self.old self.new }
        ensures kept { KeepsHooks self.old self.new }
        ensures over { OnOk result (is_over self.new.actors self.new.progress ≡ true) }
    {
        self.sound();
        while !self.is_over() {
            self.round()?;
            self.sound();
        }
        Ok(())
    }

    /// One turn of each seat, in rising number.
    ///
    /// Takes memory as turns do; where that is wanting the run stands where it came: `NoMemory`.
    fn round(&mut self) -> Result<(), NoMemory>
        ensures ok { OnOk result (self.new.progress ≡ further_round self.old) }
        ensures head { self.new.head ≡ self.old.head }
        ensures actors { self.new.actors ≡ self.old.actors }
        ensures made { IsLater self.old self.new }
        ensures kept { KeepsHooks self.old self.new }
    {
        self.serve_threads();
        let (first, last) = self.actors_seats();
        for seat in first..last {
            if self.actor_waits((seat - first) as usize) {
                continue;
            }
            self.turn(seat)?;
        }
        Ok(())
    }

    /// The seat of the first actor, and the number after that of the last.
    pub(crate) fn actors_seats(&self) -> (u32, u32)
        ensures first { result.0 ≡ length (present self.now.head) }
        ensures last { result.1 ≡ length (present self.now.head) + length self.now.actors }
    {
        (self.threads, self.threads + self.actors.len() as u32)
    }

    /// One turn of each thread's seat, in rising number, which is that of its processor. Those that have nothing
    /// to make are passed over.
    ///
    /// Takes no memory.
    fn serve_threads(&mut self)
        ensures progress { self.new ≡ after_threads self.old }
        ensures made { IsLater self.old self.new }
    {
        self.sound();
        let mut from = 0;
        while let Some((cpu, seat)) = self.next_thread_due(from) {
            from = cpu + 1;
            self.serve(seat);
        }
    }

    /// The lowest processor from one on of which an entry is due from its thread, and the thread's seat, if there is
    /// one. Takes no memory.
    fn next_thread_due(&self, from: u32) -> Option<(u32, u32)>
        ensures due { IfSome result (IsNextThreadDue self.now.head self.now.progress.events from) }
        ensures counted { IfSome result (λ due. due.0 < u32.MAX) }
        ensures idle { IfNone result (NoThreadDueFrom self.now.head self.now.progress.events from) }
    {
        self.board.sound();
        self.board.next_thread_due(from)
    }

    /// Whether every operation is answered. Takes no memory.
    pub(crate) fn is_over(&self) -> bool
        ensures { result ≡ is_over self.now.actors self.now.progress }
    {
        for actor in self.actors.as_slice() {
            if !actor.is_done() {
                return false;
            }
        }
        true
    }
}
