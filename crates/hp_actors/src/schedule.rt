//! The turns of a schedule.

ghost use Rattle.std.specs.Prelude.{◌≡◌, OnOk, true};
ghost use Rattle.hp_model.specs.Schedule.{mix};
ghost use Rattle.hp_model.specs.ScriptRun.{start, is_over};
ghost use Rattle.hp_script.specs.Schedules.{schedule_written};
ghost use Rattle.hp_actors.specs.Hooks.{IsLater, KeepsHooks};
ghost use Rattle.hp_actors.specs.Runs.{IsWholeRunBy, further_on, further_by};

use crate::run::Run;
use hp_hook::Hook;
use hp_script::{Draws, Schedule};
use hp_states::NoMemory;

impl<H: Hook> Run<H> {
    /// The whole run: the turns of the script's schedule, and then rounds until every operation is answered.
    ///
    /// The run is at its start. Turns of its seats made each hook that operations have then; one that came back
    /// isn't used again, and stays as it came back. Takes memory as turns do; where that is wanting the run
    /// stands where it came: `NoMemory`. Schedules are this project's own.
    pub fn play(&mut self, schedule: &Schedule) -> Result<(), NoMemory>
        requires { self.old.progress ≡ start self.old.head self.old.actors }
        ensures ran { OnOk result (IsWholeRunBy (schedule_written schedule.now) self.old self.new) }
        ensures head { self.new.head ≡ self.old.head }
        ensures actors { self.new.actors ≡ self.old.actors }
        ensures made { IsLater self.old self.new }
        ensures kept { KeepsHooks self.old self.new }
        ensures over { OnOk result (is_over self.new.actors self.new.progress ≡ true) }
    {
        self.play_schedule(schedule)?;
        self.play_rounds()
    }

    /// The turns of a schedule, before the rounds.
    fn play_schedule(&mut self, schedule: &Schedule) -> Result<(), NoMemory>
        ensures ok { OnOk result (self.new.progress ≡ further_on self.old (schedule_written schedule.now)) }
        ensures head { self.new.head ≡ self.old.head }
        ensures actors { self.new.actors ≡ self.old.actors }
        ensures made { IsLater self.old self.new }
        ensures kept { KeepsHooks self.old self.new }
    {
        match schedule {
            Schedule::Rounds => Ok(()),
            Schedule::Turns(seats) => self.play_turns(seats.as_slice()),
            Schedule::Mix { seed, turns } => self.play_drawn(*seed, *turns),
        }
    }

    /// One turn of each of some seats, in their order.
    #[tactic(auto, using(crate::proofs::Later::later_same))]
    fn play_turns(&mut self, seats: &[u32]) -> Result<(), NoMemory>
        ensures ok { OnOk result (self.new.progress ≡ further_by self.old seats.now) }
        ensures head { self.new.head ≡ self.old.head }
        ensures actors { self.new.actors ≡ self.old.actors }
        ensures made { IsLater self.old self.new }
        ensures kept { KeepsHooks self.old self.new }
    {
        for seat in seats {
            if self.still_waits(*seat) {
                continue;
            }
            self.turn(*seat)?;
        }
        Ok(())
    }

    /// So many turns of seats that are drawn from a seed.
    #[tactic(auto, using(crate::proofs::Later::later_same))]
    fn play_drawn(&mut self, seed: u64, turns: u32) -> Result<(), NoMemory>
        ensures ok { OnOk result (self.new.progress ≡ further_on self.old (mix seed turns)) }
        ensures head { self.new.head ≡ self.old.head }
        ensures actors { self.new.actors ≡ self.old.actors }
        ensures made { IsLater self.old self.new }
        ensures kept { KeepsHooks self.old self.new }
    {
        self.sound();
        let (_, seats) = self.actors_seats();
        let mut draws = Draws::new(seed);
        for _ in 0..turns {
            let seat = draws.draw(seats);
            if self.still_waits(seat) {
                continue;
            }
            self.turn(seat)?;
        }
        Ok(())
    }
}
