//! Turns of the seats of a run.

ghost use Rattle.std.specs.Prelude.{◌≡◌, ◌+◌, ◌<◌, OnOk, length, slice_get};
ghost use Rattle.hp_smt.specs.Run.{writes};
ghost use Rattle.hp_smt_run.specs.Hooks.{IsMadeLater, TurnsHooks};
ghost use Rattle.hp_smt_run.specs.Playing.{IsPlaying, IsTurned, IsRounded};

use crate::run::SmtRun;
use crate::step::step;
use crate::written::{Written, online_on};
use hp_board::Turn;
use hp_hook::Hook;
use hp_smt::Control;
use hp_states::NoMemory;
use std::alloc::Global;

impl<H: Hook> SmtRun<H> {
    /// One turn of each seat, in rising number: of the threads, of the actors, and of the client that writes.
    ///
    /// Takes memory as turns do.
    pub(crate) fn round(&mut self, alloc: Global) -> Result<(), NoMemory>
        requires { IsPlaying self.old }
        ensures rounded { OnOk result (IsRounded self.old self.new) }
        ensures made { OnOk result (IsMadeLater H.counts self.old self.new) }
    {
        self.smt.sound();
        for seat in 0..self.seats {
            self.serve(seat);
        }
        for place in 0..self.actors.len() {
            self.ask(place)?;
        }
        self.write(alloc)
    }

    /// One turn of a thread's seat. Takes no memory.
    fn serve(&mut self, seat: u32)
        requires playing { IsPlaying self.old }
        requires thread { seat < self.old.seats }
        ensures turned { IsTurned seat self.old self.new }
        ensures hooks { TurnsHooks H.counts seat self.old self.new }
    {
        self.smt.sound();
        self.smt.serve(seat);
        self.smt.sound();
    }

    /// One turn of an actor's seat.
    ///
    /// Takes memory as the machine's turn does, and for what is denied.
    fn ask(&mut self, place: usize) -> Result<(), NoMemory>
        requires playing { IsPlaying self.old }
        requires actor { place < length self.old.actors.items }
        ensures turned { OnOk result (IsTurned (self.old.seats + place) self.old self.new) }
        ensures hooks { OnOk result (TurnsHooks H.counts (self.old.seats + place) self.old self.new) }
    {
        let seat = self.seats + place as u32;
        step(
            &mut self.actors[place],
            &mut self.smt,
            &mut self.denied,
            seat,
        )?;
        self.smt.sound();
        Ok(())
    }

    /// One turn of the seat of the client that writes.
    ///
    /// Takes memory as a write of control does, and for what is answered.
    fn write(&mut self, alloc: Global) -> Result<(), NoMemory>
        requires { IsPlaying self.old }
        ensures turned { OnOk result (IsTurned (self.old.seats + length self.old.actors.items) self.old self.new) }
        ensures hooks { OnOk result (TurnsHooks H.counts (self.old.seats + length self.old.actors.items) self.old self.new) }
    {
        self.smt.sound();
        let Some(want) = self.next_write() else {
            return Ok(());
        };
        let seat = self.seats + self.actors.len() as u32;
        let turn = self.smt.control(seat, want)?;
        self.smt.sound();
        match turn {
            Turn::Answered { answer, .. } => {
                let online = online_on(alloc, self.smt.board())?;
                self.written.push(Written {
                    want,
                    answer,
                    online,
                })?;
                Ok(())
            }
            Turn::Made { .. } => Ok(()),
            Turn::NotYet(_) => Ok(()),
        }
    }

    /// What the client writes next, if it isn't through. Takes no memory.
    fn next_write(&self) -> Option<Control>
        ensures { result ≡ slice_get (writes self.now.want) (length self.now.written.items) }
    {
        match self.written.len() {
            0 => Some(self.want),
            1 => Some(Control::On),
            _ => None,
        }
    }
}
