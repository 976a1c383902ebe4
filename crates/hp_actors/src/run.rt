//! The run of a script.

ghost use Rattle.std.specs.Prelude.{◌≡◌, ◌↔◌, ◌+◌, ◌<◌, OnOk, OnErr, length, true};
ghost use Rattle.hp_model.specs.Processors.{present};
ghost use Rattle.hp_event.specs.declared.op.Op.{Op as AnOp};
ghost use Rattle.hp_actors.specs.RunInvariant.{IsReached};
ghost use Rattle.hp_actors.specs.Hooks.{KeepsHooks, turned};
ghost use Rattle.hp_actors.specs.PassedOver.{MakesNoEvent, WaitsForThread};
ghost use Rattle.hp_model.specs.Scripts.{IsScript};
ghost use Rattle.hp_actors.specs.Runs.{further, StaysAfter};

use crate::actor::{Actor, Waits};
use crate::step::step;
use hp_board::Board;
use hp_hook::Hook;
use hp_states::NoMemory;
use std::marker::Model;

/// A run of a script: the machine, and the actors whose turns come.
///
/// Contracts see the script's head, the operations of each actor, how far the run has come (`Position`): the
/// events so far, and how many operations of each actor are answered; and what the hook of each operation has
/// counted, where it has one. The script is one that can be played, and turns of its seats made the run at any
/// time.
#[derive(Drop)]
pub struct Run<H: Hook> {
    pub(crate) board: Board<H>,
    /// How many threads there are: their seats come before those of the actors.
    pub(crate) threads: u32,
    /// How many events there were with the last end of an operation, a walk or a registration: no wait ends by
    /// anything else.
    pub(crate) last_end: u32,
    pub(crate) actors: Vec<Actor<H>>,
}

impl<H: Hook> Model for Run<H> {
    ghost use Rattle.hp_table.specs.Step.{AllHome};
    ghost use Rattle.hp_actors.specs.RunInvariant.{IsPlaying};
    ghost use Rattle.hp_actors.specs.Positions.{Position, position_of};
    ghost use Rattle.hp_actors.specs.PassedOver.{KnowsWaits};

    ghost Value = { Position };

    ghost view = { λ r. position_of H.counts r.board r.actors.items };

    ghost invariant = { λ r. record {
      playing : IsPlaying r.board r.threads r.actors.items;
      waits : KnowsWaits r.board r.threads r.last_end r.actors.items;
      home : AllHome r.board.places;
    } };
}

impl<H: Hook> Run<H> {
    /// What holds of a run at any time. Does nothing.
    pub(crate) fn sound(&self)
        ensures script { IsScript self.now.head self.now.actors }
        ensures reached { IsReached self.now.head self.now.actors self.now.progress }
    {
        // What is so of every run is known once a field is read.
        let _ = &self.threads;
    }

    /// One turn of a thread's seat: it makes the entry that is due from it, if one is. The operations keep
    /// their hooks. Takes no memory.
    #[inline(always)]
    pub(crate) fn serve(&mut self, seat: u32)
        requires { seat < length (present self.old.head) }
        ensures { self.new ≡ record self.old { progress = further self.old seat } }
    {
        self.board.serve(seat);
    }

    /// One turn of a seat: the thread of a processor makes the entry that is due from it, an actor goes on with
    /// its first operation that isn't answered, if there is one, and a number that is no seat does nothing.
    ///
    /// The seat may be any number: first come the threads of the present processors, in rising number, and
    /// after them the actors. What the seat waits for leaves the run as it was, which is no error.
    ///
    /// Of all hooks only that of the actor's operation changes: a setup's goes with its begin, and comes back
    /// where it faulted, as does that of a state that is removed, each with the plan of its subsystem and having
    /// counted the calls of the journal.
    ///
    /// Takes memory for a first event and for the begin of a walk; where that is wanting the run is as before:
    /// `NoMemory`. Turns are this project's own.
    pub fn turn(&mut self, seat: u32) -> Result<(), NoMemory>
        ensures ok { OnOk result (self.new ≡ turned self.old seat) }
        ensures err { OnErr result (self.new ≡ self.old) }
        ensures kept { KeepsHooks self.old self.new }
    {
        if seat < self.threads {
            self.serve(seat);
            return Ok(());
        }
        let place = (seat - self.threads) as usize;
        if place >= self.actors.len() {
            return Ok(());
        }
        step(
            &mut self.actors[place],
            &mut self.board,
            &mut self.last_end,
            seat,
        )
    }

    /// Whether a seat is that of an actor whose next turn makes nothing: it waits as it did at its last turn, or
    /// for the thread of a processor, or has no operation left. It is passed over. No number that isn't an actor's
    /// seat waits.
    ///
    /// Takes no memory, and a few steps where a turn takes hundreds.
    pub(crate) fn still_waits(&self, seat: u32) -> bool
        ensures { result ≡ true → StaysAfter self.now seat }
    {
        if seat < self.threads {
            return false;
        }
        self.actor_waits((seat - self.threads) as usize)
    }

    /// Whether the next turn of an actor makes nothing, as `still_waits` says it of its seat: of the actor at a
    /// place of their list. Takes no memory.
    #[inline(always)]
    pub(crate) fn actor_waits(&self, place: usize) -> bool
        ensures { result ≡ true → StaysAfter self.now (length (present self.now.head) + place) }
    {
        match self.actors.get(place) {
            Some(actor) => match actor.waits() {
                Waits::Unknown => waits_for_thread(&self.board, self.threads + place as u32),
                Waits::WhileMapHeld => self.board.holder().is_some(),
                Waits::UntilEnd(end) => end == self.last_end,
                Waits::Forever => true,
            },
            None => false,
        }
    }
}

/// Whether the next entry of a seat's operation in flight is a thread's to make: until it is made, a turn of the
/// seat makes nothing. Takes no memory.
fn waits_for_thread<H: Hook>(board: &Board<H>, seat: u32) -> bool
    ensures exactly { (result ≡ true) ↔ WaitsForThread board.now.head board.now.events seat }
    ensures nothing { result ≡ true → (op : AnOp) → MakesNoEvent board.now.head board.now.events seat op }
{
    board.sound();
    board.ap_turn(seat).is_some()
}
