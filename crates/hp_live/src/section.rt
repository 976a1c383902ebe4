//! The end of a lock section, and sections of a client's and a thread's seat.

ghost use Rattle.std.specs.Prelude.{◌≡◌, ◌≤◌, ℕ, Some, None, IfSome, IfNone, is_some};
ghost use Rattle.hp_board.specs.Loans.{loan, AreLoans};
ghost use Rattle.hp_live.specs.HeldSteps.{Keeps, KeepsAsk, ServesOut, WaitsOut};
ghost use Rattle.hp_live.specs.Known.{IsOf, IsSamePass, IsSight, IsStill};
ghost use Rattle.hp_live.specs.Lending.{lent_pairs};
ghost use Rattle.hp_live.specs.Runs.{EnteredIn};
ghost use Rattle.hp_live.specs.Sections.{CanAsk};
ghost use Rattle.hp_live.specs.Steps.{CanPut, IsInside, IsPut, StepsTo, StepsIn, ServesTo, ServesIn, GivesTo, GivesIn, lent_by, lent_of};
ghost use Rattle.hp_live.specs.Tries.{lent_beside};
ghost use Rattle.hp_machine.specs.Clients.{clients};
ghost use Rattle.hp_turn.specs.Passes.{IsPassOf};

use crate::gate::Gate;
use crate::hotplug::Hotplug;
use crate::live::Live;
use crate::seat::Seat;
use crate::sight::Sight;
use crate::step::{Step, Stepped, lend_or_serve, lend_or_turn};
use hp_board::{Ask, Back, Turn};
use hp_hook::Hook;
use hp_states::NoMemory;
use hp_turn::{Grown, TurnPass};
use std::sync::Wait;

impl<H: Hook + Send> Hotplug<H> {
    /// Puts the board back, ends the section, and answers how many events the journal has.
    pub(crate) fn put_back(&self, pass: &mut TurnPass<Live<H>>, live: Live<H>) -> u64
        requires own { IsPassOf self.now.lock pass.old }
        requires put { CanPut pass.old live.board }
        ensures put { IsPut pass.old pass.new live.board }
        ensures sight { IsSight pass.new result }
        ensures loans { AreLoans live.board }
    {
        live.board.sound();
        let seen = live.length();
        self.wakes.mark(&live.board);
        self.lock.unlock(pass, live);
        seen
    }

    /// One lock section of a client's seat: a hook is lent, or a turn is taken.
    pub(crate) fn turn_section<R: Wait>(
        &self,
        rt: &R,
        sight: &mut Sight<H>,
        seat: u32,
        ask: &mut Ask<H>,
    ) -> Result<Step<H>, NoMemory>
        requires own { IsOf self.now sight.old.lock }
        requires seat { sight.old.seat ≡ Some seat }
        requires nothing { sight.old.aside ≡ None }
        requires asked { CanAsk sight.old.head sight.old.front seat ask.old.op (is_some ask.old.hook) }
        ensures still { IsStill sight.old sight.new }
        ensures steps { StepsIn H.counts seat ask.old ask.new sight.old sight.new result }
        ensures lent { sight.new.aside ≡ lent_of result }
        ensures op { ask.new.op ≡ ask.old.op }
    {
        let live = self.lock.lock(rt, &mut sight.turn);
        live.board.sound();
        let (step, seen) = self.turn_held(&mut sight.turn, live, seat, ask);
        sight.seen = seen;
        step
    }

    /// A section of a client's seat on a board that its pass holds.
    pub(crate) fn turn_held(
        &self,
        pass: &mut TurnPass<Live<H>>,
        live: Live<H>,
        seat: u32,
        ask: &mut Ask<H>,
    ) -> (Result<Step<H>, NoMemory>, u64)
        requires own { IsPassOf self.now.lock pass.old }
        requires inside { IsInside pass.old live.board }
        requires seat { pass.old.seat ≡ Some seat }
        requires nothing { loan live.board seat ≡ None }
        requires asked { CanAsk live.board.head live.board.events seat ask.old.op (is_some ask.old.hook) }
        ensures still { IsStill pass.old pass.new }
        ensures sight { IsSight pass.new result.1 }
        ensures steps { StepsTo seat ask.old.op (is_some ask.old.hook) (is_some ask.new.hook)
            live.board pass.new result.0 }
        ensures lent { pass.new.aside ≡ lent_of result.0 }
        ensures op { ask.new.op ≡ ask.old.op }
        ensures keeps { Keeps seat pass.old pass.new }
        ensures others { lent_beside seat pass.new.kept ≡ lent_pairs live.board }
        ensures waits { WaitsOut live.board seat ask.old.op result.0 }
        ensures ask { KeepsAsk H.counts live.board seat ask.old ask.new result.0 }
    {
        let mut live = live;
        live.board.sound();
        let step = lend_or_turn(&mut live.board, seat, ask);
        self.wakes.note_client(&live.board, seat, &step);
        let seen = self.put_back(pass, live);
        (step, seen)
    }

    /// One lock section of a thread's seat: a hook is lent, or a turn is taken. And how many clients are in
    /// then.
    pub(crate) fn serve_section<R: Wait>(
        &self,
        rt: &R,
        sight: &mut Sight<H>,
        seat: u32,
    ) -> (Step<H>, u32)
        requires own { IsOf self.now sight.old.lock }
        requires seat { sight.old.seat ≡ Some seat }
        requires nothing { sight.old.aside ≡ None }
        ensures still { IsStill sight.old sight.new }
        ensures serves { ServesIn seat sight.old sight.new result.0 }
        ensures lent { sight.new.aside ≡ lent_by result.0 }
        ensures clients { result.1 ≡ clients sight.new.front }
    {
        let live = self.lock.lock(rt, &mut sight.turn);
        live.board.sound();
        let (step, count, seen) = self.serve_held(&mut sight.turn, live, seat);
        sight.seen = seen;
        (step, count)
    }

    /// A section of a thread's seat on a board that its pass holds.
    pub(crate) fn serve_held(
        &self,
        pass: &mut TurnPass<Live<H>>,
        live: Live<H>,
        seat: u32,
    ) -> (Step<H>, u32, u64)
        requires own { IsPassOf self.now.lock pass.old }
        requires inside { IsInside pass.old live.board }
        requires seat { pass.old.seat ≡ Some seat }
        requires nothing { loan live.board seat ≡ None }
        ensures still { IsStill pass.old pass.new }
        ensures sight { IsSight pass.new result.2 }
        ensures serves { ServesTo seat live.board pass.new result.0 }
        ensures lent { pass.new.aside ≡ lent_by result.0 }
        ensures clients { result.1 ≡ clients pass.new.front }
        ensures keeps { Keeps seat pass.old pass.new }
        ensures others { lent_beside seat pass.new.kept ≡ lent_pairs live.board }
        ensures waits { ServesOut live.board seat result.0 }
    {
        let mut live = live;
        live.board.sound();
        let step = lend_or_serve(&mut live.board, seat);
        self.wakes.note_thread(&live.board, seat, &step);
        let count = live.board.clients();
        let seen = self.put_back(pass, live);
        (step, count, seen)
    }

    /// What each step of a seat begins with: it passes its gate, and the hook that it carries comes home in a section, if it
    /// carries one. None where it carries none.
    pub(crate) fn give_step<R: Wait, G: Gate>(
        &self,
        rt: &R,
        gate: &G,
        own: &mut Seat<H>,
        last: bool,
    ) -> Option<Stepped>
        requires { IsOf self.now own.old.lock }
        ensures same { IsSamePass own.old own.new }
        ensures none { IfNone result ((own.new ≡ own.old) × (own.old.lent ≡ None)) }
        ensures entered { IfSome result (EnteredIn own.old.head own.old.seat own.old.front own.new.front) }
        ensures nothing { IfSome result (λ _. own.new.lent ≡ None) }
    {
        gate.pass(own.number, own.sections, last);
        own.sections = own.sections.saturating_add(1);
        let back = own.back.take()?;
        let at = self.give_section(rt, &mut own.sight, own.number, back);
        Some(Stepped::Turned(Turn::Made { at }))
    }

    /// One lock section in which the hook that was lent to a seat comes home and its entry is made, at the
    /// place that is answered.
    fn give_section<R: Wait>(&self, rt: &R, sight: &mut Sight<H>, seat: u32, back: Back<H>) -> u32
        requires own { IsOf self.now sight.old.lock }
        requires seat { sight.old.seat ≡ Some seat }
        requires lent { sight.old.aside ≡ Some back }
        ensures still { IsStill sight.old sight.new }
        ensures gives { GivesIn seat sight.old sight.new result }
        ensures nothing { sight.new.aside ≡ None }
    {
        let live = self.lock.lock(rt, &mut sight.turn);
        live.board.sound();
        let (at, seen) = self.give_held(&mut sight.turn, live, seat, back);
        sight.seen = seen;
        at
    }

    /// The hook comes home to a board that the seat's pass holds.
    pub(crate) fn give_held(
        &self,
        pass: &mut TurnPass<Live<H>>,
        live: Live<H>,
        seat: u32,
        back: Back<H>,
    ) -> (u32, u64)
        requires own { IsPassOf self.now.lock pass.old }
        requires inside { IsInside pass.old live.board }
        requires seat { pass.old.seat ≡ Some seat }
        requires lent { loan live.board seat ≡ Some back }
        ensures still { IsStill pass.old pass.new }
        ensures sight { IsSight pass.new result.1 }
        ensures gives { GivesTo seat live.board pass.new result.0 }
        ensures nothing { pass.new.aside ≡ None }
        ensures keeps { Keeps seat pass.old pass.new }
    {
        let mut live = live;
        live.board.sound();
        let at = live.board.give(seat, back);
        let seen = self.put_back(pass, live);
        (at, seen)
    }
}
