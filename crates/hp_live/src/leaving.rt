//! Seats that leave.

ghost use Rattle.std.specs.Prelude.{◌≡◌, ◌≢◌, ℕ, false, None, Some, IfSome, IfNone};
ghost use Rattle.hp_board.specs.Contents.{with_event};
ghost use Rattle.hp_board.specs.Loans.{loan};
ghost use Rattle.hp_event.specs.declared.event.Event.TheVariants.{Leave};
ghost use Rattle.hp_live.specs.Known.{IsOf, IsOut, IsSamePass, IsStill, IsThread};
ghost use Rattle.hp_live.specs.Sections.{LeavesIn};
ghost use Rattle.hp_live.specs.Steps.{ServesIn, ServesOn, lent_if};
ghost use Rattle.hp_live.specs.Threads.{Enters, LeavesAfter};
ghost use Rattle.hp_machine.specs.StandsNext.{CanMake};
ghost use Rattle.hp_model.specs.NextEvent.{due_entry};
ghost use Rattle.hp_model.specs.Seats.{is_busy};

use crate::ap_pass::ApPass;
use crate::gate::Gate;
use crate::hotplug::Hotplug;
use crate::left::Left;
use crate::pass::Pass;
use crate::seat::Seat;
use crate::sight::Sight;
use crate::step::{Step, Stepped, keep, lend_or_serve};
use hp_board::{Board, Turn};
use hp_hook::Hook;
use hp_locks::Why;
use std::sync::Wait;

impl<H: Hook + Send> Hotplug<H> {
    /// The pass's seat leaves, and the pass ends.
    ///
    /// Conditions: this machine gave the pass, no operation of its seat is in flight by its front, and it
    /// carries no hook. Past the front given the front that is left has of the seat one Leave, which is its
    /// last event. Waits while another holds the lock. Takes no memory. Seats are this project's own.
    pub fn leave<R: Wait, G: Gate>(&self, rt: &R, gate: &G, pass: Pass<H>) -> Left<H>
        requires own { IsOf self.now pass.lock }
        requires idle { is_busy pass.seat pass.front ≡ false }
        requires nothing { pass.lent ≡ None }
        ensures same { (result.lock ≡ pass.lock) × (result.head ≡ pass.head) × (result.seat ≡ pass.seat) }
        ensures left { LeavesIn pass.head pass.seat pass.front result.front }
    {
        let Pass { own } = pass;
        let Seat {
            mut sight,
            number,
            sections,
            busy: _,
            back,
        } = own;
        let None = back else { unreachable!() };
        gate.pass(number, sections, true);
        self.leave_section(rt, &mut sight, number);
        self.wakes.wake();
        Left {
            sight,
            seat: number,
        }
    }

    /// The thread's seat leaves, and the pass ends, after it made the entries that were due from the seat, each
    /// in a lock section of its own.
    ///
    /// Conditions: this machine gave the pass, and it carries no hook. Past the front given the front that is left
    /// has of the seat Calls, and after them one Leave, which is its last event. Waits while another holds the lock,
    /// and sleeps until another made an event where the hook of an entry is away. Takes no memory. Seats are this
    /// project's own.
    pub fn leave_ap<R: Wait, G: Gate>(&self, rt: &R, gate: &G, pass: ApPass<H>) -> Left<H>
        requires own { IsOf self.now pass.lock }
        requires nothing { pass.lent ≡ None }
        ensures same { (result.lock ≡ pass.lock) × (result.head ≡ pass.head) × (result.seat ≡ pass.seat) }
        ensures left { LeavesAfter pass.head pass.seat pass.front result.front }
    {
        let ApPass { mut own } = pass;
        self.leave_thread(rt, gate, &mut own);
        let Seat {
            sight,
            number,
            sections: _,
            busy: _,
            back,
        } = own;
        let None = back else { unreachable!() };
        Left {
            sight,
            seat: number,
        }
    }

    /// Entries of a thread's seat while some are due, and its leave.
    fn leave_thread<R: Wait, G: Gate>(&self, rt: &R, gate: &G, own: &mut Seat<H>)
        requires own { IsOf self.now own.old.lock }
        requires thread { IsThread own.old.seat own.old.front }
        ensures same { IsSamePass own.old own.new }
        ensures left { LeavesAfter own.old.head own.old.seat own.old.front own.new.front }
        ensures nothing { own.new.lent ≡ None }
    {
        for _ in rt.forever() {
            let key = self.wakes.thread(own.number);
            match self.leave_step(rt, gate, own) {
                None => {
                    drop(key);
                    self.wakes.wake();
                    return;
                }
                Some(Stepped::Turned(Turn::NotYet(_))) => key.wait(rt),
                Some(Stepped::Turned(_)) => {
                    drop(key);
                    self.wakes.wake();
                }
                Some(Stepped::Lent { .. }) => drop(key),
            }
        }
        unreachable!()
    }

    /// One section of a thread's seat that leaves: the hook that it carries comes home, or one is lent and then
    /// called, or a turn is taken, or the seat leaves where nothing is due from it: none then.
    fn leave_step<R: Wait, G: Gate>(&self, rt: &R, gate: &G, own: &mut Seat<H>) -> Option<Stepped>
        requires own { IsOf self.now own.old.lock }
        requires thread { IsThread own.old.seat own.old.front }
        ensures same { IsSamePass own.old own.new }
        ensures left { IfNone result (LeavesIn own.old.head own.old.seat own.old.front own.new.front) }
        ensures nothing { IfNone result (own.new.lent ≡ None) }
        ensures enters { IfSome result (λ _. Enters own.old.seat own.old.front own.new.front) }
        ensures thread { IfSome result (λ _. IsThread own.old.seat own.new.front) }
    {
        if let Some(made) = self.give_step(rt, gate, own, true) {
            return Some(made);
        }
        let step = self.last_section(rt, &mut own.sight, own.number)?;
        Some(keep(&mut own.back, step))
    }

    /// One lock section of a thread's seat, which leaves where nothing is due from it: none then.
    fn last_section<R: Wait>(&self, rt: &R, sight: &mut Sight<H>, seat: u32) -> Option<Step<H>>
        requires own { IsOf self.now sight.old.lock }
        requires seat { sight.old.seat ≡ Some seat }
        requires thread { IsThread seat sight.old.front }
        requires nothing { sight.old.aside ≡ None }
        ensures still { IsStill sight.old sight.new }
        ensures left { IfNone result (LeavesIn sight.old.head seat sight.old.front sight.new.front) }
        ensures serves { IfSome result (ServesIn seat sight.old sight.new) }
        ensures lent { sight.new.aside ≡ lent_if result }
    {
        let mut live = self.lock.lock(rt, &mut sight.turn);
        live.board.sound();
        let step = serve_or_leave(&mut live.board, seat);
        if let Some(step) = &step {
            self.wakes.note_thread(&live.board, seat, step);
        }
        let seen = self.put_back(&mut sight.turn, live);
        sight.seen = seen;
        step
    }

    /// One lock section in which a client's seat leaves.
    fn leave_section<R: Wait>(&self, rt: &R, sight: &mut Sight<H>, seat: u32)
        requires own { IsOf self.now sight.old.lock }
        requires seat { sight.old.seat ≡ Some seat }
        requires out { IsOut seat sight.old.front }
        requires idle { is_busy seat sight.old.front ≡ false }
        requires nothing { sight.old.aside ≡ None }
        ensures still { IsStill sight.old sight.new }
        ensures left { LeavesIn sight.old.head seat sight.old.front sight.new.front }
        ensures nothing { sight.new.aside ≡ None }
    {
        let mut live = self.lock.lock(rt, &mut sight.turn);
        live.board.sound();
        live.board.leave(seat);
        let seen = self.put_back(&mut sight.turn, live);
        sight.seen = seen;
    }
}

/// Lends the hook of the entry that is due from a thread's seat, or takes a turn of the seat, which leaves
/// where nothing is due: none then.
fn serve_or_leave<H: Hook>(board: &mut Board<H>, by: u32) -> Option<Step<H>>
    requires nothing { loan board.old by ≡ None }
    requires free { due_entry board.old.head board.old.events by ≡ None → CanMake board.old (Leave by) }
    ensures left { IfNone result (board.new ≡ with_event board.old (Leave by)) }
    ensures serves { IfSome result (ServesOn by board.old board.new) }
    ensures lent { loan board.new by ≡ lent_if result }
    ensures others { (k : ℕ) → k ≢ by → loan board.new k ≡ loan board.old k }
{
    match lend_or_serve(board, by) {
        Step::Turned(Turn::NotYet(Why::Idle)) => {
            board.leave(by);
            None
        }
        step => Some(step),
    }
}
