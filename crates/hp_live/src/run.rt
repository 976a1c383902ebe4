//! Operations, from their first turn to their answer.

ghost use Rattle.std.specs.Prelude.{◌≡◌, ◌≢◌, ◌&&◌, true, false, None, Some, [], is_some, IfOk, OnErr, OnOk};
ghost use Rattle.hp_event.specs.declared.op.Op.TheVariants.{Lock};
ghost use Rattle.hp_account.specs.TableChanges.{hands_out};
ghost use Rattle.hp_live.specs.Grew.{Grew};
ghost use Rattle.hp_live.specs.Known.{IsOf, IsSamePass, Stays};
ghost use Rattle.hp_live.specs.Runs.{ComesBack, IsAnswered, Halted, SteppedIn, is_lent};
ghost use Rattle.hp_live.specs.Sections.{CanAsk, WantedIn};
ghost use Rattle.hp_model.specs.Seats.{is_busy};

use crate::gate::Gate;
use crate::hotplug::Hotplug;
use crate::pass::Pass;
use crate::seat::Seat;
use crate::step::{Stepped, keep};
use hp_board::{Ask, Turn};
use hp_event::Answer;
use hp_hook::Hook;
use hp_states::NoMemory;
use std::sync::Wait;
use std::thread::yield_now;

impl<H: Hook + Send> Hotplug<H> {
    /// Turns of the pass's seat until the operation is answered, each in a lock section of its own; a hook is called
    /// between two of them.
    ///
    /// Conditions: this machine gave the pass; the operation isn't a lock; and the ask meets the conditions of
    /// `Board::turn` by the pass's front. An unlock is refused 1. Past the front given the pass's front has of
    /// its seat the events of this operation alone. The last answers it, and the answer is that event's. Where
    /// it is answered LogFull without an event, room was wanting at the end of the front.
    /// - `NoMemory` where memory was wanting for a first event or for the begin of a walk. What was made so far is
    ///   of the operation, none of it answers it, the ask is as before, its hook in it, and may be run again.
    ///
    /// The pass carries no hook afterwards. The ask has one at the answer exactly where a setup isn't answered Ok,
    /// or a remove is. That is the one that was handed in, where the setup didn't begin; else that of the state, with
    /// its subsystem's plan and the counts of the calls that the journal before the answer has of the state. Waits
    /// while another holds the lock, and sleeps until another made an event where the operation has to wait. After the
    /// calls of `kernel/cpu.c`.
    pub fn run<R: Wait, G: Gate>(
        &self,
        rt: &R,
        gate: &G,
        pass: &mut Pass<H>,
        ask: &mut Ask<H>,
    ) -> Result<Answer, NoMemory>
        requires own { IsOf self.now pass.old.lock }
        requires op { ask.old.op ≢ Lock }
        requires asked { CanAsk pass.old.head pass.old.front pass.old.seat ask.old.op (is_some ask.old.hook) }
        ensures same { IsSamePass pass.old pass.new }
        ensures answered { IfOk result (IsAnswered pass.old.head pass.old.seat ask.old.op pass.old.front pass.new.front) }
        ensures idle { OnOk result (is_busy pass.new.seat pass.new.front ≡ false) }
        ensures halted { OnErr result (Halted pass.old.head pass.old.seat ask.old.op pass.old.front pass.new.front) }
        ensures nothing { pass.new.lent ≡ None }
        ensures hook { IfOk result (λ answer. is_some ask.new.hook ≡ hands_out ask.old.op answer) }
        ensures back { IfOk result (ComesBack H.counts pass.old.head pass.old.seat ask.old.op
            pass.old.front pass.new.front ask.old.hook ask.new.hook) }
        ensures op { ask.new.op ≡ ask.old.op }
        ensures as_before { OnErr result (ask.new ≡ ask.old) }
        ensures again { OnErr result (
            CanAsk pass.new.head pass.new.front pass.new.seat ask.new.op (is_some ask.new.hook)) }
    {
        self.run_seat(rt, gate, &mut pass.own, ask, false)
    }

    /// Turns of a client's seat until the operation is answered. One that finishes waits for memory once it has
    /// begun.
    pub(crate) fn run_seat<R: Wait, G: Gate>(
        &self,
        rt: &R,
        gate: &G,
        own: &mut Seat<H>,
        ask: &mut Ask<H>,
        finishes: bool,
    ) -> Result<Answer, NoMemory>
        requires own { IsOf self.now own.old.lock }
        requires asked { CanAsk own.old.head own.old.front own.old.seat ask.old.op (is_some ask.old.hook) }
        ensures same { IsSamePass own.old own.new }
        ensures answered { IfOk result (IsAnswered own.old.head own.old.seat ask.old.op own.old.front own.new.front) }
        ensures idle { OnOk result (is_busy own.new.seat own.new.front ≡ false) }
        ensures halted { OnErr result (Halted own.old.head own.old.seat ask.old.op own.old.front own.new.front) }
        ensures none { finishes ≡ true → OnErr result (Grew own.old.seat own.old.front own.new.front []) }
        ensures stays { Stays own.old.seat ask.old.op own.old.front own.new.front }
        ensures hook { IfOk result (λ answer. is_some ask.new.hook ≡ hands_out ask.old.op answer) }
        ensures back { IfOk result (ComesBack H.counts own.old.head own.old.seat ask.old.op
            own.old.front own.new.front ask.old.hook ask.new.hook) }
        ensures nothing { own.new.lent ≡ None }
        ensures op { ask.new.op ≡ ask.old.op }
        ensures as_before { OnErr result (ask.new ≡ ask.old) }
        ensures again { OnErr result (
            CanAsk own.new.head own.new.front own.new.seat ask.new.op (is_some ask.new.hook)) }
    {
        let mut begun = false;
        for _ in rt.forever() {
            let key = self.wakes.client(own.busy, &ask.op);
            match self.step(rt, gate, own, ask) {
                Ok(Stepped::Turned(Turn::Answered { answer, .. })) => {
                    drop(key);
                    self.wakes.wake();
                    return Ok(answer);
                }
                Ok(Stepped::Turned(Turn::Made { .. })) => {
                    drop(key);
                    self.wakes.wake();
                    begun = true;
                }
                Ok(Stepped::Turned(Turn::NotYet(_))) => key.wait(rt),
                Ok(Stepped::Lent { .. }) => drop(key),
                Err(NoMemory) => {
                    drop(key);
                    let waits = waits_for_memory(finishes, begun);
                    if !waits {
                        return Err(NoMemory);
                    }
                    yield_now();
                }
            }
        }
        unreachable!()
    }

    /// One section of a client's seat: the hook that it carries comes home, or one is lent and then called, or a
    /// turn is taken.
    pub(crate) fn step<R: Wait, G: Gate>(
        &self,
        rt: &R,
        gate: &G,
        own: &mut Seat<H>,
        ask: &mut Ask<H>,
    ) -> Result<Stepped, NoMemory>
        requires own { IsOf self.now own.old.lock }
        requires asked { CanAsk own.old.head own.old.front own.old.seat ask.old.op (is_some ask.old.hook) }
        ensures same { IsSamePass own.old own.new }
        ensures stepped { IfOk result (SteppedIn H.counts own.old.head own.old.seat ask.old.op
            ask.old.hook ask.new.hook own.old.front own.new.front) }
        ensures wanted { OnErr result (WantedIn own.old.head own.old.seat ask.old.op own.old.front own.new.front) }
        ensures as_before { OnErr result (ask.new ≡ ask.old) }
        ensures nothing { IfOk result (λ stepped. is_lent stepped ≡ false → own.new.lent ≡ None) }
        ensures none { OnErr result (own.new.lent ≡ None) }
        ensures op { ask.new.op ≡ ask.old.op }
    {
        if let Some(made) = self.give_step(rt, gate, own, false) {
            return Ok(made);
        }
        let step = self.turn_section(rt, &mut own.sight, own.number, ask)?;
        let stepped = keep(&mut own.back, step);
        own.busy = stepped.is_busy(own.busy);
        Ok(stepped)
    }
}

/// Whether an operation waits where memory is wanting: one that finishes what it begins does once an event of it was made.
fn waits_for_memory(finishes: bool, begun: bool) -> bool
    ensures { result ≡ (finishes && begun) }
{
    finishes & begun
}
