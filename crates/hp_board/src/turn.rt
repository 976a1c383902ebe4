//! Turns.

ghost use Rattle.std.specs.Prelude.{◌≡◌, ◌↔◌, ℕ, true, IsTrue, None, Some, Ok, IfOk, IfSome, IfNone, OnOk, OnErr, false};
ghost use Rattle.hp_board.specs.Hooks.{has_hook, HasItsHook, HasHookLeft, KeepsItsHook, GetsStatesHook};
ghost use Rattle.hp_board.specs.Loans.{loan, CallsAway, IsCalm};
ghost use Rattle.hp_board.specs.Turns.{IsTurn, IsServed, IsHookOut, turn_by, goes_on, NextTakesRoom};
ghost use Rattle.hp_board.specs.declared.turn.Turn.TheVariants.{NotYet};
ghost use Rattle.hp_machine.specs.Next.{IsDue};
ghost use Rattle.hp_model.specs.Events.{answer_by, is_call};
ghost use Rattle.hp_states.specs.CpuSets.{has};
ghost use Rattle.hp_table.specs.Step.{step_at, is_home};
ghost use Rattle.hp_locks.specs.declared.why.Why.TheVariants.{HookOut};
ghost use Rattle.hp_event.specs.declared.op.Op.{Op as AnOp};
ghost use Rattle.hp_machine.specs.MayAsk.{MayAsk, HasInFlight};
ghost use Rattle.hp_board.specs.Meeting.{ArmsBeside, IsOutInWalk, NoneOutInWalk, IsWhyNotYet, ThreadCalls, ThreadCallsHome};
ghost use Rattle.hp_machine.specs.StandsNext.{due_of};

use crate::board::Board;
use crate::making::{make, make_entry};
use hp_account::Entry;
use hp_event::{Answer, Event, Op};
use hp_hook::Hook;
use hp_locks::Why;
use hp_machine::{Next, names_sub};
use hp_states::NoMemory;

/// An operation that is asked for, and the hook that it brings.
///
/// A setup has its hook at its first event; every other operation has none.
#[derive(Drop)]
pub struct Ask<H> {
    /// The operation.
    pub op: Op,
    /// The hook of a setup that hasn't begun, or the one that was handed back.
    pub hook: Option<H>,
}

/// What a turn did.
#[derive(Clone, Copy, Debug, PartialEq, Eq)]
pub enum Turn {
    /// One event was made, at this place of the journal, and the operation goes on.
    Made { at: u32 },
    /// The operation is answered, by the event at this place; by none where there is no room for its
    /// first event.
    Answered { at: Option<u32>, answer: Answer },
    /// Nothing was made: the next event waits for this.
    NotYet(Why),
}

impl<H: Hook> Board<H> {
    /// One turn of a client's seat for an operation: the one event of both that comes next is made, if one
    /// does.
    ///
    /// The seat is in as a client, and has no other operation in flight. A setup names a subsystem of the
    /// head; at its first event it has its hook, and everything else has none. Nothing is lent to the seat.
    /// - `Made` where the operation goes on.
    /// - `Answered` where that event answers it: by a refusal, by its end, or by the one event that it is.
    ///   With no place, and LogFull, where there is no room for its first event.
    /// - `NotYet` where the operation, which isn't refused and has room, waits for this. That is `HookOut`
    ///   exactly where a thread has to make the next entry, which calls a hook that is away, lent to that
    ///   thread or to another; and where a write of `fail` can stand and a hook is lent for the entry of the
    ///   processor's walk. An entry that is the client's own to make never waits so.
    /// - `NoMemory` where memory was wanting for a first event or for the begin of a walk.
    ///
    /// The begin of a setup takes its hook, loaded with the subsystem's plan. A setup that is answered
    /// otherwise than Ok has its hook in `ask` then, and a remove that is answered Ok the state's. Where
    /// nothing was made nothing has changed, the ask neither. What is lent to other seats stays so. After the
    /// calls of `kernel/cpu.c`; that each goes on by one event at a time is this project's own.
    #[inline(always)]
    pub fn turn(&mut self, by: u32, ask: &mut Ask<H>) -> Result<Turn, NoMemory>
        requires allowed { MayAsk self.old by ask.old.op }
        requires hook { HasItsHook self.old by ask.old.op ask.old.hook }
        requires nothing { loan self.old by ≡ None }
        ensures turn { IfOk result (IsTurn by ask.old.op self.old self.new) }
        ensures op { ask.new.op ≡ ask.old.op }
        ensures has_hook { OnOk result (HasHookLeft self.old by ask.old ask.new) }
        ensures same_hook { OnOk result (KeepsItsHook self.old by ask.old ask.new) }
        ensures handed { OnOk result (GetsStatesHook H.counts self.old by ask.old ask.new) }
        ensures again { IfOk result (λ turn. goes_on turn ≡ true → HasItsHook self.new by ask.old.op ask.new.hook) }
        ensures stays { (k : ℕ) → loan self.new k ≡ loan self.old k }
        ensures hook_out { (s : ℕ) → IsHookOut s by ask.old.op self.old ↔ (result ≡ Ok (NotYet (HookOut s))) }
        ensures err { OnErr result ((self.new ≡ self.old) × (ask.new ≡ ask.old)) }
        ensures memory { OnErr result (NextTakesRoom self.old by ask.old.op) }
    {
        self.machine.sound();
        match self.machine.next(by, &ask.op) {
            Next::Event { event, need } => {
                if let Some(state) = self.keeps_out(&event) {
                    return Ok(Turn::NotYet(Why::HookOut(state)));
                }
                let at = self.machine.journal().len();
                make(
                    &mut self.machine,
                    &mut self.called,
                    &event,
                    need,
                    &mut ask.hook,
                )?;
                Ok(turn_of(&event, at))
            }
            Next::Entry(entry) => {
                let at = self.machine.journal().len();
                make_entry(&mut self.machine, &mut self.called, &entry);
                Ok(Turn::Made { at })
            }
            Next::Full => Ok(Turn::Answered {
                at: None,
                answer: Answer::LogFull,
            }),
            Next::Wait(why) => Ok(Turn::NotYet(self.waits_for(why))),
        }
    }

    /// The state whose hook is lent for the entry of the walk of a processor that an event arms, if it is.
    fn keeps_out(&self, event: &Event) -> Option<u32>
        requires { is_call event.now ≡ false }
        ensures out { IfSome result (ArmsBeside self.now event.now) }
        ensures calm { IfNone result (IsCalm self.now event.now) }
    {
        self.machine.sound();
        match *event {
            Event::Armed { cpu, .. } => self.armed_out(cpu),
            _ => None,
        }
    }

    /// The state whose hook is lent for the entry of the walk of a processor, if one is.
    fn armed_out(&self, cpu: u32) -> Option<u32>
        ensures some { IfSome result (IsOutInWalk self.now cpu) }
        ensures none { IfNone result (NoneOutInWalk self.now cpu) }
    {
        self.machine.sound();
        if !self.is_lent(cpu) {
            return None;
        }
        if self.machine.registrar().is_some() {
            return None;
        }
        Some(self.lent_entry(cpu).key.state)
    }

    /// The entry of a processor that a hook is lent for.
    fn lent_entry(&self, cpu: u32) -> Entry
        requires { has self.now.lent cpu ≡ true }
        ensures due { IsDue self.now.head self.now.events result.seat (Some result) }
        ensures cpu { result.cpu ≡ cpu }
    {
        self.machine.sound();
        match self.machine.next_due(cpu) {
            Some((_, seat)) => match self.machine.due(seat) {
                Some(entry) => entry,
                None => unreachable!(),
            },
            None => unreachable!(),
        }
    }

    /// What a client waits for: where that is a thread whose entry calls a hook that is away, for the hook.
    fn waits_for(&self, why: Why) -> Why
        ensures { IsWhyNotYet self.now why result }
    {
        self.machine.sound();
        match why {
            Why::ApTurn(cpu) => match self.asked_away(cpu) {
                Some(state) => Why::HookOut(state),
                None => Why::ApTurn(cpu),
            },
            _ => why,
        }
    }

    /// The state whose hook the next entry on a processor calls, where a client waits for its thread to make it,
    /// if that hook is away.
    fn asked_away(&self, cpu: u32) -> Option<u32>
        ensures some { IfSome result (λ s. is_home (step_at self.now.places s) ≡ false) }
        ensures asks { IfSome result (ThreadCalls self.now cpu) }
        ensures none { IfNone result (ThreadCallsHome self.now cpu) }
    {
        if self.machine.lent().is_empty() {
            return None;
        }
        let state = self.machine.hook_asked(cpu)?;
        if self.machine.table().is_home(state) {
            return None;
        }
        Some(state)
    }

    /// Whether a turn of a seat may be asked for with this: exactly where the conditions of `turn` hold.
    ///
    /// Takes no memory. This project's own.
    pub fn can_ask(&self, by: u32, ask: &Ask<H>) -> bool
        ensures allowed { result ≡ true → MayAsk self.now by ask.now.op }
        ensures hook { result ≡ true → HasItsHook self.now by ask.now.op ask.now.hook }
        ensures nothing { result ≡ true → loan self.now by ≡ None }
        ensures always { MayAsk self.now by ask.now.op → HasItsHook self.now by ask.now.op ask.now.hook →
            loan self.now by ≡ None → result ≡ true }
    {
        if self.has_lent(by) {
            return false;
        }
        if !self.machine.is_client(by)
            || !names_sub(self.machine.journal().head(), &ask.op)
            || !self.is_of(by, &ask.op)
        {
            return false;
        }
        ask.hook.is_some() == (ask.op.is_setup() && !self.machine.is_busy(by))
    }

    /// Whether a seat has no other operation than this in flight.
    fn is_of(&self, seat: u32, op: &Op) -> bool
        ensures { IsTrue result ↔ ((x : AnOp) → HasInFlight self.now.events seat x → x ≡ op.now) }
    {
        match self.machine.op(seat) {
            Some(in_flight) => is_same(&in_flight, op),
            None => true,
        }
    }

    /// One turn of a thread's seat: the entry that is due from it is made, if one is.
    ///
    /// - `Made` where it was.
    /// - `NotYet` with `HookOut` exactly where that calls a hook which is away, lent to another seat; nothing has
    ///   changed then.
    /// - `NotYet` with `Idle` where no entry is due from the seat; nothing has changed then.
    ///
    /// There is no other answer. Nothing is lent to the seat. Takes no memory. After `cpuhp_thread_fun` of
    /// `kernel/cpu.c`.
    #[inline(always)]
    pub fn serve(&mut self, by: u32) -> Turn
        requires { loan self.old by ≡ None }
        ensures served { IsServed by self.old self.new result }
        ensures stays { (k : ℕ) → loan self.new k ≡ loan self.old k }
        ensures hook_out { (s : ℕ) → CallsAway self.old s (due_of self.old by) ↔ (result ≡ NotYet (HookOut s)) }
    {
        self.machine.sound();
        match self.machine.due(by) {
            Some(entry) => {
                if self.is_out(&entry) {
                    return Turn::NotYet(Why::HookOut(entry.key.state));
                }
                let at = self.machine.journal().len();
                make_entry(&mut self.machine, &mut self.called, &entry);
                Turn::Made { at }
            }
            None => Turn::NotYet(Why::Idle),
        }
    }
}

/// Whether two operations are the same.
fn is_same(one: &Op, other: &Op) -> bool
    ensures { IsTrue result ↔ (one.now ≡ other.now) }
{
    one == other
}

/// What is answered of an event that was made, at its place.
fn turn_of(event: &Event, at: u32) -> Turn
    ensures { result ≡ turn_by (answer_by event.now) at }
{
    let answer = match *event {
        Event::Refused { errno, .. } => Answer::Refused(errno),
        Event::OpEnd { answer, .. } | Event::RegEnd { answer, .. } => answer,
        Event::ReadLock { .. }
        | Event::ReadUnlock { .. }
        | Event::Armed { .. }
        | Event::Wakeup { .. } => Answer::Ok(0),
        Event::Shown { value, .. } => Answer::Ok(value),
        _ => return Turn::Made { at },
    };
    Turn::Answered {
        at: Some(at),
        answer,
    }
}
