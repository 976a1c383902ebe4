//! What comes next of a seat and its operation.

ghost use Rattle.std.specs.Prelude.{◌≡◌, false, true, None, Some, IfOk, IfErr};
ghost use Rattle.hp_event.specs.declared.event.Event.TheVariants.{OpEnd};
ghost use Rattle.hp_event.specs.declared.event.Role.TheVariants.{Client};
ghost use Rattle.hp_event.specs.declared.op.Op.{Op as AnOp};
ghost use Rattle.hp_account.specs.Operations.{IsHeld};
ghost use Rattle.hp_machine.specs.Between.{IsBetween, Gives};
ghost use Rattle.hp_machine.specs.CanShow.{CanShow};
ghost use Rattle.hp_machine.specs.First.{IsFirst};
ghost use Rattle.hp_machine.specs.Next.{IsNext, IsKept, next_by};
ghost use Rattle.hp_model.specs.FirstEvent.{begin_of, file_shown};
ghost use Rattle.hp_model.specs.Refusals.{Passes};
ghost use Rattle.hp_model.specs.Registrations.{registration};
ghost use Rattle.hp_model.specs.Resolved.{resolved};
ghost use Rattle.hp_model.specs.Seats.{is_busy, role_of};
ghost use Rattle.hp_model.specs.Sequence.{walks};
ghost use Rattle.hp_model.specs.Subsystems.{names_sub};
ghost use Rattle.hp_model.specs.Waits.{wait_to_walk};
ghost use Rattle.hp_machine.specs.StandsNext.{ComesFirst};

use crate::machine::Machine;
use crate::refusals::Blocked;
use hp_account::{Entry, MapOperation, NextStep};
use hp_event::{Answer, Event, File, Op};
use hp_hook::Hook;
use hp_locks::Why;
use hp_states::{OFFLINE, Range};
use hp_suspend::{Asked, WalkAsk};

/// What comes next of a client's seat and its operation.
#[derive(Clone, Copy)]
pub enum Next {
    /// This event stands, and takes so much room of its own.
    Event { event: Event, need: u32 },
    /// This entry is the seat's to make.
    Entry(Entry),
    /// There is no room for its first event.
    Full,
    /// Its next event waits for this.
    Wait(Why),
}

impl<H: Hook> Machine<H> {
    /// What comes next of a client's seat and its operation: where it has one in flight, of that one,
    /// whatever `op` is.
    ///
    /// The operation speaks of subsystems of the head alone.
    /// - `Event` with the room that it takes. Of an operation that isn't in flight: its refusal, or its
    ///   begin where it is neither refused nor kept waiting. Of one that is: the end of its walk or its
    ///   registration, or between walks the begin of the next one or the operation's end, with `LogFull`
    ///   where there is no room for a walk.
    /// - `Entry` where the entry that comes next in flight is the seat's to make.
    /// - `Full` where there is no room for the operation's first event.
    /// - `Wait` where nothing of the operation can come, which isn't refused and has room, and waits for
    ///   this.
    ///
    /// Takes no memory, and time for the state's instances, the range, the processors or the states that a
    /// walk crosses, and none for the journal. After the calls of `kernel/cpu.c`; that one event comes
    /// next, and room, are this project's own.
    pub fn next(&self, seat: u32, op: &Op) -> Next
        requires client { role_of seat self.now.events ≡ Some Client }
        requires subs { names_sub self.now.head op.now ≡ true }
        ensures { IsNext self.now.head self.now.events seat op.now result }
    {
        if self.is_busy(seat) {
            return self.goes_on(seat);
        }
        self.first(seat, op)
    }

    /// What comes next of an operation of a client's seat that has nothing in flight.
    fn first(&self, seat: u32, op: &Op) -> Next
        requires client { role_of seat self.now.events ≡ Some Client }
        requires free { is_busy seat self.now.events ≡ false }
        requires subs { names_sub self.now.head op.now ≡ true }
        ensures { IsNext self.now.head self.now.events seat op.now result }
    {
        let event = match self.first_event(seat, op) {
            Ok(event) => event,
            Err(why) => return Next::Wait(why),
        };
        let need = self.room_taken(&event);
        if need <= self.room() {
            Next::Event { event, need }
        } else {
            Next::Full
        }
    }

    /// The first event of an operation, whether or not there is room for it, or what the operation waits
    /// for.
    fn first_event(&self, seat: u32, op: &Op) -> Result<Event, Why>
        requires client { role_of seat self.now.events ≡ Some Client }
        requires free { is_busy seat self.now.events ≡ false }
        requires subs { names_sub self.now.head op.now ≡ true }
        ensures kind { IfOk result IsFirst }
        ensures event { IfOk result (ComesFirst self.now seat op.now) }
        ensures waits { IfErr result (IsKept self.now.head self.now.events seat op.now) }
    {
        match self.can_begin(seat, op) {
            Err(Blocked::Waits(why)) => Err(why),
            Err(Blocked::Refused(errno)) => Ok(Event::Refused {
                seat,
                errno,
                op: *op,
            }),
            Ok(()) => Ok(self.begin(seat, op)),
        }
    }

    /// The event that an operation begins with that is neither refused nor kept waiting.
    fn begin(&self, seat: u32, op: &Op) -> Event
        requires free { is_busy seat self.now.events ≡ false }
        requires passes { Passes self.now.head self.now.events seat op.now }
        ensures kind { IsFirst result }
        ensures begins { Some result ≡ begin_of self.now.head self.now.events seat op.now }
    {
        match *op {
            Op::Up(_)
            | Op::Down(_)
            | Op::Target(..)
            | Op::Boot(_)
            | Op::Disable
            | Op::Enable
            | Op::Freeze(_)
            | Op::Thaw
            | Op::UpMany(_) => Event::Enter { seat, op: *op },
            Op::Setup { .. } | Op::Remove { .. } | Op::Add { .. } | Op::Del { .. } => {
                let state = self.resolved(op).unwrap_or(OFFLINE);
                Event::RegBegin {
                    seat,
                    state,
                    op: *op,
                }
            }
            Op::Lock => Event::ReadLock { seat },
            Op::Unlock => Event::ReadUnlock { seat },
            Op::Arm(cpu, value) => Event::Armed { seat, cpu, value },
            Op::ShowState(cpu) => self.show(seat, File::State, cpu),
            Op::ShowTarget(cpu) => self.show(seat, File::Target, cpu),
            Op::ShowFail(cpu) => self.show(seat, File::Fail, cpu),
            Op::ShowStates => self.show(seat, File::States, 0),
            Op::Wakeup => Event::Wakeup { seat },
        }
    }

    /// The event that shows a file.
    fn show(&self, seat: u32, file: File, cpu: u32) -> Event
        requires { CanShow self.now.head self.now.events file cpu }
        ensures kind { IsFirst result }
        ensures shows { result ≡ file_shown self.now.head self.now.events seat file cpu }
    {
        let value = self.file_value(file, cpu);
        Event::Shown {
            seat,
            file,
            cpu,
            value,
        }
    }

    /// The state of a registration: for a setup of a range the lowest of its states without a name, if there
    /// is one, and else the state that is asked for.
    fn resolved(&self, op: &Op) -> Option<u32>
        requires { registration self.now.events ≡ None }
        ensures { result ≡ resolved self.now.head self.now.events op.now }
    {
        match *op {
            Op::Setup { state, .. } => match Range::asked_by(state) {
                Some(range) => self.table.slot(range).ok(),
                None => Some(state),
            },
            Op::Remove { state, .. } | Op::Add { state, .. } | Op::Del { state, .. } => Some(state),
            _ => None,
        }
    }
}

impl<H: Hook> Machine<H> {
    /// What comes next of a seat that has an operation in flight, whichever operation that is.
    ///
    /// - `Entry` where the entry that comes next is the seat's to make.
    /// - `Event` with the room that it takes: the end of its walk or its registration, or, while nothing
    ///   walks or more walks of an upmany are to begin, the begin of its next walk or its end, with `LogFull`
    ///   where there is no room for a walk.
    /// - `Wait` where the thread of a processor has to make the next entry, or readers or a registration
    ///   keep out the next walk.
    fn goes_on(&self, seat: u32) -> Next
        requires { is_busy seat self.now.events ≡ true }
        ensures { (op : AnOp) → IsNext self.now.head self.now.events seat op result }
    {
        if let Some(next) = next_from(&self.coming, seat) {
            return next;
        }
        if let Some((batch, lowest)) = self.account.batch_walking() {
            return self.next_in_batch(seat, batch, lowest);
        }
        match &self.account.operation {
            Some(held) => self.next_of_holder(held),
            None => unreachable!(),
        }
    }

    /// What comes next of the operation that holds the map lock, while nothing walks.
    fn next_of_holder(&self, held: &MapOperation) -> Next
        requires held { IsHeld self.now.head self.now.events held.now }
        requires between { IsBetween self.now.head self.now.events held.now.seat }
        ensures { (op : AnOp) → IsNext self.now.head self.now.events held.now.seat op result }
    {
        match held.next(&self.account.processors, &self.account.suspended) {
            Asked::Ended(answer) => end(held.seat, answer),
            Asked::Walk(ask) => match self.wait_to_walk() {
                Some(why) => Next::Wait(why),
                None => self.next_walk(held.seat, ask),
            },
        }
    }

    /// The begin of a walk that nothing keeps out, or the end of its operation where there is no room.
    fn next_walk(&self, seat: u32, ask: WalkAsk) -> Next
        requires asked { Gives self.now.head self.now.events seat (walks ask.cpu ask.to) }
        requires free { wait_to_walk self.now.events ≡ None }
        ensures { (op : AnOp) → IsNext self.now.head self.now.events seat op result }
    {
        // what is so of every machine
        let _ = &self.journal;
        let event = Event::WalkBegin {
            seat,
            cpu: ask.cpu,
            from: self.state(ask.cpu),
            to: ask.to,
        };
        let need = self.room_taken(&event);
        if need <= self.room() {
            Next::Event { event, need }
        } else {
            end(seat, Answer::LogFull)
        }
    }
}

/// What comes next of a seat in what is under way: its event, its entry, or that its client waits for
/// the thread of a processor.
pub(crate) fn next_from(coming: &Option<NextStep>, seat: u32) -> Option<Next>
    ensures { result ≡ next_by seat coming.now }
{
    match coming {
        Some(NextStep::End(ending)) if ending.seat() == seat => Some(Next::Event {
            event: ending.event(),
            need: 0,
        }),
        Some(
            NextStep::Entry {
                entry: Some(entry),
                ..
            },
        ) if entry.seat == seat => Some(Next::Entry(*entry)),
        Some(NextStep::Entry { client, cpu, .. }) if *client == seat => {
            Some(Next::Wait(Why::ApTurn(*cpu)))
        }
        _ => None,
    }
}

/// The end of a seat's operation, with its answer.
fn end(seat: u32, answer: Answer) -> Next
    ensures { result ≡ Next.Event (OpEnd seat answer) 0 }
{
    Next::Event {
        event: Event::OpEnd { seat, answer },
        need: 0,
    }
}
