//! Effects: what one event more makes of each part of the account.

ghost use Rattle.std.specs.Prelude.{◌≡◌, false, ◌<◌, IsOk};
ghost use Rattle.hp_event.specs.declared.op.Op.{Op as AnOp};
ghost use Rattle.hp_model.specs.Events.{is_call};
ghost use Rattle.hp_walk.specs.Keys.{keys_by};
ghost use Rattle.hp_account.specs.After.{roll_after, holders_after, standing_after, suspension_after};
ghost use Rattle.hp_account.specs.Appending.{CanLeave, CanHold, HasPlaceFor, HasRoomFor, IsOpOf, CanOperate, CanEnd, WentTo, CanFly, WalksChanged, CanRegister, RegistrationChanged, room_of_walk};
ghost use Rattle.hp_account.specs.OperationChanges.{Operated};

use crate::flights::Flights;
use crate::operation::{MapOperation, Walks};
use crate::processors::Processors;
use crate::registering::Registering;
use crate::room::need_of_walk;
use crate::seats::Seats;
use crate::suspended::Suspended;
use hp_event::Event;
use hp_hook::Hook;
use hp_locks::{Locks, Why};
use hp_table::Table;

/// A seat leaves.
pub(crate) fn depart(seats: &mut Seats, event: &Event)
    requires { CanLeave event.now seats.old }
    ensures { seats.new ≡ roll_after event.now seats.old }
{
    if let Event::Leave { seat } = *event {
        seats.leave(seat);
    }
}

/// Takes or gives back the lock that an event says. An upmany (`batch`) takes the write side at its first walk,
/// and gives it back at its end.
#[inline(always)]
pub(crate) fn hold(locks: &mut Locks, event: &Event, batch: bool)
    requires { CanHold event.now locks.old }
    ensures { locks.new ≡ holders_after batch event.now locks.old }
{
    match *event {
        Event::Enter { seat, .. } => was_free(locks.enter_maps(seat)),
        Event::OpEnd { seat, .. } => {
            if locks.writer().is_some() {
                locks.end_write(seat);
            }
            locks.leave_maps(seat);
        }
        Event::WalkBegin { seat, .. } => {
            if locks.writer().is_none() {
                was_free(locks.begin_write(seat));
            }
        }
        Event::WalkEnd { seat, .. } => {
            if !batch {
                locks.end_write(seat);
            }
        }
        Event::RegBegin { seat, .. } => was_free(locks.begin_reg(seat)),
        Event::RegEnd { seat, .. } => locks.end_reg(seat),
        Event::ReadLock { seat } => was_free(locks.read_lock(seat)),
        Event::ReadUnlock { seat } => locks.read_unlock(seat),
        _ => {}
    }
}

/// A lock that was free has been taken.
fn was_free(taken: Result<(), Why>)
    requires { IsOk taken }
{
    prove!(taken.is_ok());
}

/// Where the walk went that ends; 0 at any other event.
pub(crate) fn walked_to(flights: &Flights, event: &Event) -> u32
    requires { CanEnd event.now flights.now }
    ensures { WentTo event.now result flights.now }
{
    match *event {
        Event::WalkEnd { cpu, .. } => flights.to(cpu),
        _ => 0,
    }
}

/// A processor is armed, or not any more, or stands elsewhere: a walk that ends went to `to`. The event is no
/// entry.
pub(crate) fn stand(processors: &mut Processors, event: &Event, to: u32)
    requires place { HasPlaceFor event.now processors.old }
    requires no_entry { is_call event.now ≡ false }
    ensures { processors.new ≡ standing_after to event.now processors.old }
{
    match *event {
        Event::WalkEnd { cpu, answer, .. } => {
            let stood = processors.state(cpu);
            processors.settle(cpu, answer.leaves_at(to, stood));
        }
        Event::Armed { cpu, value, .. } => processors.arm(cpu, u32::try_from(value).ok()),
        _ => {}
    }
}

/// An operation begins or ends, a walk of it ends, or a wakeup comes.
#[inline(always)]
pub(crate) fn suspend(suspended: &mut Suspended, held: &Option<MapOperation>, event: &Event)
    requires { HasRoomFor event.now suspended.old }
    ensures { (op : AnOp) → IsOpOf event.now held.now op → suspended.new ≡ suspension_after op event.now suspended.old }
{
    match (*event, held) {
        (Event::Enter { op, .. }, _) => suspended.enter(op),
        (Event::WalkEnd { cpu, answer, .. }, Some(held)) => {
            suspended.end_walk(held.op, cpu, answer);
        }
        (Event::OpEnd { .. }, Some(held)) => suspended.leave(held.op),
        (Event::Wakeup { .. }, _) => suspended.wake(),
        _ => {}
    }
}

/// The operation that holds the map lock begins, goes on past a walk, or ends.
pub(crate) fn operate(held: &mut Option<MapOperation>, event: &Event, processors: &Processors)
    requires { CanOperate event.now held.old }
    ensures { Operated event.now processors.now held.old held.new }
{
    match *event {
        Event::Enter { seat, op } => {
            *held = Some(MapOperation {
                seat,
                op,
                sequence: Walks::begin(&op, processors),
            });
        }
        Event::WalkBegin { cpu, .. } => {
            if let Some(held) = held {
                held.began(cpu);
            }
        }
        Event::WalkEnd { answer, .. } => {
            if let Some(held) = held {
                held.sequence.took(answer);
            }
        }
        Event::OpEnd { .. } => *held = None,
        _ => {}
    }
}

/// A walk begins or ends. Answers how much of its room is given back. The event is no entry.
pub(crate) fn fly<H: Hook>(flights: &mut Flights, table: &Table<H>, event: &Event, need: u32) -> u32
    requires walk { CanFly (keys_by table.now) need event.now flights.old }
    requires no_entry { is_call event.now ≡ false }
    ensures { WalksChanged (keys_by table.now) need result event.now flights.old flights.new }
{
    match *event {
        Event::WalkBegin {
            seat,
            cpu,
            from,
            to,
        } => flights.begin(table, seat, cpu, from, to, need),
        Event::WalkEnd { cpu, .. } => return flights.end(cpu),
        _ => {}
    }
    0
}

/// A registration begins or ends. Answers how much of its room is given back. The event is no entry.
pub(crate) fn register(registration: &mut Option<Registering>, event: &Event, need: u32) -> u32
    requires begins { CanRegister event.now }
    requires no_entry { is_call event.now ≡ false }
    ensures { RegistrationChanged need result event.now registration.old registration.new }
{
    match *event {
        Event::RegBegin { seat, state, op } => {
            *registration = Some(Registering::begin(seat, op, state, need));
        }
        Event::RegEnd { .. } => {
            if let Some(ended) = registration.take() {
                return ended.left.saturating_sub(1);
            }
        }
        _ => {}
    }
    0
}

/// The room that a walk takes which begins: what its event took, or in an upmany (`batch`) its part of that.
pub(crate) fn room_of_walk<H: Hook>(table: &Table<H>, event: &Event, batch: bool, need: u32) -> u32
    ensures { result ≡ room_of_walk (keys_by table.now) batch need event.now }
{
    match *event {
        Event::WalkBegin { from, to, .. } if batch => need_of_walk(table, from, to),
        _ => need,
    }
}
