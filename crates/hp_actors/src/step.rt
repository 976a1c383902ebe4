//! One turn of an actor on a board.

ghost use Rattle.std.specs.Prelude.{◌≡◌, ◌<◌, ◌≤◌, true, OnOk, OnErr, length};
ghost use Rattle.hp_board.specs.Turns.{goes_on};
ghost use Rattle.hp_model.specs.Lawful.{IsLawful};
ghost use Rattle.hp_model.specs.Seats.{is_busy};
ghost use Rattle.hp_table.specs.Step.{AllHome};
ghost use Rattle.hp_actors.specs.RunInvariant.{HasHook, MayAskNext};
ghost use Rattle.hp_actors.specs.Hooks.{HasHooksLeft};
ghost use Rattle.hp_actors.specs.Positions.{ops_of};
ghost use Rattle.hp_actors.specs.Racks.{hooks_beside};
ghost use Rattle.hp_actors.specs.ActorTurns.{event_by, answered_after, events_after};
ghost use Rattle.hp_actors.specs.PassedOver.{EndsNothing, KnowsWait, is_end, waited, IsLastEnd};

use crate::actor::Actor;
use hp_board::{Board, Turn};
use hp_event::{Event, Journal};
use hp_hook::Hook;
use hp_states::NoMemory;

/// One turn of an actor's seat on a board: a turn of the machine for its first operation that isn't answered, and
/// nothing where all are. The other operations keep their hooks. Notes whether it waits, and what ended.
///
/// Takes memory as the machine's turn does; where that is wanting nothing has changed: `NoMemory`.
pub(crate) fn step<H: Hook>(
    actor: &mut Actor<H>,
    board: &mut Board<H>,
    last_end: &mut u32,
    seat: u32,
) -> Result<(), NoMemory>
    requires lawful { IsLawful board.old.head board.old.events }
    requires home { AllHome board.old.places }
    requires allowed { MayAskNext board.old seat actor.old }
    requires hook { HasHook board.old.events seat actor.old }
    requires last_end { last_end.old ≤ length board.old.events }
    ensures head { board.new.head ≡ board.old.head }
    ensures home { AllHome board.new.places }
    ensures events { OnOk result (board.new.events ≡ events_after board.old seat actor.old) }
    ensures answered { OnOk result (actor.new.answered ≡ answered_after board.old seat actor.old) }
    ensures ops { ops_of actor.new ≡ ops_of actor.old }
    ensures hook { HasHook board.new.events seat actor.new }
    ensures own_hooks { OnOk result (HasHooksLeft H.counts board.old seat actor.old actor.new) }
    ensures kept { hooks_beside board.new actor.new ≡ hooks_beside board.old actor.old }
    ensures last_end { (last_end.old ≤ last_end.new) × (last_end.new ≤ length board.new.events) }
    ensures ends { OnOk result (last_end.new ≡ last_end.old →
        EndsNothing (event_by board.old seat actor.old)) }
    ensures waits { OnOk result (KnowsWait board.new.head board.new.events last_end.new seat actor.new) }
    ensures err { OnErr result ((board.new ≡ board.old) × (actor.new ≡ actor.old)) }
    ensures still { OnErr result (last_end.new ≡ last_end.old) }
{
    board.sound();
    actor.sound();
    let Some(ask) = actor.ask() else {
        return Ok(());
    };
    let turn = board.turn(seat, ask)?;
    actor.note(turn);
    note_wait(actor, turn, board, seat, *last_end);
    *last_end = end_after(board.journal(), *last_end);
    Ok(())
}

/// Notes how long an actor waits, if a turn of its seat found nothing of its operation in flight and that it waits.
/// Takes no memory.
fn note_wait<H: Hook>(actor: &mut Actor<H>, turn: Turn, board: &Board<H>, seat: u32, last_end: u32)
    requires { goes_on turn ≡ true → actor.old.answered < length actor.old.asks }
    ensures { actor.new ≡ waited actor.old turn (is_busy seat board.now.events) last_end }
{
    match turn {
        Turn::NotYet(why) if !board.is_busy(seat) => actor.wait(why, last_end),
        _ => {}
    }
}

/// The last end after one event more, by what it was before. Takes no memory.
fn end_after(journal: &Journal, last_end: u32) -> u32
    requires { last_end ≤ length journal.now.events }
    ensures within { (last_end ≤ result) × (result ≤ length journal.now.events) }
    ensures ends { IsLastEnd journal.now.events last_end result }
{
    match journal.events().last() {
        Some(event) if is_end(event) => journal.len(),
        _ => last_end,
    }
}

/// Whether an event is the end of an operation, a walk or a registration.
fn is_end(event: &Event) -> bool
    ensures { result ≡ is_end event.now }
{
    matches!(
        event,
        Event::OpEnd { .. } | Event::WalkEnd { .. } | Event::RegEnd { .. }
    )
}
