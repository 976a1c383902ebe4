//! Laws of turns. The functions have empty bodies: their contracts are the laws, which callers cite.

ghost use Rattle.std.specs.Prelude.{◌≡◌, ◌≢◌, true, None, List};
ghost use Rattle.hp_board.specs.Again.{StaysFor};
ghost use Rattle.hp_board.specs.Contents.{Contents};
ghost use Rattle.hp_board.specs.Turns.{IsTurn, IsServed};
ghost use Rattle.hp_model.specs.NextEvent.{next_event, is_full};
ghost use Rattle.hp_model.specs.Pending.{Pending};
ghost use Rattle.hp_board.specs.TurnLaws.{LeavesOtherBusy, LeavesOthersHook, StaysBusy, SetupGoesOn, GoesOnBusy, AnswerFrees, AfterTurn, AnswersOk, EndsOk, SomeSeatMoves};
ghost use Rattle.hp_machine.specs.MayAsk.{MayAsk};

use crate::turn::Turn;
use hp_event::{Answer, Event, Head, Op};

/// An event that stands leaves every other seat than its own as busy as it was, and so leaves the hook
/// that the seat's next ask has.
#[tactic(auto, using(crate::proofs::Busy::others_keep, crate::proofs::Busy::others_hook))]
pub fn others_keep(head: &Head, events: &[Event], event: &Event, seat: u32)
    ensures busy { LeavesOtherBusy head.now events.now event.now seat }
    ensures hook { LeavesOthersHook head.now events.now event.now seat }
{}

/// A seat that is busy stays busy after an event of its own that answers nothing.
#[tactic(auto, using(crate::proofs::Busy::stays_busy))]
pub fn stays_busy(events: &[Event], event: &Event, seat: u32)
    ensures { StaysBusy events.now event.now seat }
{}

/// What comes next of a setup and is no answer leaves its seat busy.
#[tactic(auto, using(crate::proofs::Busy::setup_goes_on))]
pub fn setup_goes_on(head: &Head, events: &[Event], event: &Event, seat: u32, op: Op)
    ensures { SetupGoesOn head.now events.now event.now seat op }
{}

/// What comes next of an operation and is no answer leaves its seat busy.
#[tactic(auto, using(crate::proofs::GoesOn::goes_on_busy))]
pub fn goes_on_busy(head: &Head, events: &[Event], event: &Event, seat: u32, op: Op)
    ensures { GoesOnBusy head.now events.now event.now seat op }
{}

/// An event that stands and answers an operation leaves its seat with nothing in flight.
pub fn answer_frees(head: &Head, events: &[Event], event: &Event)
    ensures { AnswerFrees head.now events.now event.now }
{}

/// Where there is no room for an operation's first event, no event of it comes next.
#[tactic(auto, using(hp_machine::proofs::FullNone::full_none))]
pub fn full_has_no_event(head: &Head, events: &[Event], seat: u32, op: Op)
    ensures { is_full head.now events.now seat op ≡ true → next_event head.now events.now seat op ≡ None }
{}

/// A turn of a seat leaves every other seat as busy as it was, and each of them may ask for what it might
/// before.
pub fn turn_keeps_others(seat: u32, by: u32, op: Op, turn: &Turn)
    ensures { (old new : Contents) → IsTurn by op old new turn.now → by ≢ seat → StaysFor old new seat }
{}

/// A turn of a thread's seat leaves every other seat as busy as it was, and each of them may ask for what
/// it might before.
pub fn serve_keeps_others(seat: u32, by: u32, turn: &Turn)
    ensures { (old new : Contents) → IsServed by old new turn.now → by ≢ seat → StaysFor old new seat }
{}

/// After a turn of its own a seat may ask for the same operation, whatever the turn did.
pub fn allowed_again(by: u32, op: Op, turn: &Turn)
    ensures { AfterTurn by op turn.now (λ old new. MayAsk new by op) }
{}

/// A turn that answers an operation which nothing stands against answers Ok, or LogFull where there is no
/// room for its first event or for a walk of it.
pub fn answers_ok(by: u32, op: Op, at: Option<u32>, answer: Answer)
    ensures { AnswersOk by op at answer }
{}

/// A walk that ends with no fault among its entries answers Ok(0).
#[tactic(auto, using(crate::proofs::Complete::walk_ends_ok))]
pub fn walk_ends_ok(head: &Head, events: &[Event], seat: u32, cpu: u32, answer: Answer)
    ensures { EndsOk head.now events.now seat cpu answer }
{}

/// Some seat can move. On a board where no hook is lent, of operations that aren't answered, with all that
/// they wait for among them, a client's turn for its operation makes an event or answers, or a thread's
/// does; a turn that wants memory is no turn here. Where a hook is lent, its seat can give it back.
#[tactic(auto, using(crate::proofs::Moving::some_seat_moves))]
pub fn some_seat_moves()
    ensures { (board : Contents) (pending : List Pending) → SomeSeatMoves board pending }
{}
