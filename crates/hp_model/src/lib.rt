//! The definitions of the machine's journals, and what holds of every lawful one.
//!
//! A journal is a head and a list of events, oldest first. Each notion of the machine (what is
//! registered, where a processor stands, what is in force, who reads, what waits) is a fold over
//! that list, or a relation on lists of entries, in a file of `specs/` that is named after it. To
//! read them, take them in this order:
//!
//! 1. `Journal` and `Events`: folds over events; whose an event is, and what it answers.
//! 2. `Registered`, `Settled`, `InForce`: what is registered, where a processor stands, what is in
//!    force. `Walks`, `Registrations`, `MapLock`, `Readers`, `Seats`: what is in flight, and who is in.
//! 3. `Crossing`, `Plan`, `WalkShape`, `RegistrationShape`: what a walk and a registration make.
//! 4. `Armed`, `Calls`, `How`, `Caller`: how an entry is made, and by whom.
//! 5. `Waits`, `RefusalsAtOnce`, `Refusals`, `Resolved`, `Batch`, `Sequence`, `Suspend`, `Files`: the rules of
//!    operations. `Needs`, `Promised`, `Room`: the room that they take.
//! 6. `Errands`, `NextInWalk`, `BatchTurn`: what comes next in a walk, and whose turn it is in an upmany.
//!    `SeatNext`, `BatchQueue`: how that is found. `StandsCalls`, `StandsSeats`, `StandsOperations`,
//!    `StandsRegistrations`, `StandsFiles`, and `Lawful`: which event stands after which events.
//! 7. `Headline`, `OneWalk`, `NoUpmany`, `Keys`, `Front`, `Own`, `Completes`, `PromisesKept`: what holds of
//!    every lawful journal.
//! 8. `Pending`, `SeatWaits`, `ApTurn`, `Full`, `Turns`, `Moves`: what a turn finds, and that some seat
//!    can move. `Trees`, `Remaining`, `UnderWay`, `FirstEvent`, `NextEvent`: what comes next, found by
//!    functions. `Due`, `NextFound`: that what they find is what stands.
//! 9. `Scripts`, `Admissions`, `Tasks`, `ScriptTurns`, `ScriptRun`, `Draws`, `Schedule`, `TurnMakes`,
//!    `WithoutEvent`, `Distance`: the run of a script by its schedule. `AnyTurns`: what is so of it after any
//!    turns.
//! 10. `Listed`, `SetOf`: sets of processors as they are written. `OperationNumber`, `EventLine`,
//!     `JournalText`, `Summary`: the texts.
//!
//! The functions of this file have empty bodies: their contracts are the laws, which callers cite.
//! `net_of` and its kin compute a notion from the events alone, slowly, for tests.
#![tactic(auto)]

ghost use Rattle.std.specs.Prelude.{◌≡◌, ◌↔◌, ℕ, ◌+◌, ◌<◌, ◌≤◌, false, [], ◌∷◌, ◌++◌, length, All};
ghost use Rattle.hp_event.specs.declared.event.Event.TheVariants.{Leave};
ghost use Rattle.hp_model.specs.Heads.{IsHead};
ghost use Rattle.hp_model.specs.Promised.{promised};
ghost use Rattle.hp_model.specs.PromisesKept.{BalancesPromises, FitsIn, FindsPromise};
ghost use Rattle.hp_model.specs.StandsCalls.{IsIdle};
ghost use Rattle.hp_model.specs.Lawful.{Stands, IsLawful};
ghost use Rattle.hp_model.specs.Turns.{TurnFinds, FindsOne, EachAllowed, AreOneNext};
ghost use Rattle.hp_model.specs.BatchQueue.{IsQueue, FirstHasTurn, QueueMoves, QueueFits, KeepsTurn};
ghost use Rattle.hp_model.specs.SeatNext.{IsThreadsDue, IsHoldersDue, IsHoldersNext, IsHoldersWait};
ghost use Rattle.hp_model.specs.Due.{OwesNothing, StandsWhereOwed, IsOwedWhereItStands, StaysDue, AreOneOnProcessor, AreOneButInUpmany};
ghost use Rattle.hp_model.specs.NextFound.{StandsWhereNext, FindsEvent, FindsNone, FindsFull};
ghost use Rattle.hp_model.specs.Moves.{SomeSeatCanMove};
ghost use Rattle.hp_model.specs.Walks.{NobodyWalks};
ghost use Rattle.hp_model.specs.MapLock.{operation};
ghost use Rattle.hp_model.specs.Suspend.{held_by};
ghost use Rattle.hp_model.specs.Batch.{is_upmany};
ghost use Rattle.hp_model.specs.Net.{keys_in_force as keys_in_force_of};
ghost use Rattle.hp_model.specs.Headline.{Headline};
ghost use Rattle.hp_model.specs.Completes.{Completes};
ghost use Rattle.hp_model.specs.OneWalk.{WalksAlone};
ghost use Rattle.hp_model.specs.NoUpmany.{IsPlain, IsNoUpmany};
ghost use Rattle.hp_model.specs.Keys.{AreKeysInForce, RestsWithKeys};
ghost use Rattle.hp_model.specs.ScriptRun.{IsSomeRun, RunsAreOne};
ghost use Rattle.hp_model.specs.Draws.{draws};
ghost use Rattle.hp_model.specs.AnyTurns.{EachScript, MayAsk, EachTurnMakes, AnswersAreShown, RoundsGoOn, IsNoFurther, HasRun, StaysOver};
ghost use Rattle.hp_model.specs.Seats.{NoneOfLaterSeats};

mod lists;
mod net;
mod registered;
mod sets;
mod settled;
mod subsystems;

use hp_event::{Event, Head, Op};
use hp_states::{MAX_EVENTS, MAX_SEATS};
pub use lists::without;
pub use net::net_of;
pub use registered::{Found, instances_of_keys, registered_at, registered_of};
pub use sets::{numbers_are_listed, put_number, set_is_of_its_numbers};
pub use settled::{settled_after, settled_of};
pub use subsystems::is_multi;

/// Every lawful journal has the headline.
#[tactic(auto, using(crate::proofs::HeadlineProof::headline))]
pub fn headline(head: &Head, events: &[Event])
    ensures { IsLawful head.now events.now → Headline head.now events.now }
{}

/// Every front of a lawful journal has the headline.
#[tactic(auto, using(crate::proofs::HeadlineProof::headline_of_front))]
pub fn headline_of_front(head: &Head, front: &[Event], rest: &[Event])
    ensures { IsLawful head.now (front.now ++ rest.now) → Headline head.now front.now }
{}

/// Every lawful journal completes: its last event, where it answers an operation or a registration that has
/// no fault among its own entries, answers Ok, but for want of room, and but for a freeze that finds a wakeup
/// pending before a walk; and where it answers an operation at once, Ok exactly where nothing refuses that.
#[tactic(auto, using(crate::proofs::CompletesProof::completes))]
pub fn completes(head: &Head, events: &[Event])
    ensures { IsLawful head.now events.now → Completes head.now events.now }
{}

/// So does every front of a lawful journal.
#[tactic(auto, using(crate::proofs::CompletesProof::completes_of_front))]
pub fn completes_of_front(head: &Head, front: &[Event], rest: &[Event])
    ensures { IsLawful head.now (front.now ++ rest.now) → Completes head.now front.now }
{}

/// The keys in force on a processor, as a list: of every journal, they rise, and are those that
/// count as in force.
pub fn keys_in_force(events: &[Event], cpu: u32)
    ensures { AreKeysInForce cpu events.now (keys_in_force_of cpu events.now) }
{}

/// After a lawful journal, where the processor doesn't walk and no registration is in flight, the keys in
/// force on it are, as a list, those that are registered at or below the state where it stands.
#[tactic(auto, using(crate::proofs::KeyLaw::keys_at_rest))]
pub fn keys_at_rest(head: &Head, events: &[Event], cpu: u32)
    ensures { IsLawful head.now events.now → RestsWithKeys head.now cpu events.now }
{}

/// A front of a lawful journal is lawful.
#[tactic(auto, using(crate::proofs::HeadlineProof::lawful_front))]
pub fn lawful_front(head: &Head, front: &[Event], rest: &[Event])
    ensures { IsLawful head.now (front.now ++ rest.now) → IsLawful head.now front.now }
{}

/// A lawful journal is lawful with one event more that stands after it.
#[tactic(auto, using(crate::proofs::HeadlineProof::lawful_more))]
pub fn lawful_more(head: &Head, before: &[Event], event: &Event)
    ensures { IsLawful head.now before.now → Stands head.now before.now event.now →
        IsLawful head.now (before.now ++ event.now ∷ []) }
{}

/// After a lawful journal at most one event of a seat's operation can stand next, and of a
/// processor's seat at most one entry.
pub fn one_next(head: &Head, before: &[Event], op: &Op, one: &Event, other: &Event)
    ensures { IsLawful head.now before.now → AreOneNext head.now before.now op.now one.now other.now }
{}

/// After a lawful journal the walks in flight are those of the operation that holds the map lock, and but in an
/// upmany at most one processor walks. A walk leaves each processor that hasn't walked beside it as it was
/// when the walk began, whatever answer it ends with.
#[tactic(auto, using(crate::proofs::OneWalkProof::one_walk))]
pub fn one_walk(head: &Head, events: &[Event])
    ensures { IsLawful head.now events.now → WalksAlone events.now }
{}

/// So it is after every front of a lawful journal.
#[tactic(auto, using(crate::proofs::OneWalkProof::one_walk_of_front))]
pub fn one_walk_of_front(head: &Head, front: &[Event], rest: &[Event])
    ensures { IsLawful head.now (front.now ++ rest.now) → WalksAlone front.now }
{}

/// What the definitions say with several walks in mind they say of one where no upmany is in flight, and so
/// of each journal that no upmany enters: who waits, whose turn it is, what is promised, what comes next.
pub fn no_upmany(head: &Head, events: &[Event])
    ensures in_flight { held_by is_upmany (operation events.now) ≡ false → IsPlain head.now events.now }
    ensures ever { All IsNoUpmany events.now → IsPlain head.now events.now }
{}

/// The walk whose turn it is in an upmany keeps it until the operation's own seat makes an event, whatever
/// other seats do meanwhile.
pub fn turn_stays(head: &Head, before: &[Event], event: &Event)
    ensures { IsLawful head.now before.now → KeepsTurn head.now before.now event.now }
{}

/// What comes next of one seat is found in one walk. While its processor walks, what is due from a thread is
/// the next entry there. Of the seat of an upmany it is in the walk whose turn it is: what is due from it, and
/// what comes next of it; and where it is nobody's turn it waits for the thread of the lowest that walks.
pub fn seat_next(head: &Head, events: &[Event])
    ensures thread { IsLawful head.now events.now → IsThreadsDue head.now events.now }
    ensures due { IsLawful head.now events.now → IsHoldersDue head.now events.now }
    ensures next { IsLawful head.now events.now → IsHoldersNext head.now events.now }
    ensures waits { IsLawful head.now events.now → IsHoldersWait head.now events.now }
{}

/// The walks of an upmany that its seat goes on with are a queue, in the order of their last events: the first
/// has the turn, where no walk is left to begin, and one event changes it at its front and its end alone. It
/// is no longer than there are possible processors.
pub fn batch_queue(head: &Head, events: &[Event], event: &Event, queue: &[u32])
    ensures begins { (seat : ℕ) → NobodyWalks events.now → IsQueue head.now events.now seat [] }
    ensures turn { FirstHasTurn head.now events.now queue.now }
    ensures moves { IsLawful head.now events.now → QueueMoves head.now events.now event.now queue.now }
    ensures fits { IsLawful head.now events.now → QueueFits head.now events.now queue.now }
{}

/// What is promised to a lawful journal fits into it: with all its promises it is within the limit.
#[tactic(auto, using(crate::proofs::RoomKept::promises_fit))]
pub fn promises_fit(head: &Head, events: &[Event])
    ensures { IsLawful head.now events.now → length events.now + promised head.now events.now ≤ MAX_EVENTS }
{}

/// An event that comes next takes what it needs, uses one of the promises, and gives back what is
/// left to the walk or the registration that it ends.
#[tactic(auto, using(crate::proofs::RoomKept::promises_after))]
pub fn promises_after(head: &Head, before: &[Event], event: &Event)
    ensures { IsLawful head.now before.now → BalancesPromises head.now before.now event.now }
{}

/// What is promised is never short. An event that can stand after a lawful journal keeps it within the
/// limit, and one that takes no room of its own finds one of the promises.
pub fn never_short(head: &Head, before: &[Event], event: &Event)
    ensures fits { IsLawful head.now before.now → FitsIn head.now before.now event.now }
    ensures promised { IsLawful head.now before.now → FindsPromise head.now before.now event.now }
{}

/// What a turn of a client's seat finds after a lawful journal, for an operation that it may be for: an
/// event of it stands, or there is no room for its first event, or it waits, or the thread of a
/// processor has to make the next entry; and no two of these.
pub fn turn_finds(head: &Head, events: &[Event])
    ensures some { EachAllowed head.now events.now TurnFinds }
    ensures one { EachAllowed head.now events.now FindsOne }
{}

/// The entry that is due from a seat stands, after any journal, and after a lawful one it is the one
/// Call of that seat that does. None is due exactly where the seat is idle: no Call of it can come; and none
/// is due of a seat that leaves.
pub fn due_entry(head: &Head, events: &[Event], entry: &Event)
    ensures stands { StandsWhereOwed head.now events.now entry.now }
    ensures exactly { IsLawful head.now events.now → IsOwedWhereItStands head.now events.now entry.now }
    ensures none { (seat : ℕ) → OwesNothing head.now events.now seat ↔ IsIdle head.now events.now seat }
    ensures leaves { (seat : ℕ) → Stands head.now events.now (Leave seat) → OwesNothing head.now events.now seat }
{}

/// An entry that is due from a seat stays due after an event of another seat, but for one that arms its
/// processor in the middle of its walk, and for a call of the same hook beside it. It is the one entry that
/// is due of its processor, and but in an upmany the one that is due at all.
pub fn due_stays(head: &Head, events: &[Event], entry: &Event, event: &Event)
    ensures stays { IsLawful head.now events.now → StaysDue head.now events.now entry.now event.now }
    ensures one { IsLawful head.now events.now →
        AreOneOnProcessor head.now events.now entry.now event.now }
    ensures alone { IsLawful head.now events.now →
        AreOneButInUpmany head.now events.now entry.now event.now }
{}

/// What comes next of a seat and its operation stands, after any journal, and after a lawful one, of a
/// client's seat and an operation that it may ask for, it is the one event of both that does. Nothing
/// comes next where the operation has no room, or waits, or a thread has to make the next entry.
pub fn next_event(head: &Head, events: &[Event], event: &Event)
    ensures stands { StandsWhereNext head.now events.now event.now }
    ensures exactly { EachAllowed head.now events.now (FindsEvent event.now) }
    ensures none { EachAllowed head.now events.now FindsNone }
{}

/// Whether an operation is answered LogFull without an event is found by its first event alone.
pub fn is_full(head: &Head, events: &[Event])
    ensures { EachAllowed head.now events.now FindsFull }
{}

/// Some seat can move. After a lawful journal, of operations that aren't answered, with all that they
/// wait for among them, one has an event that can stand next, or a processor's thread has an entry,
/// or one is answered LogFull.
pub fn some_seat_can_move(head: &Head, events: &[Event])
    ensures { IsLawful head.now events.now → SomeSeatCanMove head.now events.now }
{}

/// A script has one run for its schedule.
pub fn one_run(head: &Head, one: &[Event], other: &[Event])
    ensures { RunsAreOne head.now one.now other.now }
{}

/// The run of a script by a schedule is a lawful journal, where its head is one that a machine can be
/// started with and there are seats for all.
pub fn run_lawful(head: &Head, events: &[Event])
    ensures { IsHead head.now → IsSomeRun head.now events.now → IsLawful head.now events.now }
{}

/// After any turns of a script, the operation that an actor's turn is for is one that its seat may ask
/// for.
pub fn run_asks(head: &Head, op: &Op)
    ensures { EachScript head.now (MayAsk op.now) }
{}

/// After any turns of a script, a turn makes exactly what stands: of a processor's thread its entry, of
/// an actor the event of its first operation that isn't answered, or LogFull where that has no room.
pub fn turn_makes(head: &Head)
    ensures { EachScript head.now EachTurnMakes }
{}

/// After any turns of a script, as many operations of an actor are answered as the journal shows of its
/// seat, and those that were answered LogFull without an event besides.
pub fn answers_shown(head: &Head)
    ensures { EachScript head.now AnswersAreShown }
{}

/// Draws are as many as are asked for, and each is below its bound: so each turn of a schedule that is
/// drawn is one of a seat.
pub fn draws_below()
    ensures count { (m seed count : ℕ) → length (draws m seed count) ≡ count }
    ensures below { (m seed count : ℕ) → 0 < m → All (λ k. k < m) (draws m seed count) }
{}

/// After any turns of a script, a round makes an event or answers an operation, unless every operation is
/// answered; and of both there are no more than a journal has room for and the actors have operations.
pub fn round_goes(head: &Head)
    ensures on { EachScript head.now RoundsGoOn }
    ensures bounded { EachScript head.now IsNoFurther }
{}

/// The closing rounds of a script end: it has a run, whatever its schedule.
pub fn run_ends(head: &Head)
    ensures { EachScript head.now HasRun }
{}

/// Where every operation of a script is answered, no turn does anything more.
pub fn over_stays(head: &Head)
    ensures { EachScript head.now StaysOver }
{}

/// No event of the next seat stands in a lawful journal, nor of any above it: seats are numbered by how
/// many were admitted.
pub fn next_seat(head: &Head, events: &[Event])
    ensures { IsLawful head.now events.now → NoneOfLaterSeats events.now }
{}
