//! Whom an event frees.

ghost use Rattle.std.specs.Prelude.{◌≡◌, ◌↔◌, ◌++◌, ◌<◌, ℕ, true, false, Some, None, List, [], ◌∷◌, IsTrue, option_map};
ghost use Rattle.hp_account.specs.UnderWay.{IsThreadDue};
ghost use Rattle.hp_event.specs.declared.event.Event.{Event as AnEvent};
ghost use Rattle.hp_event.specs.declared.op.Op.{Op as AnOp};
ghost use Rattle.hp_live.specs.Freed.{BringsDue, Frees, IsHookAway, IsLowestDue, NeedsThread, Waits, WaitsForHook, WaitsForNone, gives_back, moves};
ghost use Rattle.hp_board.specs.Turns.{IsNotYet};
ghost use Rattle.hp_board.specs.declared.turn.Turn.TheVariants.{NotYet};
ghost use Rattle.hp_model.specs.Registrations.{Registration, registration};
ghost use Rattle.hp_locks.specs.declared.why.Why.{Why as AWhy};

use hp_board::{Board, Turn};
use hp_event::Event;
use hp_hook::Hook;
use hp_locks::Why;

/// Whom an event frees, of those who sleep.
#[derive(Clone, Copy)]
pub(crate) struct Freed {
    /// Clients with nothing in flight.
    pub(crate) first: bool,
    /// The seats of operations in flight.
    pub(crate) in_flight: bool,
    /// The thread of this seat.
    pub(crate) thread: Option<u32>,
    /// All threads.
    pub(crate) threads: bool,
}

/// Whom the last event of a board frees, after which it has this board: who could make nothing before it, and may now.
///
/// - Clients with nothing in flight wait for a lock: that is over by the end of an operation, of a walk or of a registration alone.
/// - The seat of an operation in flight may go on where it has to wait for no processor's thread. It may still wait
///   for readers or for a registration before its walk, which is found out by its turn.
/// - From one thread at most an entry comes due.
/// - All threads are freed where no client is in, and one was before.
///
/// Beside them each event frees whoever waits for a hook alone (`waits_for_hook`). An event frees its own seat too, but that
/// isn't asleep. Takes no memory, and time for the processors that walk. After `complete_ap_thread` and the wake-ups of
/// `kernel/cpu.c`.
pub(crate) fn freed_by<H: Hook>(board: &Board<H>, event: &Event, had_client: bool) -> Freed
    ensures { (before : List AnEvent) → board.now.events ≡ before ++ event.now ∷ [] →
        Frees board.now.head before event.now had_client result }
{
    board.sound();
    let by = event.seat();
    let holder = waits_for_none(board, board.holder(), by);
    let registrar = waits_for_none(board, board.registrar(), by);
    Freed {
        first: gives_back(event),
        in_flight: holder | registrar,
        thread: thread_due(board, event),
        threads: had_client & (board.clients() == 0),
    }
}

/// Whether an event gives a lock back by which a client may begin an operation: the map lock, the write side of the hotplug
/// lock, or the registration.
fn gives_back(event: &Event) -> bool
    ensures { result ≡ gives_back event.now }
{
    matches!(
        event,
        Event::WalkEnd { .. } | Event::OpEnd { .. } | Event::RegEnd { .. }
    )
}

/// Whether a seat with an operation in flight, another than the event's, waits for no processor's thread.
fn waits_for_none<H: Hook>(board: &Board<H>, holder: Option<u32>, by: u32) -> bool
    ensures { (seat : ℕ) → WaitsForNone board.now.head board.now.events by holder seat → result ≡ true }
{
    match holder {
        Some(seat) => seat != by && !waits_for_thread(board, seat),
        None => false,
    }
}

/// Whether a seat waits for a processor's thread.
fn waits_for_thread<H: Hook>(board: &Board<H>, seat: u32) -> bool
    ensures { result ≡ true → NeedsThread board.now.head board.now.events seat }
{
    match board.ap_turn(seat) {
        Some(_) => true,
        None => false,
    }
}

/// The thread from which an entry comes due by an event, the last of a board: while a registration is in flight one is due at
/// most, and else it is that of the processor whose walk the event began or went on with.
fn thread_due<H: Hook>(board: &Board<H>, event: &Event) -> Option<u32>
    ensures { BringsDue board.now.head board.now.events event.now result }
{
    board.sound();
    match board.registrar() {
        Some(_) => registering_due(board),
        None => walking_due(board, event),
    }
}

/// The lowest thread from which an entry is due.
fn registering_due<H: Hook>(board: &Board<H>) -> Option<u32>
    ensures { IsLowestDue board.now.head board.now.events result }
{
    match board.next_thread_due(0) {
        Some((_, seat)) => Some(seat),
        None => None,
    }
}

/// The thread of the processor whose walk an event begins or goes on with, if an entry is due from it.
fn walking_due<H: Hook>(board: &Board<H>, event: &Event) -> Option<u32>
    requires { option_map (λ (r : Registration). r.seat) (registration board.now.events) ≡ None }
    ensures { BringsDue board.now.head board.now.events event.now result }
{
    board.sound();
    match walks_on(event) {
        Some(cpu) => thread_on(board, cpu),
        None => None,
    }
}

/// The thread of a processor, if an entry is due from it.
fn thread_on<H: Hook>(board: &Board<H>, cpu: u32) -> Option<u32>
    ensures { (seat : ℕ) → cpu < board.now.head.possible → IsThreadDue board.now.head board.now.events cpu seat →
        result ≡ Some seat }
{
    match board.next_thread_due(cpu) {
        Some((due, seat)) => { if due == cpu { Some(seat) } else { None } }
        None => None,
    }
}

/// The processor whose walk an event begins or goes on with, if it does.
fn walks_on(event: &Event) -> Option<u32>
    ensures { (cpu : ℕ) → moves cpu event.now ≡ true → result ≡ Some cpu }
{
    match *event {
        Event::WalkBegin { cpu, .. } | Event::Call { cpu, .. } => Some(cpu),
        _ => None,
    }
}

/// Whether a seat whose turn answered this, with this board, waits for a hook alone, and is woken by each event.
///
/// A client with an operation in flight isn't: where it waits for a hook it waits for a thread, which the board says (`freed_by`).
pub(crate) fn waits_for_hook<H: Hook>(board: &Board<H>, seat: u32, turn: &Turn) -> bool
    ensures exactly { IsTrue result ↔ WaitsForHook board.now.events seat turn.now }
    ensures waits { (op : AnOp) (why : AWhy) → IsNotYet seat op board.now why → turn.now ≡ NotYet why →
        result ≡ false → Waits board.now.head board.now.events seat op }
{
    let away = hook_away(turn);
    away & !board.is_busy(seat)
}

/// Whether a turn waits for a hook.
fn hook_away(turn: &Turn) -> bool
    ensures { IsTrue result ↔ IsHookAway turn.now }
{
    matches!(turn, Turn::NotYet(Why::HookOut(_)))
}
