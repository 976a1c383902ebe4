//! The machine of CPU hotplug behind a few calls: any number of clients, every interleaving, one event a
//! turn.
//!
//! A `Board` starts with processors and subsystems. Seats come in: a client, or the hotplug thread of a
//! processor. `turn` makes the one event that comes next of a client's seat and its operation, or answers
//! what it waits for; `serve` makes the entry that is due from a thread. Hooks go in with setups, are called
//! once for each entry that the journal says was called, and are handed back as they stood. `lend` lends the
//! hook of an entry that is due, to be called outside, and `give` makes the entry by its answer; in an upmany
//! several hooks are out at once, each for another processor and of another state. `retire` gives the board
//! up for its journal and its hooks. `in_force` and `net` say what is in force on a processor, without a look at the
//! journal: the board keeps the called set step by step.
//!
//! A caller, who asks for one operation until it is answered:
//!
//! ```text
//! let mut board = Board::start(alloc, plan, subs)?;
//! let thread = board.admit(Role::Ap(1))?;
//! let client = board.admit(Role::Client)?;
//! let mut ask = Ask { op: Op::Up(1), hook: None };
//! for _ in rt.forever() {
//!     match board.turn(client, &mut ask)? {
//!         Turn::Answered { answer, .. } => return Ok(answer),
//!         Turn::Made { .. } => {}                            // one event more in `board.journal()`
//!         Turn::NotYet(_) => drop(board.serve(thread)),      // it waits, here for the thread of the processor
//!     }
//! }
//! ```
//!
//! Contracts see the head, the events, what stands at each state, and the processors that hooks are lent for
//! (`specs/Contents.antt`). `Turns.antt` says what a turn makes of them, by hp_model's `next_event`, `due_entry`
//! and `is_full`; `Loans.antt` which hooks are out, what is lent to a seat, and what waits for a hook;
//! `Meeting.antt` whether what comes next meets a hook that is out; `Hooks.antt` what becomes of the hook that is
//! asked with; `Admission.antt` and `Starts.antt` each refusal; `Retired.antt` which hooks there are at the end, by
//! the journal. Its journal is lawful at any time (`Board::sound`). The functions of `laws.rt` and `hook_laws.rt`
//! have empty bodies: their contracts are laws of turns, which `TurnLaws.antt` and `HookLaws.antt` state.
#![tactic(auto)]

mod admission;
mod board;
mod hook_laws;
mod laws;
mod lending;
mod loan;
mod making;
mod retiring;
mod sound;
mod start;
mod states;
mod turn;

pub use board::Board;
pub use hook_laws::{admit_keeps_hooks, leave_keeps_hooks, serve_keeps_hooks, turn_keeps_hooks};
pub use hp_machine::AdmitError;
pub use laws::{
    allowed_again, answer_frees, answers_ok, full_has_no_event, goes_on_busy, others_keep,
    serve_keeps_others, setup_goes_on, some_seat_moves, stays_busy, turn_keeps_others,
    walk_ends_ok,
};
pub use loan::{Back, Loan};
pub use start::{CpuPlan, StartError};
pub use turn::{Ask, Turn};
