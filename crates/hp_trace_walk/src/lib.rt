//! The walks of a real kernel's trace: what their calls ask of the table of states.
//!
//! A trace shows callbacks. [`next_of`] says whether one goes on with the walk that is open, begins another, or is a
//! registration's; [`called`] what it does to its walk; [`closed`] and [`kicked_back`] how a walk ends. Each answers what
//! is asked with it of a table of states: of some of them, how many callbacks a crossing shows in one direction, at
//! least and at most; or why it can't be a walk's, whatever the table. A [`Table`] keeps what was asked of each state.
//!
//! The words of the contracts, in the order to read them: `specs/Asks.antt`, what is asked; `Walks`, a walk; `Steps`,
//! `Ends`, `Begins`, what a call does; `Tables`, what is known of a table; `Entries`, when a state can be so, and that
//! what is known of it tells that exactly ([`entries_are_exact`]); `Answered`, when there is a table that answers all that
//! a trace asks, event after event, and that no state is shut exactly where there is one ([`tables_are_exact`]).
#![tactic(auto)]

mod ask;
mod begin;
mod ends;
mod law;
mod step;
mod table;
mod walk;

pub use ask::{Ask, Asks, MOST_CALLS, MOST_STATES, no_asks, one_more};
pub use begin::{Next, next_of};
pub use ends::{How, closed, ended, kicked_back};
pub use law::{entries_are_exact, tables_are_exact};
pub use step::{Asked, called};
pub use table::{Known, Table};
pub use walk::{Borders, Call, Phase, Walk, Wrong, can_fail, is_stop, is_turned};
