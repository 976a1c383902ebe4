//! The judge of the walks of a real kernel's trace.
//!
//! [`walks_before`] takes the events of a trace's lines one by one. Each goes on with the walk that is open, ends it,
//! begins another or is a registration's, by [`hp_trace_walk`], and asks something of a table of states: of each how many
//! callbacks a crossing shows, up and down. The first event that no walk can have, or with which no table is left that
//! answers all that was asked, is named with why. A registration lets the table be another at its state.
//!
//! The words of the contracts, in the order to read them: `specs/Borders.antt`, where a processor is booted and taken
//! down; `Turns` and `Events`, what an event does; `Walks`, event after event; `Lawful`, when walks are lawful.
#![tactic(auto)]

mod borders;
mod event;
mod law;
mod place;
mod turn;
mod walks;

pub use law::walks_are_exact;
pub use place::{Misfit, Named, Way};
pub use walks::{Walks, walks_before};
