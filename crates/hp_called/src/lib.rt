//! The called set: for each key the processors on which its callback is in force, kept step by step.
//!
//! A key is in force on a processor where more of its upward entries than of its downward ones are done there. To count
//! them costs a pass over the journal. A `Called` follows the journal, one event at a time, and knows it at any time: it
//! has a row for each key that is registered, and for the one that a registration in flight adds, with the set of the
//! processors on which that is in force. So a row is there before the first entry of its key, and an entry only writes to
//! it: `make_room` alone takes memory, before a registration begins.
//!
//! Contracts say of it that it is the called set of a journal (`specs/Called.antt`); `specs/Steps.antt` says what one
//! event makes of rows and sets. That a set is what counting gives is proved by the laws of hp_model: each key is in force
//! once or not at all, and one that isn't registered, nor being added, is in force nowhere.
//!
//! After `struct cpuhp_step` and the instance lists of `kernel/cpu.c`, whose walks keep one state a processor; that what
//! is in force is kept for each key is this project's own.
#![tactic(auto)]

mod called;
mod ending;
mod guesses;
mod listed;
mod rows;

pub use called::Called;
#[doc(hidden)]
pub use ending::Ending;
#[doc(hidden)]
pub use guesses::Guesses;
#[doc(hidden)]
pub use rows::{RowKey, Rows};
