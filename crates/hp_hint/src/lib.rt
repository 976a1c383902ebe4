//! What was wrong, in words for who wrote it: the hints that the programs write on standard error.
//!
//! [`fault_of`] finds where a refused script is at fault: the refusal is the one that `parse` of hp_script answers, and
//! the mark stands at the word, or at the byte, that the line is refused for. Which that is `specs/Faults.antt` says; a
//! line that isn't of its form is at fault from the first word with which nothing that stands behind makes it one, and one
//! with a number out of its range at the first such number (`specs/Forms.antt`); where a word stands `specs/Places.antt` says.
//! Contracts promise that much, and no more: the words beside a mark rest on tests.
#![tactic(auto)]

mod asked;
mod cause;
mod closed;
mod context;
mod fault;
mod field;
mod form;
mod frame;
mod grammar;
mod hint;
mod keep;
mod measure;
mod piece;
mod place;
mod ranges;
mod rising;
mod verb;
mod window;
mod words;

pub use asked::Program;
pub use closed::Noting;
pub use fault::{Fault, fault_of, line_of};
pub use hint::script_hint;
pub use keep::Kept;
pub use place::Mark;
pub use window::window_hint;
