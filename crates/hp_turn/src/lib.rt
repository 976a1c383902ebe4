//! A lock that threads take in turn, whose value only grows, and passes that know a beginning of
//! it.
//!
//! The value has a head, which never changes, and a story, a list of events to which each section
//! may add. A `TurnPass` is what a thread takes the lock with. It carries a front, the story as the
//! pass last saw it, and perhaps the seat whose events the pass alone adds. Whoever takes the lock
//! finds a story that the front begins, with no event of the pass's own seat past it. The value also
//! tells which seats have a hook lent and for which entry (`specs/Asides.antt`): a pass carries what is
//! lent to its seat, and no other seat's section changes it.
//!
//! Fronts and seats are known to contracts alone: at run time the lock is two words, a slot for the
//! value, and in each pass one number. `specs/Pass.antt` says what contracts see of a pass, and
//! `specs/Turn.antt` the rule that holds between any two steps. Lock, passes and rule are this
//! project's own; the steps are those of `atomic_table`.
#![tactic(auto)]

mod grown;
mod law;
mod lock;
#[cfg(test)]
mod notes;
mod parts;
mod pass;
#[cfg(test)]
mod tests;
mod view;

pub use grown::Grown;
pub use parts::{Busy, TurnLock};
pub use pass::TurnPass;
