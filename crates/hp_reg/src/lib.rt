//! Registrations, one entry at a time: what a setup, a remove, an add or a del does on the
//! processors that stand at its state or above.
//!
//! A `Reg` is told the operation and its state. `next` says which entry comes next, or how the
//! registration ended; the caller makes the entry and tells `took` how it was made. Where adding
//! fails on a processor, the entries of the processors before it are rolled back.
//!
//! Its contract: however the entries are made, if only each is made in a way that fits its place,
//! the entries that `next` asks for are a registration shape of hp_model, and `Ended` has that
//! shape's answer. `IsAfter` and `GoesOn` of
//! `specs/After.antt` say it step by step, `asked` of `specs/Asked.antt` which step it is,
//! `specs/Concerned.antt` on which processors, `specs/ByTable.antt` both by what the caller keeps,
//! `specs/CallsLeft.antt` how many can still come.
#![tactic(auto)]

mod phase;
mod reg;
mod step;

pub use reg::Reg;
pub use step::RegStep;
