//! The walk of a processor up or down the states: which callback comes next, and how the walk ends.
//!
//! A walk goes from one state to another and visits the keys of the registered states between, in
//! order. Where a callback faults, the walk rolls back: it undoes what it has done, last state
//! first; and where one faults in that rollback, it stays. A `Walk` calls nothing itself: it says
//! which entry comes next and is told how that was made, one entry at a time. It takes no memory.
//!
//! Its contract: however the entries are made, if only each is made in a way that fits its place,
//! the entries that `next` asks for are a walk along the plan of the table, as `WalkShape.antt` of
//! hp_model defines it, and at its end `next` gives that walk's answer. `specs/After.antt` says
//! what it means that a walk stands after some entries, `specs/Asked.antt` what it asks for next.
#![tactic(auto)]

mod position;
mod states;
mod step;
mod walk;

pub use step::Step;
pub use walk::Walk;
