//! The locks of the machine, and why a seat has to wait.
//!
//! There are three: the map lock, which one operation at a time holds from its begin to its end; the
//! hotplug lock, whose write side a walk holds and whose read side any number of readers do; and the
//! registration in flight, one at a time. `Locks` says who holds each, as seat numbers, and answers
//! with a `Why` where a seat can't have one now. Nothing here blocks: who waits asks again.
//!
//! After `cpu_add_remove_lock`, `cpu_hotplug_lock` and `cpuhp_state_mutex` of `kernel/cpu.c`. Its
//! contract: each call gives its lock exactly where none of the waits of `specs/Waits.antt` stands,
//! and else answers the first of them and changes nothing; `specs/Takes.antt` says what a seat makes of
//! the locks then. Only `admit` takes memory.
#![tactic(auto)]

mod locks;
mod why;

pub use locks::Locks;
pub use why::Why;
