//! Events, and the journal that they stand in.
//!
//! A journal is a head, which says the processors and the subsystems, and a list of events, one for
//! each atomic step of the machine. This crate has the types of both, `Items`, a list that contracts
//! see as a list, and `Journal`: a list that grows by `push`, with places that were promised, so
//! that a push into a promised place takes no memory.
#![tactic(auto)]

mod answer;
mod aside;
mod event;
mod head;
mod how;
mod journal;
mod key;
mod lists;
mod op;
mod version;

pub use answer::Answer;
pub use aside::Aside;
pub use event::{Event, File, Role};
pub use head::{Head, Sub};
pub use how::How;
pub use journal::{Journal, JournalError};
pub use key::Key;
pub use lists::{Items, Keys, Name, Numbers, Subs};
pub use op::{Form, Op};
pub use version::Version;
