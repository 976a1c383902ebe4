//! The judge of a real kernel's trace.
#![tactic(auto)]

mod event;
mod failed;
mod law;
mod nest;
mod payload;
mod pieces;
mod said;
mod verdict;
mod words;

pub use event::{Event, Function, Mark, Name, Payload, Said};
pub use failed::{Failure, Failures, MOST_KEPT, failures_before};
pub use law::faults_are_exact;
pub use nest::{Fault, Nest, Open};
pub use pieces::Pieces;
pub use said::said_of;
pub use verdict::{End, Judged, MAX_TRACE_BYTES, Place, judge};
