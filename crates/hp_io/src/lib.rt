//! Bytes in and bytes out: where a command reads its script or journal, and where it writes its text.
//!
//! [`Source`] and [`Sink`] are the two traits. Each says in ghost members which bytes are left to read or have been
//! taken, where the object tells them, and how often it has failed. A call fails only where that count rises.
//! [`read_up_to`] reads a source to its end or one byte past a limit, and [`write_all`] writes a text whole. Both
//! always end, and are proved against the traits alone.
//!
//! [`MemSource`] and [`MemSink`] tell their bytes and fail at the calls that they are told to. [`RealSource`] and
//! [`RealSink`] adapt standard input and output and tell no bytes: what the system does is trusted.
//!
//! The words of the contracts stand in `specs/Faults.antt`, `specs/Calls.antt` and, on told bytes, `specs/Told.antt`,
//! over std's `prepend_known`, `append_known` and `IsAtEnd`. All rules here are this project's own.
#![tactic(auto)]

mod calls;
mod failed;
mod mem_sink;
mod mem_source;
mod real;
mod sink;
mod source;

pub use failed::Failed;
pub use mem_sink::MemSink;
pub use mem_source::MemSource;
pub use real::{RealSink, RealSource};
pub use sink::{Sink, write_all};
pub use source::{ReadError, Source, read_up_to};
