//! What `hptrace` answers to a trace: what is written, and the exit status.
//!
//! `trace_main` is the program but for its own objects: it reads a source to its end, has [`hp_trace::judge`] judge the
//! bytes, writes the answer to a sink, and answers the status.
//!
//! ```text
//! let mut source = MemSource::new(alloc, bytes);
//! let mut sink = MemSink::new(alloc);
//! let status = trace_main(alloc, &[], &mut source, &mut sink);
//! ```
//!
//! The words of its contract, in the order to read them: `specs/Texts.antt`, the lines; `specs/Answers.antt`, the text
//! and the status that some bytes are answered; `specs/Calls.antt`, how a call ends.
#![tactic(auto)]

mod answer;
mod status;
mod text;
mod top;
mod walk_text;

pub use status::{BAD_WORDS, LAWFUL, NO_MEMORY, NO_TRACE, READ_FAULT, UNLAWFUL, WRITE_FAULT};
pub use top::trace_main;
