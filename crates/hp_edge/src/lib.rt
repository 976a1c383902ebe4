//! The edge of the programs: what they do alike between their objects and what they are about.
//!
//! `read_input` reads a source to its end, or to one byte past a limit. `read_script` reads the script that a source
//! holds, and `script_of` is the one that some bytes are. `script_error_line` and `journal_error_line` make the line
//! that says why an input is refused. `write_answer` writes bytes and answers a status; `status` has all that a
//! program ends with, and what it says where nothing was written.
//!
//! What was read, `specs/Reading.antt` says; which script that is, or why none, `specs/Scripts.antt`; what was
//! written, `specs/Writing.antt`; the lines, `specs/Refusals.antt`; why nothing was, `specs/Causes.antt`.
#![tactic(auto)]

mod read;
mod refusal;
mod script;
mod status;
mod write;

pub use read::read_input;
pub use refusal::{journal_error_line, script_error_line};
pub use script::{NoScript, read_script, script_of};
pub use status::{
    BAD_JOURNAL, BAD_SCRIPT, BAD_WORDS, DONE, NO_MEMORY, READ_FAULT, WRITE_FAULT, cause_of,
};
pub use write::write_answer;
