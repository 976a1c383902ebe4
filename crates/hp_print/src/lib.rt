//! The texts of journals: an event's line, a journal's text, its summary and its report.
//!
//! Each text is one buffer of bytes to which its pieces are appended, so that it costs time and
//! memory in proportion to its length. What the bytes are is said by definitions of `hp_model`:
//! `event_line` of `specs/EventLine.antt`, `journal_text` of `specs/JournalText.antt`, both of version 2,
//! and `summary` of `specs/Summary.antt`. The report is a JSON value, which `serde_json` holds and writes:
//! `report` and its text `report_text` of `specs/Report.antt` here. Each public function answers
//! exactly these bytes, or that memory was wanting.
#![tactic(auto)]

mod answer_counts;
mod event;
mod instance_list;
mod journal;
mod keys;
mod law;
mod operation_numbers;
mod processor_tally;
mod report;
mod state_tally;
mod summary_lines;
mod suspend_tally;
mod tally;

pub use event::{append_answer, append_event, event_line, has_line};
pub use instance_list::InstanceList;
pub use journal::journal_text;
pub use law::names_are_unescaped;
pub use operation_numbers::OperationNumbers;
pub use report::report_json;
pub use state_tally::{Asked, StateTally};
pub use summary_lines::{journal_and_summary, summary};
