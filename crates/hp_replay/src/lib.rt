//! The reader and checker of a printed journal.
//!
//! `check` reads the text of a journal, with or without its summary, and answers the journal, or the
//! first line that can't stand and why. `check1` does so for the text in version 1. Which event can stand next says a `Law` of `hp_law`; all else
//! is decided here. Lines are slices of the input, and nothing is copied but the head and the events.
//!
//! To read the definitions, take `specs/Numbers.antt`, `LineWords`, `Readers`, `Tails` and `EventAt`,
//! which read a line by the grammar, apart from how it is printed; `HeadLines` and
//! `EndAt` for the lines round the events. `Verdict` says the answer in the grammar's own words: a
//! lawful journal, where the bytes are its text or its text and its summary, or the first line that
//! can't stand, with its kind (`Kinds`); which lines can stand says `CanStand`, and of which journals each
//! version has a text `Versions`. `Judged` says the
//! answer line by line, as a reader finds it, by the stages of `Stages`. That both are the same is
//! the contract of `judged_is_verdict`. `Spellings` says how a line is spelled that is read, and
//! `Stories` what is said of a journal that the code holds. `LinesLeft`, `WordsLeft`, `FirstWords`,
//! `Reading`, `LineSteps`, `HeadDraft` and `LawStages` are what the clauses of the code say on the
//! way.
//!
//! The functions of `laws` have no work to do: their contracts are laws, which callers cite.
#![tactic(auto)]

mod answer;
mod end;
mod error;
mod event;
mod events;
mod first_word;
mod fits;
mod head;
mod head_lines;
mod laws;
mod line;
mod replay;
mod summary_lines;
mod versions;
mod words;

pub use error::{ReplayError, ReplayKind};
pub use fits::{event_fits, events_fit};
pub use laws::{
    absent_line, accepted_is_text, cpus_line, end_line, event_is_read, head_line, judge_is_verdict,
    judged_is_verdict, line_says_one, read_event_is_spelled, standing_is_spelled, text_is_accepted,
    text_says_one,
};
pub use replay::{check, check_and_summarize, check1};
