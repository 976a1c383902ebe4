//! The law of journals, one event at a time.
//!
//! A journal is lawful where its head is one that a machine can be started with, and each event stands
//! after those before it: hp_model's definitions `IsHead` and `Stands`. `is_head` decides the first; a
//! `Law` is started with such a head, says whether one event more can stand, and takes it.
//!
//! A `Law` stands on the account that `hp_account` keeps, and beside it a table with a hook for each
//! registered state, which answers by its subsystem's rules. So each event takes a time that doesn't
//! grow with the journal. No hook of anybody else's is called. To whoever asks
//! why an event can't stand, `machine` says what comes next instead, and `answer_to` how an entry is answered.
//!
//! Journals that are lawful, and refused with one line changed, are rows of `hp_examples`; heads, full journals,
//! and what no text can say are tested in `hp_law_tests`.
#![tactic(auto)]

mod asked;
mod heads;
mod law;
mod same;

pub use heads::is_head;
pub use law::Law;
