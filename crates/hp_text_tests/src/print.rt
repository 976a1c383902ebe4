//! The tests of hp_print: an event's line of each form, the texts of a journal, and reports of what is in flight,
//! written by hand from the form of a journal's text.

mod lines;
mod texts;
