//! The tests of hp_replay that call it as a library.
//!
//! A text with a line of each kind of event, in both versions, says the events that stand beside it (`events`), and is
//! accepted with its summary and without (`whole`).
//!
//! What is said of other texts is data of `hp_examples`, and costs no proof. Its files of rows have journals of each way in
//! which a walk or a registration can end, of clients that wait for one another and of seats that come and go, accepted as
//! they stand, and refused with one line changed or left out, or with two lines swapped; fronts of a text; numbers, heads and
//! ends; and texts of version 1. What is said of them was written by hand, from the rules. Which event can stand next is
//! decided by hp_law and hp_account, so that those rows are their tests too.
//!
//! The tests use hp_replay as any crate does. They stand apart from it because a crate with tests is proved twice, once with
//! them and once without.
#![tactic(auto)]

#[cfg(test)]
mod events;
#[cfg(test)]
mod whole;
#[cfg(test)]
mod words;
