//! The tests of hp_play as its caller meets it: a script that is played, what is left of the rack, hooks of the caller
//! that are called, each read and each write that fails, a rack with too few hooks, and an input past the limit.
//!
//! The whole outputs of `hp_main`, by words, input and status, are rows of data: hp_examples compares them.
//!
//! They use hp_play as any crate does. They stand apart from it because a crate with tests is proved
//! twice, once with them and once without.
#![tactic(auto)]

#[cfg(test)]
mod caller;
#[cfg(test)]
mod program;
