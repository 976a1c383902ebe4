//! The tests of the texts of scripts and journals: what hp_print writes, and what hp_script reads and generates. What
//! is said of them was worked out apart from the programs, from the rules.
//!
//! Each call is made here once, and what the program `hp` doesn't show: the line of each kind of event, reports of what
//! is in flight, scripts of very many lines or for few hooks. The other scripts that are refused or read are rows of
//! data, with what `hp` writes of them: hp_examples compares them.
//!
//! They use both as any crate does. They stand apart because a crate with tests is proved twice, once
//! with them and once without.
#![tactic(auto)]

#[cfg(test)]
mod compared;
#[cfg(test)]
mod print;
#[cfg(test)]
mod script;
