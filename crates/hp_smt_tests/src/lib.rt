//! The tests of hp_smt: what is denied, what a write of control waits for and answers, and what is recorded. Runs of scripts
//! under SMT control are rows of hp_examples.
//!
//! They use hp_smt as any crate does. They stand apart because a crate with tests is proved twice, once with them and
//! once without.
#![tactic(auto)]

#[cfg(test)]
mod denied;
#[cfg(test)]
mod machine;
#[cfg(test)]
mod off;
#[cfg(test)]
mod played;
#[cfg(test)]
mod turned;
#[cfg(test)]
mod writers;
