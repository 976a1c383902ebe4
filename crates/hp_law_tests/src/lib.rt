//! The tests of hp_law: heads at their limits and beyond them, what no text can say, and journals that are full.
//!
//! They use hp_law as any crate does. They stand apart because a crate with tests is proved twice, once with them and
//! once without.
#![tactic(auto)]

#[cfg(test)]
mod events;
#[cfg(test)]
mod heads;
#[cfg(test)]
mod laws;
#[cfg(test)]
mod room;
