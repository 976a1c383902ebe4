//! The tests of hp_actors: runs come out by each schedule as written by hand, and their boards say after each turn what is
//! in force.
//!
//! They use hp_actors as any crate does. They stand apart because a crate with tests is proved twice, once with them and
//! once without.
#![tactic(auto)]

#[cfg(test)]
mod in_force;
#[cfg(test)]
mod runs;
