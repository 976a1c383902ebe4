//! The tests of hp_run: what `hpd_main` writes, by status, against texts that don't come from it; that its threads run
//! beside each other, by gates and a hook that hold one until another has come; that hooks are called; and what comes of a run
//! with one request for memory refused.
//!
//! What they say is the same whatever the threads' order. A hold gives up after so many turns of its own loop, and the
//! test fails then, so that each test ends by itself. They stand apart from hp_run because a crate with tests is proved
//! twice, once with them and once without.
#![tactic(auto)]

#[cfg(test)]
mod beside;
#[cfg(test)]
mod caller;
#[cfg(test)]
mod faults;
#[cfg(test)]
mod holds;
#[cfg(test)]
mod refused;
#[cfg(test)]
mod runs;
#[cfg(test)]
mod size;
#[cfg(test)]
mod wanting;
