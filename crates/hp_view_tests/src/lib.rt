//! The tests of hp_view: whole runs of `view_main` by status, and pictures against lines that were worked out by hand.
//! They stand apart because a crate with tests is proved twice, once with them and once without.
#![tactic(auto)]

#[cfg(test)]
mod caller;
#[cfg(test)]
mod faults;
#[cfg(test)]
mod pictures;
#[cfg(test)]
mod refused;
