//! The tests of the parts that a machine is made of, a module for each crate: hp_states, hp_event, hp_model,
//! hp_table, hp_command, hp_io, hp_locks, hp_files, hp_suspend, hp_pcount, hp_reg, hp_walk, and of hp_account what an
//! account keeps. What a machine says comes next is shown by rows of hp_examples.
//!
//! They use each as any crate does. They stand apart because a crate with tests is proved twice, once
//! with them and once without, and together because each crate of tests reads the libraries below anew.
#![tactic(auto)]

#[cfg(test)]
mod account;
#[cfg(test)]
mod command;
#[cfg(test)]
mod event;
#[cfg(test)]
mod file_values;
#[cfg(test)]
mod io;
#[cfg(test)]
mod locks;
#[cfg(test)]
mod model;
#[cfg(test)]
mod pcount;
#[cfg(test)]
mod reg;
#[cfg(test)]
mod states;
#[cfg(test)]
mod suspend;
#[cfg(test)]
mod table;
#[cfg(test)]
mod walk;
