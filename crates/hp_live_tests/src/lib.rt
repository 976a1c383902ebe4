//! The tests of the live machine: of what no clause says, with ample memory, and of one client's run with one request for memory
//! refused.
//!
//! That clients are answered, alone and on several threads, and what; that a hook is called outside the lock; that a
//! batch waits for hooks that are lent; that whoever sleeps is woken by the event that lets it go on; and that what twelve
//! threads made together is a lawful journal with each operation once.
//!
//! They use hp_live as any crate does. They stand apart because a crate with tests is proved twice, once with them and
//! once without.
#![tactic(auto)]

#[cfg(test)]
mod again;
#[cfg(test)]
mod asking;
#[cfg(test)]
mod batch;
#[cfg(test)]
mod calls;
#[cfg(test)]
mod client;
#[cfg(test)]
mod forms;
#[cfg(test)]
mod heads;
#[cfg(test)]
mod held;
#[cfg(test)]
mod hooks;
#[cfg(test)]
mod jobs;
#[cfg(test)]
mod many;
#[cfg(test)]
mod sleepers;
#[cfg(test)]
mod two;
#[cfg(test)]
mod wakes;
#[cfg(test)]
mod wanting;
