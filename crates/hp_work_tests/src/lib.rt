//! The tests of hp_work: the numbers of some items, as worked out by hand; 4,096 items and one more; and a drain by jobs of
//! its own.
//!
//! They use hp_work as any crate does. They stand apart because a crate with tests is proved twice, once with them and
//! once without.
#![tactic(auto)]

#[cfg(test)]
mod queues;
