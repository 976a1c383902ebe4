//! The tests of hp_caches: what is put, taken and moved by some calls, as worked out by hand.
//!
//! They use hp_caches as any crate does. They stand apart because a crate with tests is proved twice, once with them and
//! once without.
#![tactic(auto)]

#[cfg(test)]
mod stock;
