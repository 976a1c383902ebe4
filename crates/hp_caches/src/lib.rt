//! Caches of items for each processor, and the list that they share: what a program of a caller keeps with the machine's help.
//!
//! A cache is open while its processor is: items are put into an open one and taken from it. As it closes, what is in it
//! moves to the shared list. `Stock` has them all, with a book of what was put, and threads share it under one lock.
//!
//! Its contract: each call changes exactly what `specs/Changes.antt` says of what contracts see, which `specs/Contents.antt`
//! has. In what was taken, the list and the caches each item stands as often as it was put: that is so of every stock, so
//! each time that its lock is taken, whatever threads did before. `items_stand_once` says what follows: each item stands
//! exactly once there just where each was put exactly once. `is_each_once` tests it of the items that `all` answers.
//!
//! `Plan` says what such a caller is to do, and how many events its journal has. No program uses it yet. All of it is this
//! project's own; per-processor caches that a teardown drains are as in `mm/slub.c` and `mm/vmstat.c`.
#![tactic(auto)]

mod cache;
mod once;
mod plan;
mod stock;

pub use once::{is_each_once, sum_of};
pub use plan::{CPUS, MAX_ITEMS, MAX_ROUNDS, MAX_WORKERS, Plan, PlanError};
pub use stock::{PutError, Stock};
