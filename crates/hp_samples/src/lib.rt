//! What the crates of tests share: named scripts with their journals, a hook that tests tell from others, and the
//! line at which two texts differ.
//!
//! A sample is a script, and the journal and the summary that come of it. What is asked of it stands in the crates of
//! tests. More of them are rows of hp_examples.
//!
//! `specs/Lines.antt` says at which line two texts differ. No call takes memory, and none refuses anything.
#![tactic(auto)]

mod generated;
mod lines;
mod marked;
mod registrations;
mod sample;
mod suspends;
mod twelve;
mod walks;

pub use generated::{SEED_0_SIZE_1, SEED_7_SIZE_2};
pub use lines::first_difference;
pub use marked::Marked;
pub use registrations::INSTANCE_FAULT;
pub use sample::Sample;
pub use suspends::FREEZE_WITH_SETUP_BETWEEN;
pub use twelve::TWELVE_SUBSYSTEMS;
pub use walks::{STUCK, TWO_STARTUPS};
