//! The script that a real kernel's trace may have been of, as a guess.
//!
//! [`guess`] goes through a trace's lines: `call` reads the calls, `sight` what all of them show of the kernel's states,
//! `deed` parts them into walks and registrations, `item` says which operations may have made them, of which subsystems,
//! `numbers` which states of the machine stand for the kernel's, `fault` by which rules their callbacks fault, and `write`
//! writes the script.
//!
//! It promises nothing but to be safe and to end: whether the script plays the trace's calls, who asked plays it to see.
#![tactic(auto)]

mod call;
mod deed;
mod fault;
mod item;
mod numbers;
mod sight;
mod top;
mod write;

pub use numbers::Numbered;
pub use top::{Guessed, guess};
