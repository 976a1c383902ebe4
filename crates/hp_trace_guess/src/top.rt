//! The guess as a whole.

use crate::call::moves_of;
use crate::deed::deeds_of;
use crate::fault::{faults_of, starts_of};
use crate::item::plan_of;
use crate::numbers::{Numbered, numbers_of};
use crate::sight::sight_of;
use crate::write::{Matter, text_of};
use std::alloc::{AllocError, Global};

/// A script that may play the calls of a trace.
#[derive(Drop)]
pub struct Guessed {
    /// Its text.
    pub script: String,
    /// Which states of the machine stand in it for which of the kernel.
    pub numbers: Vec<Numbered>,
}

/// A script that may play the calls of the lines of a trace before this one, which is counted from 1.
///
/// The bytes and the number may be any. Nothing is promised of the script. Takes memory for some words of each line, and
/// for the script; where there is none: `AllocError`.
pub fn guess(alloc: Global, bytes: &[u8], until: u32) -> Result<Guessed, AllocError> {
    let moves = moves_of(alloc, bytes, until)?;
    let sight = sight_of(alloc, &moves)?;
    let deeds = deeds_of(alloc, &sight, &moves)?;
    let plan = plan_of(alloc, &sight, &deeds)?;
    let numbers = numbers_of(alloc, &sight, &plan)?;
    let starts = starts_of(alloc, &plan)?;
    let faults = faults_of(alloc, &sight, &plan, &starts)?;
    let matter = Matter {
        sight: &sight,
        plan: &plan,
        numbers: &numbers,
        faults: &faults,
        starts: &starts,
    };
    let script = text_of(alloc, &moves, &matter)?;
    Ok(Guessed { script, numbers })
}
