//! Stored examples: a script, and the journal and the summary that it is played to.

use crate::command::run;
use hp_edge::DONE;
use std::alloc::{AllocError, Global};

/// Whether a script is played to this text.
fn is_played(alloc: Global, script: &[u8], text: &[u8]) -> Result<bool, AllocError> {
    let (status, output) = run(alloc, "play", script)?;
    Ok(status == DONE && output.as_slice() == text)
}

/// Whether a text is that of a journal with its summary: both are accepted, and so is the journal alone.
fn is_replayed(alloc: Global, text: &[u8]) -> Result<bool, AllocError> {
    let (status, summary) = run(alloc, "replay", text)?;
    let Some(journal) = text.strip_suffix(summary.as_slice()) else {
        return Ok(false);
    };
    let (again, output) = run(alloc, "replay", journal)?;
    Ok(status == DONE && again == DONE && output.as_slice() == summary.as_slice())
}

/// What is said of a script and the text that is stored beside it.
pub fn said(alloc: Global, script: &[u8], text: &[u8]) -> Result<&'static str, AllocError> {
    if !is_played(alloc, script, text)? {
        return Ok("played otherwise");
    }
    if !is_replayed(alloc, text)? {
        return Ok("replayed otherwise");
    }
    Ok("played and replayed as stored")
}
