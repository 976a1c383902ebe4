//! A law that a test starts, and the events that it takes.

use super::heads::{Row, head_of};
use hp_event::Event;
use hp_law::{Law, is_head};
use hp_states::NoMemory;
use std::alloc::Global;
use std::process::Abort;
use std::test::Fail;

/// A law that is started with the head of a row.
pub(crate) fn started(rt: &impl Abort, alloc: Global, row: &Row) -> Result<Law, Fail> {
    let head = head_of(alloc, row)?;
    if !is_head(&head) {
        panic!(rt; "no machine is started with this head");
    }
    match Law::start(alloc, &head) {
        Ok(law) => Ok(law),
        Err(NoMemory) => panic!(rt; "memory for a law"),
    }
}

/// Takes an event, if it stands.
pub(crate) fn takes(rt: &impl Abort, law: &mut Law, event: &Event) -> bool {
    match law.offer(event) {
        Ok(stands) => stands,
        Err(NoMemory) => panic!(rt; "memory for an event"),
    }
}
