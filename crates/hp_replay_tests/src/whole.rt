//! A whole text, with its summary and without.

use crate::events::TEXT;
use hp_replay::{check, check_and_summarize, event_fits, events_fit, text_is_accepted};
use std::test::*;

/// The summary of the text.
const SUMMARY: &'static [u8] = b"\
cpu 0 present state 200 keys 150.0
cpu 1 present state 200 keys 150.0
disabled 0
frozen -
sub 150 net:a made 2 faults 0 instances -
ops ok 7 refused 1 fault 0 stuck 0 full 0
events 18
";

#[test]
fn a_text_without_its_summary(rt: HostRuntime) -> Result<(), Fail> {
    let journal = check(rt.alloc(), TEXT)?;
    assert!(rt; journal.len() == 18);
    text_is_accepted(&journal, TEXT);
    events_fit(journal.events());
    event_fits(journal.get(0));
    Ok(())
}

#[test]
fn a_text_with_its_summary(rt: HostRuntime) -> Result<(), Fail> {
    let (_, printed) = check_and_summarize(rt.alloc(), TEXT)?;
    assert!(rt; printed.as_slice() == SUMMARY);
    let mut all = Vec::from_slice(rt.alloc(), TEXT)?;
    all.extend_from_slice(SUMMARY)?;
    let (journal, read) = check_and_summarize(rt.alloc(), all.as_slice())?;
    assert!(rt; journal.len() == 18);
    assert!(rt; read.as_slice() == SUMMARY);
    Ok(())
}
