//! A read and a write that fail.

use crate::caller::run;
use std::test::*;

const NO_EVENTS: &str = "cpuhp journal 2\ncpus 1\nabsent -\nevents\nend 0\n";

/// The read and the write that fail, the status, how many failed of each, and how many bytes are written.
const ROWS: [(
    &'static str,
    (Option<u64>, Option<u64>),
    u8,
    (u64, u64),
    usize,
); 2] = [
    ("a read", (Some(3), None), 3, (1, 0), 0),
    ("a write", (None, Some(2)), 4, (0, 1), 100),
];

#[test]
fn what_fails_is_told(rt: HostRuntime) -> Result<(), Fail> {
    for &(name, fails, status, faults, len) in ROWS.iter() {
        let ran = run(rt.alloc(), &[], NO_EVENTS, fails)?;
        assert!(rt; ran.status == status && ran.faults == faults, "row {name}");
        assert!(rt; ran.written.len() == len, "row {name}");
    }
    Ok(())
}
