//! The words of an error.

use hp_replay::{ReplayError, ReplayKind};
use std::test::*;

#[test]
fn the_words_of_an_error(rt: HostRuntime) -> Result<(), Fail> {
    let bad = ReplayError::Bad {
        line: 27,
        kind: ReplayKind::Unlawful,
    };
    let text = format!(in rt.alloc(); "{bad}")?;
    assert!(rt; text.as_str() == "line 27: unlawful");
    assert!(rt; ReplayKind::TooLong.text() == "too long");
    Ok(())
}
