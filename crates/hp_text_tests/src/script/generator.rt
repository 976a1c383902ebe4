//! Generated scripts, compared with texts that were worked out apart from the program.

use crate::compared::assert_text;
use hp_samples::{SEED_0_SIZE_1, SEED_7_SIZE_2};
use hp_script::generate;
use std::test::*;

#[test]
fn generated_scripts(rt: HostRuntime) -> Result<(), Fail> {
    let smallest = generate(rt.alloc(), 0, 1)?;
    assert_text(&rt, "seed 0 and size 1", &smallest, SEED_0_SIZE_1);
    let other = generate(rt.alloc(), 7, 2)?;
    assert_text(&rt, "seed 7 and size 2", &other, SEED_7_SIZE_2);
    Ok(())
}
