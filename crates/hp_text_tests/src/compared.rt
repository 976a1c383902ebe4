//! How texts are compared.

use hp_samples::first_difference;
use std::process::Abort;

/// Asserts that a text is the wanted one, and says the name of it and the first line that is another.
pub fn assert_text(rt: &impl Abort, name: &str, found: &[u8], wanted: &str) {
    if let Some(line) = first_difference(found, wanted.as_bytes()) {
        panic!(rt; "{name}, line {line}");
    }
}
