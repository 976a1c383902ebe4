//! What a sample is.

/// A script, and what is written when it is played: the text of the journal, and the summary behind it.
///
/// The texts were made from the rules, and not by this project's programs.
#[derive(Clone, Copy)]
pub struct Sample {
    /// What a failing test calls it.
    pub name: &'static str,
    /// The text of the script.
    pub script: &'static str,
    /// The text of the journal, from its header to its `end` line.
    pub journal: &'static str,
    /// The summary of that journal.
    pub summary: &'static str,
}
