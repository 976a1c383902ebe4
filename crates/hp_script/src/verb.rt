//! The first words of lines.

ghost use Rattle.std.specs.Prelude.{◌≡◌};
ghost use Rattle.hp_script.specs.Verbs.{verb_of as verb_at};

use hp_states::find_word;
use hp_text::{OpWord, op_word};

/// The first word of a line, which says what kind of line it is.
#[derive(Clone, Copy)]
pub enum Verb {
    Cpus,
    Absent,
    Sub,
    Rule,
    Schedule,
    Actor,
    /// An operation of this first word.
    Operation(OpWord),
}

/// The first words of the lines that are no operations, each with its verb.
const HEADINGS: [(&'static [u8], Verb); 6] = [
    (b"cpus", Verb::Cpus),
    (b"absent", Verb::Absent),
    (b"sub", Verb::Sub),
    (b"rule", Verb::Rule),
    (b"schedule", Verb::Schedule),
    (b"actor", Verb::Actor),
];

/// The verb whose word this is. Most lines are operations.
#[tactic(auto, unfolding(crate::specs::Verbs::verb_of))]
pub fn verb_of(word: &[u8]) -> Option<Verb>
    ensures { result ≡ verb_at word.now }
{
    match op_word(word) {
        Some(first) => Some(Verb::Operation(first)),
        None => find_word(&HEADINGS, word),
    }
}
