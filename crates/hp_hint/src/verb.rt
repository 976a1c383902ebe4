//! The first words of lines.

ghost use Rattle.std.specs.Prelude.{◌≡◌};
ghost use Rattle.std.specs.Option.{option_map};
ghost use Rattle.hp_script.specs.Verbs.{verb_of as verb_at};
ghost use Rattle.hp_text.specs.FirstWords.{file_of as file_of_word};
ghost use Rattle.hp_hint.specs.Verbs.{read_as};

use hp_event::File;
use hp_states::find_word;
use hp_text::{OpWord, op_word};

/// The first word of a line, which says what kind of line it is.
#[derive(Clone, Copy)]
pub enum Verb {
    Cpus,
    Absent,
    Sub,
    Rule,
    Schedule,
    Actor,
    /// An operation of this first word.
    Operation(OpWord),
}

/// The first words of the lines that are no operations, each with its verb.
const HEADINGS: [(&'static [u8], Verb); 6] = [
    (b"cpus", Verb::Cpus),
    (b"absent", Verb::Absent),
    (b"sub", Verb::Sub),
    (b"rule", Verb::Rule),
    (b"schedule", Verb::Schedule),
    (b"actor", Verb::Actor),
];

/// The verb whose word this is. None where it is none that a script knows. Takes no memory.
#[tactic(auto, unfolding(hp_script::specs::Verbs::verb_of))]
pub fn verb_of(word: &[u8]) -> Option<Verb>
    ensures { option_map read_as result ≡ verb_at word.now }
{
    match op_word(word) {
        Some(first) => Some(Verb::Operation(first)),
        None => find_word(&HEADINGS, word),
    }
}

/// The names of files, each with its file.
const FILES: [(&'static [u8], File); 4] = [
    (b"state", File::State),
    (b"target", File::Target),
    (b"fail", File::Fail),
    (b"states", File::States),
];

/// The file that a word names. None where it names none. Takes no memory.
#[tactic(auto, unfolding(hp_text::specs::FirstWords::file_of))]
pub fn file_of(word: &[u8]) -> Option<File>
    ensures { result ≡ file_of_word word.now }
{
    find_word(&FILES, word)
}
