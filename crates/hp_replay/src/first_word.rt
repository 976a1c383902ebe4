//! The first words of event lines.

ghost use Rattle.std.specs.Prelude.{◌≡◌};
ghost use Rattle.hp_replay.specs.FirstWords.{event_word_of};

use hp_states::find_word;

/// The first word of an event's line, which says what kind of event it is.
#[derive(Clone, Copy)]
pub enum EventWord {
    Enter,
    Done,
    Walked,
    Walk,
    Refused,
    Lock,
    Unlock,
    Reg,
    Regged,
    Shown,
    Armed,
    Wakeup,
    Admit,
    Leave,
    Call,
}

/// The first words of event lines, each with what it says; those of which a journal has most stand first.
const EVENT_WORDS: [(&'static [u8], EventWord); 15] = [
    (b"enter", EventWord::Enter),
    (b"done", EventWord::Done),
    (b"walked", EventWord::Walked),
    (b"walk", EventWord::Walk),
    (b"refused", EventWord::Refused),
    (b"lock", EventWord::Lock),
    (b"unlock", EventWord::Unlock),
    (b"reg", EventWord::Reg),
    (b"regged", EventWord::Regged),
    (b"shown", EventWord::Shown),
    (b"armed", EventWord::Armed),
    (b"wakeup", EventWord::Wakeup),
    (b"admit", EventWord::Admit),
    (b"leave", EventWord::Leave),
    (b"call", EventWord::Call),
];

/// Which first word of an event's line a word is.
pub fn event_word(word: &[u8]) -> Option<EventWord>
    ensures { result ≡ event_word_of word.now }
{
    find_word(&EVENT_WORDS, word)
}
