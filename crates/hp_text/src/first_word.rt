//! The first words of operations, and the names of files.

ghost use Rattle.std.specs.Prelude.{◌≡◌};
ghost use Rattle.hp_text.specs.FirstWords.{op_word_of, file_of as file_of_word};

use hp_event::File;
use hp_states::find_word;

/// The first word of an operation.
#[derive(Clone, Copy)]
pub enum OpWord {
    Up,
    Down,
    Target,
    Fail,
    Show,
    Setup,
    Remove,
    Add,
    Del,
    Lock,
    Unlock,
    Boot,
    Disable,
    Enable,
    Freeze,
    Thaw,
    Wakeup,
    UpMany,
}

/// The first words of operations, each with what it says.
const OP_WORDS: [(&'static [u8], OpWord); 18] = [
    (b"up", OpWord::Up),
    (b"down", OpWord::Down),
    (b"target", OpWord::Target),
    (b"fail", OpWord::Fail),
    (b"show", OpWord::Show),
    (b"setup", OpWord::Setup),
    (b"remove", OpWord::Remove),
    (b"add", OpWord::Add),
    (b"del", OpWord::Del),
    (b"lock", OpWord::Lock),
    (b"unlock", OpWord::Unlock),
    (b"boot", OpWord::Boot),
    (b"disable", OpWord::Disable),
    (b"enable", OpWord::Enable),
    (b"freeze", OpWord::Freeze),
    (b"thaw", OpWord::Thaw),
    (b"wakeup", OpWord::Wakeup),
    (b"upmany", OpWord::UpMany),
];

/// Which first word of an operation a word is.
#[tactic(auto, unfolding(crate::specs::FirstWords::op_word_of))]
pub fn op_word(word: &[u8]) -> Option<OpWord>
    ensures { result ≡ op_word_of word.now }
{
    find_word(&OP_WORDS, word)
}

/// The names of files, each with its file.
const FILES: [(&'static [u8], File); 4] = [
    (b"state", File::State),
    (b"target", File::Target),
    (b"fail", File::Fail),
    (b"states", File::States),
];

/// The file that a word names. None where it names none.
///
/// Takes no memory. After the files of `cpuhp_cpu_attrs` and `states` of `kernel/cpu.c`.
#[tactic(auto, unfolding(crate::specs::FirstWords::file_of))]
pub fn file_of(word: &[u8]) -> Option<File>
    ensures { result ≡ file_of_word word.now }
{
    find_word(&FILES, word)
}
