//! The commands, and the words that ask for them.

ghost use Rattle.std.specs.Prelude.{IfSome, IfNone, map, string_bytes};
ghost use Rattle.hp_run.specs.Commands.{SaysState, SaysNoState, AskFor, AskForNothing};

use hp_text::long_number;
use hp_work::LAST_FOLLOWED;

/// What the program is asked for.
#[derive(Clone, Copy, Debug, PartialEq, Eq)]
pub enum Command {
    /// The text of the journal of a run, and its summary.
    Run,
    /// Those, and what work queues that follow this state hold after the journal.
    Work(u32),
}

/// The state that queues can follow and a word says, if it says one.
fn state_of(word: &str) -> Option<u32>
    ensures some { IfSome result (SaysState word.now) }
    ensures none { IfNone result (SaysNoState word.now) }
{
    let state = long_number(word.as_bytes()).ok()?;
    if state == 0 || state > u64::from(LAST_FOLLOWED) {
        return None;
    }
    Some(state as u32)
}

/// The command that the words after the program's name ask for, if they ask for one: `run`, or `work` and a state from 1 to
/// `LAST_FOLLOWED`, as decimal digits without zeros before others. Takes no memory. This project's own.
pub fn command_of(words: &[String]) -> Option<Command>
    ensures some { IfSome result (λ command. AskFor command (map string_bytes words.now)) }
    ensures none { IfNone result (AskForNothing (map string_bytes words.now)) }
{
    if words.len() == 1 && words[0].as_str() == "run" {
        return Some(Command::Run);
    }
    if words.len() == 2 && words[0].as_str() == "work" {
        let state = state_of(words[1].as_str())?;
        return Some(Command::Work(state));
    }
    None
}
