//! The words of SMT control.

ghost use Rattle.std.specs.Prelude.{◌≡◌, IfSome, IfNone, map, string_bytes};
ghost use Rattle.hp_command.specs.Controlling.{SaysThreads, SaysNoThreads, mode_word, AreControlling, AreNoControlling};
ghost use Rattle.hp_command.specs.declared.controlling.ControlMode.{ControlMode as AMode};

use crate::number::number_of;

/// The mode that is written to SMT control: siblings go down, and stay down.
#[derive(Clone, Copy, Debug, PartialEq, Eq)]
pub enum ControlMode {
    /// Until On is written.
    Off,
    /// For good.
    ForceOff,
}

/// Under which SMT control a script is played: the threads of a core, and the mode that is written.
#[derive(Clone, Copy, Debug, PartialEq, Eq)]
pub struct Controlling {
    /// The threads of a core, from 2 to 8.
    pub threads: u32,
    /// The mode that is written.
    pub mode: ControlMode,
}

/// The threads of a core that a word says, if it says some.
fn threads_of(word: &str) -> Option<u32>
    ensures some { IfSome result (SaysThreads word.now) }
    ensures none { IfNone result (SaysNoThreads word.now) }
{
    let number = number_of(word)?;
    if number < 2 || number > 8 {
        return None;
    }
    Some(number as u32)
}

/// The mode that a word says, if it says one.
fn mode_of(word: &str) -> Option<ControlMode>
    ensures some { IfSome result (λ mode. word.now ≡ mode_word mode) }
    ensures none { IfNone result ((mode : AMode) → word.now ≡ mode_word mode → ⊥) }
{
    if word == "off" {
        return Some(ControlMode::Off);
    }
    if word == "forceoff" {
        return Some(ControlMode::ForceOff);
    }
    None
}

/// The SMT control that the words are, if they are that.
pub fn controlling_of(words: &[String]) -> Option<Controlling>
    ensures some { IfSome result (AreControlling (map string_bytes words.now)) }
    ensures none { IfNone result (AreNoControlling (map string_bytes words.now)) }
{
    if words.len() != 2 {
        return None;
    }
    let threads = threads_of(words[0].as_str())?;
    let mode = mode_of(words[1].as_str())?;
    Some(Controlling { threads, mode })
}
