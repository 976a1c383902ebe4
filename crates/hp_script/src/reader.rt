//! All lines, from the first to the last.

ghost use Rattle.std.specs.Prelude.{ℕ, List, IfOk, IfErr, ◌≡◌};
ghost use Rattle.hp_script.specs.Drafts.{contents_of, Fits};
ghost use Rattle.hp_script.specs.LineAnswers.{AnswersStep, error_at};
ghost use Rattle.hp_script.specs.Playable.{PlaysIfRead};
ghost use Rattle.hp_script.specs.Judged.{IsRead, RefusesOrWants, IsRefusedOnce};

use crate::before::Before;
use crate::draft::Draft;
use crate::error::{ParseError, ScriptKind};
use crate::line::read_line;
use crate::script::Script;
use crate::stop::Stop;
use crate::words::next_piece;
use hp_states::MAX_SCRIPT_BYTES;
use std::alloc::Global;

/// One line more.
fn take_line(
    alloc: Global,
    hooks: u32,
    before: &mut Before,
    draft: &mut Draft,
    line: &[u8],
) -> Result<(), Stop>
    requires { Fits (contents_of draft.old) before.old }
    ensures { AnswersStep hooks line.now before.old before.new draft.old draft.new result }
{
    match read_line(alloc, hooks, before, line) {
        Err(stop) => Err(stop),
        Ok(None) => Ok(()),
        Ok(Some(statement)) => {
            *before = before.after(hooks, &statement);
            match draft.add(statement) {
                Ok(()) => Ok(()),
                Err(_) => Err(Stop::NoMemory),
            }
        }
    }
}

/// The error of a line that stops.
fn error_at(number: u32, stop: Stop) -> ParseError
    ensures { result ≡ error_at number stop }
{
    match stop {
        Stop::Bad(kind) => ParseError::Bad { line: number, kind },
        Stop::NoMemory => ParseError::NoMemory,
    }
}

/// Reads a script whose setups have so many hooks to take.
///
/// The bytes and the number of hooks may be any. The answer is the script that the lines say, where
/// none of them is refused; else `Bad` with the first line that is, counted from 1, and the first
/// kind that holds on it. More than `MAX_SCRIPT_BYTES` bytes are refused as a whole, at line 0, and
/// what is missing at the end at the line behind the last. Each byte is looked at a few times at
/// most. Takes memory for what is kept; where there is none: `NoMemory`. The language is this
/// project's own.
pub fn parse(alloc: Global, bytes: &[u8], hooks: u32) -> Result<Script, ParseError>
    // No refusal holds, and the script is the one that the lines say.
    ensures found { IfOk result (λ script. IsRead hooks bytes.now script) }
    // The first line that is refused, and the first kind that holds on it.
    ensures refused { IfErr result (λ error. RefusesOrWants hooks bytes.now error) }
{
    if bytes.len() > MAX_SCRIPT_BYTES as usize {
        return Err(ParseError::Bad {
            line: 0,
            kind: ScriptKind::TooLong,
        });
    }
    let mut before = Before::start();
    let mut draft = Draft::new(alloc);
    let mut number: u32 = 1;
    let mut rest = bytes;
    while let Some((line, behind)) = next_piece(b'\n', rest) {
        match take_line(alloc, hooks, &mut before, &mut draft, line) {
            Ok(()) => {}
            Err(stop) => return Err(error_at(number, stop)),
        }
        number += 1;
        rest = behind;
    }
    match before.refusal_at_end() {
        Some(kind) => Err(ParseError::Bad { line: number, kind }),
        None => Ok(draft.finish()),
    }
}

/// The law that the first line decides, and on it the first kind: at most one line and one kind are
/// refused, whichever bytes and hooks.
///
/// The function does nothing, and takes no memory.
#[tactic(auto, using(crate::proofs::OneRefusal::one_refusal))]
pub fn one_refusal()
    ensures { (hooks : ℕ) (bytes : List ℕ) → IsRefusedOnce hooks bytes }
{}

/// The law that each script that is read can be played: a machine can be started with its head and
/// has seats for its actors, its setups are of subsystems of the head and at most as many as the
/// hooks, each actor ends outside its read sections, and each number is in its range.
///
/// It holds of all bytes and any hooks. The function does nothing, and takes no memory. The ranges
/// are this project's own.
pub fn read_scripts_play()
    ensures { (hooks : ℕ) (bytes : List ℕ) → PlaysIfRead hooks bytes }
{}
