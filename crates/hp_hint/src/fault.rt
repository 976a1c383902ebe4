//! Where a refused script is at fault.

ghost use Rattle.std.specs.Prelude.{◌≡◌, ◌<◌, ◌≤◌, ◌^◌, true, length, IfSome, IfNone, IfOk, option_map};
ghost use Rattle.hp_script.specs.Words.{words};
ghost use Rattle.hp_script.specs.Statements.{statement_in};
ghost use Rattle.hp_script.specs.Refusals.{is_out_of_range};
ghost use Rattle.hp_script.specs.Judged.{IsUnrefused};
ghost use Rattle.hp_hint.specs.Forms.{IsGood};
ghost use Rattle.hp_hint.specs.Faults.{is_line, line_of as line_of_bytes, IsMarked, IsFault};

use crate::context::Context;
use crate::form::good_words;
use crate::measure::Measure;
use crate::piece::split_piece;
use crate::place::{Mark, first_bad_byte, place_of_word};
use crate::ranges::number_at_fault;
use crate::verb::verb_of;
use crate::words::LineWords;
use hp_script::{ParseError, ScriptKind, parse};
use hp_states::{MAX_SCRIPT_BYTES, NoMemory};
use hp_text::Words;
use std::alloc::Global;

/// Where and why a script is refused.
#[derive(Clone, Copy, Debug)]
pub struct Fault {
    /// The line, counted from 1; 0 where the script is refused as a whole, and one more than there are where its end is.
    pub line: u32,
    /// Why.
    pub kind: ScriptKind,
    /// What is marked of that line, where there is one.
    pub mark: Option<Mark>,
}

/// How many words of a line go on to a line of a form.
fn good_words_of(line: &[u8]) -> usize
    requires { length line.now ≤ MAX_SCRIPT_BYTES }
    ensures { IsGood is_line (words line.now) result }
{
    let mut words = LineWords::of(line);
    let Some(first) = words.next_word() else {
        return 0;
    };
    match verb_of(first) {
        Some(verb) => 1 + good_words(Measure::Form, verb, &mut words),
        None => 0,
    }
}

/// What is marked of a line that is refused so where so many processors are possible.
fn mark_of(kind: ScriptKind, possible: u32, line: &[u8]) -> Mark
    requires few { length line.now ≤ MAX_SCRIPT_BYTES }
    requires bad { kind ≡ ScriptKind.BadNumber → is_out_of_range possible (statement_in (words line.now)) ≡ true }
    ensures { IsMarked kind possible line.now result }
{
    match kind {
        ScriptKind::BadByte => first_bad_byte(line),
        ScriptKind::BadForm => place_of_word(line, good_words_of(line)),
        ScriptKind::BadNumber => place_of_word(line, number_at_fault(possible, line)),
        ScriptKind::NoSub => place_of_word(line, 2),
        _ => place_of_word(line, 0),
    }
}

/// The line of this number, counted from 1. None where there are fewer. Takes no memory.
pub fn line_of(bytes: &[u8], number: u32) -> Option<&[u8]>
    ensures found { option_map (λ line. line.now) result ≡ line_of_bytes bytes.now number }
    ensures within { IfSome result (λ line. length line.now ≤ length bytes.now) }
{
    let mut left = number.saturating_sub(1);
    let mut rest = bytes;
    while let Some((line, behind)) = split_piece(b'\n', rest) {
        if left == 0 {
            return Some(line);
        }
        left -= 1;
        rest = behind;
    }
    None
}

/// Where a script is at fault whose setups have so many hooks to take. None where it isn't refused.
///
/// The refusal is the one that `parse` of hp_script answers. There is no condition. Takes memory for what is read; where there
/// is none: `NoMemory`.
pub fn fault_of(alloc: Global, bytes: &[u8], hooks: u32) -> Result<Option<Fault>, NoMemory>
    ensures fault { IfOk result (λ found. IfSome found (IsFault hooks bytes.now)) }
    ensures none { IfOk result (λ found. IfNone found (IsUnrefused hooks bytes.now)) }
{
    let (line, kind) = match parse(alloc, bytes, hooks) {
        Ok(_) => return Ok(None),
        Err(ParseError::NoMemory) => return Err(NoMemory),
        Err(ParseError::Bad { line, kind }) => (line, kind),
    };
    if line == 0 || bytes.len() > MAX_SCRIPT_BYTES as usize {
        return Ok(Some(Fault {
            line,
            kind,
            mark: None,
        }));
    }
    let context = Context::before(bytes, line);
    let mark = match line_of(bytes, line) {
        Some(text) => Some(mark_of(kind, context.possible, text)),
        None => None,
    };
    Ok(Some(Fault { line, kind, mark }))
}
