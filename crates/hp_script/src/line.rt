//! One line, after what stood before it.

ghost use Rattle.std.specs.Prelude.{◌∷◌};
ghost use Rattle.hp_script.specs.LineAnswers.{AnswersWords, AnswersLine};

use crate::before::Before;
use crate::error::ScriptKind;
use crate::statement::{Statement, read_statement};
use crate::stop::Stop;
use crate::verb::verb_of;
use crate::words::{LineWords, has_bad_byte, is_comment};
use hp_text::Words;
use std::alloc::Global;

/// What a line of this first word says, where it isn't refused.
fn read_words(
    alloc: Global,
    hooks: u32,
    before: &Before,
    first: &[u8],
    behind: &mut LineWords<'_>,
) -> Result<Statement, Stop>
    ensures { AnswersWords hooks before.now (first.now ∷ behind.old) result }
{
    let verb = match before.place(verb_of(first)) {
        Ok(verb) => verb,
        Err(kind) => return Err(Stop::Bad(kind)),
    };
    let said = match read_statement(alloc, before.possible, verb, behind) {
        Ok(said) => said,
        Err(stop) => return Err(stop),
    };
    match before.room(hooks, &said) {
        Ok(()) => Ok(said),
        Err(kind) => Err(Stop::Bad(kind)),
    }
}

/// What a line says, where it isn't refused; nothing where it is skipped.
pub fn read_line(
    alloc: Global,
    hooks: u32,
    before: &Before,
    line: &[u8],
) -> Result<Option<Statement>, Stop>
    ensures { AnswersLine hooks before.now line.now result }
{
    if has_bad_byte(line) {
        return Err(Stop::Bad(ScriptKind::BadByte));
    }
    let mut words = LineWords::of(line);
    let Some(first) = words.next_word() else {
        return Ok(None);
    };
    if is_comment(first) {
        return Ok(None);
    }
    match read_words(alloc, hooks, before, first, &mut words) {
        Ok(said) => Ok(Some(said)),
        Err(stop) => Err(stop),
    }
}
