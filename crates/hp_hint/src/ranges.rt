//! Which number of a line is out of its range.

ghost use Rattle.std.specs.Prelude.{◌≡◌, ◌≤◌, true, length};
ghost use Rattle.hp_states.specs.declared.limits.TheConstants.{MAX_SCRIPT_BYTES};
ghost use Rattle.hp_script.specs.Words.{words};
ghost use Rattle.hp_script.specs.Statements.{statement_in};
ghost use Rattle.hp_script.specs.Refusals.{is_out_of_range};
ghost use Rattle.hp_hint.specs.LineForms.{has_lines};
ghost use Rattle.hp_hint.specs.Faults.{IsFirstOutOfRange};

use crate::form::good_words;
use crate::measure::Measure;
use crate::verb::{Verb, verb_of};
use crate::words::LineWords;
use hp_text::Words;

/// Whether numbers can be in range behind this first word, where so many processors are possible.
fn has_lines(possible: u32, verb: Verb) -> bool
    ensures { result ≡ has_lines (Measure.Ranges possible) verb }
{
    match verb {
        Verb::Absent => 1 < possible,
        _ => true,
    }
}

/// Which word of a line is the first whose number is out of its range, counted from 0, where so many processors are possible.
///
/// The line is of its form, and has such a number. Takes no memory.
pub fn number_at_fault(possible: u32, line: &[u8]) -> usize
    requires few { length line.now ≤ MAX_SCRIPT_BYTES }
    requires bad { is_out_of_range possible (statement_in (words line.now)) ≡ true }
    ensures { IsFirstOutOfRange possible (words line.now) result }
{
    let mut words = LineWords::of(line);
    let Some(first) = words.next_word() else {
        return 0;
    };
    let Some(verb) = verb_of(first) else {
        return 0;
    };
    if !has_lines(possible, verb) {
        return 1;
    }
    1 + good_words(Measure::Ranges(possible), verb, &mut words)
}
