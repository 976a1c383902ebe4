//! What is written of a run under SMT control, behind its journal and summary.

ghost use Rattle.std.specs.Prelude.{◌∷◌, OnOk, map};
ghost use Rattle.hp_smt_run.specs.Playing.{written_as};
ghost use Rattle.hp_text.specs.Appends.{Appends};
ghost use Rattle.hp_play.specs.ControlText.{control_text, control_word, write_line};

use hp_print::append_answer;
use hp_smt::Control;
use hp_smt_run::Written;
use hp_text::{append, append_count, append_numbers, end_line};
use std::alloc::AllocError;

/// Appends the word of a write of control, behind a space.
fn append_control(out: &mut Vec<u8>, want: Control) -> Result<(), AllocError>
    ensures { OnOk result (Appends out.old out.new (32 ∷ control_word want)) }
{
    match want {
        Control::On => append(out, b" on"),
        Control::Off => append(out, b" off"),
        Control::ForceOff => append(out, b" forceoff"),
    }
}

/// Appends the line of a write of control: its answer, and the processors that were online then.
fn append_write(out: &mut Vec<u8>, written: &Written) -> Result<(), AllocError>
    ensures { OnOk result (Appends out.old out.new (write_line (written_as written.now))) }
{
    append(out, b"smt")?;
    append_control(out, written.want)?;
    append_answer(out, written.answer)?;
    append(out, b" online")?;
    append_numbers(out, &written.online)?;
    end_line(out)
}

/// Appends a line for each write of control, and one that says how many operations were denied.
///
/// Takes memory; where it is wanting, the buffer may have a part of that. This project's own.
pub fn append_control_text(
    out: &mut Vec<u8>,
    writes: &[Written],
    denied: usize,
) -> Result<(), AllocError>
    ensures { OnOk result (Appends out.old out.new (control_text (map written_as writes.now) denied)) }
{
    for written in writes {
        append_write(out, written)?;
    }
    append(out, b"denied")?;
    append_count(out, denied)?;
    end_line(out)
}
