//! The words of an operation, appended to a buffer.

ghost use Rattle.std.specs.Prelude.{◌++◌, OnOk, map, decimal};
ghost use Rattle.hp_model.specs.Words.{spaced};
ghost use Rattle.hp_model.specs.Listed.{listed};
ghost use Rattle.hp_model.specs.EventLine.{op_words, form_words};
ghost use Rattle.hp_text.specs.Appends.{Appends, place_text};

use crate::spell::{append, append_number, append_of, append_signed};
use hp_event::{Form, Op};
use hp_states::CpuSet;
use std::alloc::AllocError;

/// Appends the flags of a form.
fn append_form(out: &mut Vec<u8>, form: Form) -> Result<(), AllocError>
    ensures { OnOk result (Appends out.old out.new (spaced (form_words form))) }
{
    if form.nocalls {
        append(out, b" nocalls")?;
    }
    if form.locked {
        append(out, b" locked")?;
    }
    Ok(())
}

/// Appends the numbers that a set lists, rising.
fn append_set(out: &mut Vec<u8>, set: &CpuSet) -> Result<(), AllocError>
    ensures { OnOk result (Appends out.old out.new (spaced (map decimal (listed set.now)))) }
{
    let mut from = 0;
    while let Some(cpu) = set.first_from(from) {
        append_number(out, cpu)?;
        from = cpu + 1;
    }
    Ok(())
}

/// Appends an operation, as a script has it.
///
/// Takes memory; where it is wanting, the buffer may have a part of that. This project's own.
pub fn append_op(out: &mut Vec<u8>, op: &Op) -> Result<(), AllocError>
    ensures { OnOk result (Appends out.old out.new (spaced (op_words op.now))) }
{
    match op {
        Op::Up(cpu) => append_of(out, b" up", *cpu),
        Op::Down(cpu) => append_of(out, b" down", *cpu),
        Op::Target(cpu, value) => {
            append_of(out, b" target", *cpu)?;
            append_signed(out, *value)
        }
        Op::Arm(cpu, value) => {
            append_of(out, b" fail", *cpu)?;
            append_signed(out, *value)
        }
        Op::ShowState(cpu) => append_of(out, b" show state", *cpu),
        Op::ShowTarget(cpu) => append_of(out, b" show target", *cpu),
        Op::ShowFail(cpu) => append_of(out, b" show fail", *cpu),
        Op::ShowStates => append(out, b" show states"),
        Op::Setup { state, sub, form } => append_registering(out, b" setup", *state, *sub, *form),
        Op::Remove { state, form } => {
            append(out, b" remove")?;
            append_number(out, *state)?;
            append_form(out, *form)
        }
        Op::Add { state, inst, form } => append_registering(out, b" add", *state, *inst, *form),
        Op::Del { state, inst, form } => append_registering(out, b" del", *state, *inst, *form),
        Op::Lock => append(out, b" lock"),
        Op::Unlock => append(out, b" unlock"),
        Op::Boot(most) => {
            append(out, b" boot")?;
            append_number(out, *most)
        }
        Op::Disable => append(out, b" disable"),
        Op::Enable => append(out, b" enable"),
        Op::Freeze(primary) => {
            append(out, b" freeze")?;
            append_signed(out, *primary)
        }
        Op::Thaw => append(out, b" thaw"),
        Op::Wakeup => append(out, b" wakeup"),
        Op::UpMany(set) => {
            append(out, b" upmany")?;
            append_set(out, set)
        }
    }
}

/// Appends a word, two numbers and the flags of a form.
fn append_registering(
    out: &mut Vec<u8>,
    word: &[u8],
    state: u32,
    which: u32,
    form: Form,
) -> Result<(), AllocError>
    ensures { OnOk result (Appends out.old out.new (word.now ++ place_text state which form)) }
{
    append(out, word)?;
    append_number(out, state)?;
    append_number(out, which)?;
    append_form(out, form)
}
