//! The `states` file.

ghost use Rattle.std.specs.Prelude.{◌≡◌, ◌-◌, ◌++◌, IfOk, OnOk, replicate};
ghost use Rattle.std.specs.Option.{option_copied};
ghost use Rattle.hp_files.specs.StatesFile.{right_in_three, state_line, line_of, states_file, name_in};

use hp_event::Head;
use hp_hook::Hook;
use hp_states::{NoMemory, ONLINE, builtin_name};
use hp_table::Table;
use itoa::Buffer;
use std::alloc::{AllocError, Global};

/// Appends the spaces that stand before so many digits.
#[tactic(auto, using(crate::proofs::Places::spaces))]
fn append_spaces(out: &mut Vec<u8>, digits: usize) -> Result<(), AllocError>
    ensures { OnOk result (out.new.items ≡ out.old.items ++ replicate (3 - digits) 32) }
{
    let places = b"   ";
    out.extend_from_slice(&places[digits.min(3)..])
}

/// Appends a number at the right of three places.
fn append_right(out: &mut Vec<u8>, number: u32) -> Result<(), AllocError>
    ensures { OnOk result (out.new.items ≡ out.old.items ++ right_in_three number) }
{
    let mut buffer = Buffer::new();
    let digits = buffer.format(number).as_bytes();
    append_spaces(out, digits.len())?;
    out.extend_from_slice(digits)
}

/// Appends the line of a state that has a name.
fn append_line(out: &mut Vec<u8>, state: u32, name: &[u8]) -> Result<(), AllocError>
    ensures { OnOk result (out.new.items ≡ out.old.items ++ state_line state name.now) }
{
    append_right(out, state)?;
    out.extend_from_slice(b": ")?;
    out.extend_from_slice(name)?;
    out.push(b'\n')?;
    Ok(())
}

/// The name of a state: the built-in one, or else that of the subsystem that is registered there.
fn name_of<'a, H: Hook>(head: &'a Head, table: &Table<H>, state: u32) -> Option<&'a [u8]>
    ensures { option_copied result ≡ name_in head.now table.now state }
{
    if let Some(name) = builtin_name(state) {
        return Some(name.as_bytes());
    }
    let record = table.step(state)?;
    let sub = head.sub(record.sub)?;
    Some(sub.name.as_slice())
}

/// Appends the line of a state, where it has a name.
fn append_state<H: Hook>(
    out: &mut Vec<u8>,
    head: &Head,
    table: &Table<H>,
    state: u32,
) -> Result<(), AllocError>
    ensures { OnOk result (out.new.items ≡ out.old.items ++ line_of state (name_in head.now table.now state)) }
{
    match name_of(head, table, state) {
        Some(name) => append_line(out, state, name),
        None => Ok(()),
    }
}

/// The text of the `states` file: a line for each state that has a name, in rising number.
///
/// A line is the number at the right of three places, a colon, a space, the name and a newline. A
/// state has its built-in name, or else that of the subsystem that is registered there; it has none
/// where the number of that subsystem is none of the head's.
///
/// - `NoMemory` where memory for the text is wanting.
///
/// There is no other refusal; the head and the table are only read. Takes memory for the text, and
/// time for the states and the text. The form is that of `states_show` of `kernel/cpu.c`; that a
/// state is named after its subsystem is this project's own.
#[tactic(auto, unfolding(crate::specs::StatesFile::states_file))]
pub fn show_states<H: Hook>(
    alloc: Global,
    head: &Head,
    table: &Table<H>,
) -> Result<Vec<u8>, NoMemory>
    ensures { IfOk result (λ text. text.items ≡ states_file (name_in head.now table.now)) }
{
    let mut out = Vec::new(alloc);
    for state in 0..ONLINE + 1 {
        append_state(&mut out, head, table, state)?;
    }
    Ok(out)
}
