//! The lines of queues that went through a journal.

ghost use Rattle.std.specs.Prelude.{◌∷◌, OnOk, map, flat_map, decimal};
ghost use Rattle.hp_model.specs.Lawful.{IsLawful};
ghost use Rattle.hp_text.specs.Appends.{Appends};
ghost use Rattle.hp_run.specs.Commands.{CanBeFollowed};
ghost use Rattle.hp_run.specs.WorkLines.{list_line, drained_line, work_lines};

use hp_event::Journal;
use hp_states::NoMemory;
use hp_text::{append, append_number, append_numbers, end_line};
use hp_work::{Drained, go_through};
use std::alloc::{AllocError, Global};
use std::thread::Threads;

/// Appends the line of a list, with the word before it.
fn append_list(out: &mut Vec<u8>, word: &[u8], items: &[u32]) -> Result<(), AllocError>
    ensures { OnOk result (Appends out.old out.new (list_line word.now items.now)) }
{
    append(out, word)?;
    append_numbers(out, items)?;
    end_line(out)
}

/// Appends the line of a queue.
fn append_queue(out: &mut Vec<u8>, queue: &Drained) -> Result<(), AllocError>
    ensures { OnOk result (Appends out.old out.new (drained_line queue.now)) }
{
    append(out, b"drained")?;
    append_number(out, queue.cpu)?;
    append_numbers(out, queue.items.as_slice())?;
    end_line(out)
}

/// Appends the lines of some queues.
fn append_queues(out: &mut Vec<u8>, queues: &[Drained]) -> Result<(), AllocError>
    ensures { OnOk result (Appends out.old out.new (flat_map drained_line queues.now)) }
{
    for queue in queues {
        append_queue(out, queue)?;
    }
    Ok(())
}

/// Goes through a lawful journal with queues of a state, drains them, and appends what they hold.
///
/// The state is one that queues can follow. Takes memory for the queues and the lines; where it is wanting, the buffer may
/// have a part of them. This project's own.
pub fn append_work<R: Threads + Sync>(
    rt: &R,
    alloc: Global,
    out: &mut Vec<u8>,
    journal: &Journal,
    state: u32,
) -> Result<(), NoMemory>
    requires lawful { IsLawful journal.now.head journal.now.events }
    requires state { CanBeFollowed state }
    ensures { OnOk result (Appends out.old out.new (work_lines state journal.now.events)) }
{
    let queues = go_through(alloc, journal, state)?;
    let drain = queues.drain(rt)?;
    append_list(out, b"ran", drain.ran.as_slice())?;
    append_queues(out, drain.queues.as_slice())?;
    append_list(out, b"unbound", drain.unbound.as_slice())?;
    Ok(())
}
