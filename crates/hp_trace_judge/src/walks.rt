//! The walks of a trace, event after event.

ghost use Rattle.std.specs.Prelude.{◌≡◌, IfOk};
ghost use Rattle.hp_trace_walk.specs.Tables.{kept, fresh};
ghost use Rattle.hp_trace_judge.specs.Walks as spec;

use crate::borders::borders_before;
use crate::event::turn_of;
use crate::place::{Halt, Misfit, Place, Turn};
use hp_trace::{Pieces, Said, said_of};
use hp_trace_walk::{Borders, Known, MOST_STATES, Table, Wrong};
use std::alloc::{AllocError, Global};

/// What is said of the walks of a trace.
#[derive(Clone, Copy)]
pub enum Walks {
    /// They are lawful, in some table of states.
    Lawful,
    /// A line can't be one of lawful walks.
    Misfit(Misfit),
    /// They aren't judged from this line on: it has the number of a state that a table doesn't have.
    Far(u32),
    /// They aren't judged: no line shows enough of where a processor is booted and taken down.
    NoBorders,
}

/// A table of which nothing is known. Takes memory.
fn fresh_table(alloc: Global) -> Result<Table, AllocError>
    ensures { IfOk result (λ t. kept t ≡ fresh) }
{
    Ok(Table {
        known: vec![in alloc; Known::unknown(); MOST_STATES as usize]?,
        shut: None,
    })
}

/// A reader before the first line.
fn nowhere() -> Place
    ensures { result ≡ spec.nowhere }
{
    Place {
        walk: None,
        mark: None,
        call: None,
    }
}

/// Has a table answer what an event asks.
fn apply(table: &mut Table, borders: Borders, turn: &Turn)
    ensures { kept table.new ≡ spec.applied borders turn.now (kept table.old) }
{
    table.ask_all(borders, &turn.closed);
    table.forget(turn.forget);
    table.ask_all(borders, &turn.asked);
}

/// Where a reader stands behind an event that does this, unless the table has a state that can't be as it was asked.
fn fit(turn: &Turn, shut: Option<u32>) -> Result<Place, Halt>
    ensures { result ≡ spec.fit turn.now shut }
{
    match shut {
        None => Ok(turn.place),
        Some(state) => Err(Halt::Misfit(Misfit {
            named: turn.named,
            wrong: Wrong::Shows(state),
        })),
    }
}

/// Takes what an event does, or why it does nothing.
fn take(table: &mut Table, borders: Borders, turn: Result<Turn, Halt>) -> Result<Place, Halt>
    ensures result { result ≡ spec.place_after borders turn (kept table.old) }
    ensures table { kept table.new ≡ spec.table_after borders turn (kept table.old) }
{
    match turn {
        Err(halt) => Err(halt),
        Ok(turn) => {
            apply(table, borders, &turn);
            fit(&turn, table.shut)
        }
    }
}

/// Takes a line.
fn read(
    table: &mut Table,
    borders: Borders,
    place: &Place,
    line: u32,
    said: Said,
) -> Result<Place, Halt>
    ensures result { result ≡ spec.place_behind borders place.now line said (kept table.old) }
    ensures table { kept table.new ≡ spec.table_behind borders place.now line said (kept table.old) }
{
    match said {
        Said::Event(event) => take(table, borders, turn_of(borders, place, line, &event)),
        Said::NoForm | Said::Lost | Said::Other => Ok(*place),
    }
}

/// What is said where a line halts the judgement.
fn halted(line: u32, halt: Halt) -> Walks
    ensures { result ≡ spec.halted line halt }
{
    match halt {
        Halt::Misfit(misfit) => Walks::Misfit(misfit),
        Halt::Far => Walks::Far(line),
    }
}

/// The walks of the lines before this one, with a table of which nothing is known.
fn walks_within(table: &mut Table, borders: Borders, bytes: &[u8], until: u32) -> Walks
    requires { kept table.old ≡ fresh }
    ensures { result ≡ spec.walks_within borders until bytes.now }
{
    let mut place = nowhere();
    let mut line = 1;
    let mut lines = Pieces::of(bytes, b'\n');
    while line < until {
        let Some(text) = lines.next() else {
            break;
        };
        match read(table, borders, &place, line, said_of(text)) {
            Ok(next) => place = next,
            Err(halt) => return halted(line, halt),
        }
        line += 1;
    }
    Walks::Lawful
}

/// What is said of the walks of a trace's lines before this one, which is counted from 1.
///
/// Each of these lines can stand where `judge` of hp_trace came so far: else a line that can't is read as well as may be.
///
/// Takes memory for a table of states; where there is none: `AllocError`.
pub fn walks_before(alloc: Global, bytes: &[u8], until: u32) -> Result<Walks, AllocError>
    ensures { IfOk result (λ w. w ≡ spec.walks_before until bytes.now) }
{
    let Some(borders) = borders_before(bytes, until) else {
        return Ok(Walks::NoBorders);
    };
    let mut table = fresh_table(alloc)?;
    Ok(walks_within(&mut table, borders, bytes, until))
}
