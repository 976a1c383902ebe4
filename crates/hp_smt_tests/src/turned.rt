//! Single turns of seats for operations and for writes, and what they say.

use crate::machine::machine;
use hp_board::{Ask, Turn};
use hp_event::{Op, Subs};
use hp_hook::ScriptHook;
use hp_smt::{Control, Mode, Smt, SmtTurn};
use std::alloc::Global;
use std::test::Fail;

/// A turn of a seat: for an operation, or for a write.
#[derive(Clone, Copy)]
pub(crate) enum Turned {
    Asks(u32, Op),
    Writes(u32, Control),
}

/// What it said.
#[derive(Clone, Copy, Debug, PartialEq, Eq)]
pub(crate) enum Said {
    Asked(SmtTurn),
    Wrote(Turn),
}

/// What turns said, one after the other, and the mode then.
pub(crate) type Heard = (Vec<Said>, Mode);

/// Takes turns on a new machine with no subsystem and so many clients.
pub(crate) fn heard(alloc: Global, clients: u32, turns: &[Turned]) -> Result<Heard, Fail> {
    let mut smt = machine(alloc, Subs::new(alloc), clients)?;
    let heard = hear(alloc, &mut smt, turns);
    smt.into_board().into_journal();
    heard
}

/// Takes turns, one after the other.
fn hear(alloc: Global, smt: &mut Smt<ScriptHook>, turns: &[Turned]) -> Result<Heard, Fail> {
    let mut said = Vec::new(alloc);
    for turn in turns {
        said.push(one(smt, *turn)?)?;
    }
    Ok((said, smt.mode()))
}

/// Takes one turn.
fn one(smt: &mut Smt<ScriptHook>, turn: Turned) -> Result<Said, Fail> {
    match turn {
        Turned::Asks(seat, op) => Ok(Said::Asked(ask(smt, seat, op)?)),
        Turned::Writes(seat, want) => Ok(Said::Wrote(write(smt, seat, want)?)),
    }
}

/// One turn of a seat for a write.
pub(crate) fn write(smt: &mut Smt<ScriptHook>, seat: u32, want: Control) -> Result<Turn, Fail> {
    if !smt.can_write(seat, want) {
        return Err(Fail::from("the write can't be asked for"));
    }
    Ok(smt.control(seat, want)?)
}

/// One turn of a seat for an operation.
pub(crate) fn ask(smt: &mut Smt<ScriptHook>, seat: u32, op: Op) -> Result<SmtTurn, Fail> {
    let mut ask = Ask {
        op,
        hook: hook_for(smt, seat, &op),
    };
    if !smt.can_ask(seat, &ask) {
        return Err(Fail::from("the turn can't be asked for"));
    }
    Ok(smt.turn(seat, &mut ask)?)
}

/// The hook that an operation brings: a setup has one until it has begun.
fn hook_for(smt: &Smt<ScriptHook>, seat: u32, op: &Op) -> Option<ScriptHook> {
    if op.is_setup() && !smt.board().is_busy(seat) {
        Some(ScriptHook::new())
    } else {
        None
    }
}
