//! What clients do with control of a machine, in rounds, and what comes of it.

ghost use Rattle.std.specs.Prelude.{All};
ghost use Rattle.hp_model.specs.Heads.{IsSub};

use crate::machine::machine;
use crate::turned::{ask, write};
use hp_board::Turn;
use hp_event::{Answer, Op, Subs};
use hp_hook::ScriptHook;
use hp_smt::{Control, Mode, Smt, SmtTurn};
use hp_states::CpuSet;
use std::alloc::Global;
use std::test::Fail;

/// What a client does.
#[derive(Clone, Copy)]
pub(crate) enum Task {
    Op(Op),
    Write(Control),
}

/// What became of a task: the seat, its answer, none where it was denied, and the processors that are online then, a bit
/// for each.
pub(crate) type Outcome = (u32, Option<Answer>, u32);

/// What came of tasks, in the order in which they ended, and how control stands then.
#[derive(Drop)]
pub(crate) struct Found {
    pub outcomes: Vec<Outcome>,
    pub mode: Mode,
    pub recorded: CpuSet,
}

/// Plays the tasks of up to four clients on a new machine with these subsystems.
pub(crate) fn played(alloc: Global, subs: Subs, clients: &[&[Task]]) -> Result<Found, Fail>
    requires { All IsSub subs }
{
    let mut smt = machine(alloc, subs, 4)?;
    let found = play(alloc, &mut smt, clients);
    smt.into_board().into_journal();
    found
}

/// Rounds of the four threads and of the clients, enough for all their tasks.
fn play(alloc: Global, smt: &mut Smt<ScriptHook>, clients: &[&[Task]]) -> Result<Found, Fail> {
    let mut outcomes = Vec::new(alloc);
    let mut next = [0usize; 4];
    for _ in 0..200u32 {
        serve_all(smt);
        round(smt, clients, &mut next, &mut outcomes)?;
    }
    Ok(Found {
        outcomes,
        mode: smt.mode(),
        recorded: smt.recorded(),
    })
}

/// A turn of each thread.
fn serve_all(smt: &mut Smt<ScriptHook>) {
    for seat in 0..4u32 {
        smt.serve(seat);
    }
}

/// A turn of each client.
fn round(
    smt: &mut Smt<ScriptHook>,
    clients: &[&[Task]],
    next: &mut [usize; 4],
    outcomes: &mut Vec<Outcome>,
) -> Result<(), Fail> {
    for place in 0..4u32 {
        let client = place as usize;
        if let Some(tasks) = clients.get(client) {
            step(smt, 4 + place, tasks, &mut next[client], outcomes)?;
        }
    }
    Ok(())
}

/// A turn of a client for the task that comes next, if there is one.
fn step(
    smt: &mut Smt<ScriptHook>,
    seat: u32,
    tasks: &[Task],
    next: &mut usize,
    outcomes: &mut Vec<Outcome>,
) -> Result<(), Fail> {
    let Some(task) = tasks.get(*next) else {
        return Ok(());
    };
    if let Some(answer) = turn(smt, seat, *task)? {
        *next += 1;
        outcomes.push((seat, answer, online(smt)))?;
    }
    Ok(())
}

/// A turn of a seat for a task: what became of it, if it has ended.
fn turn(smt: &mut Smt<ScriptHook>, seat: u32, task: Task) -> Result<Option<Option<Answer>>, Fail> {
    match task {
        Task::Write(want) => Ok(answer_of(SmtTurn::Board(write(smt, seat, want)?))),
        Task::Op(op) => Ok(answer_of(ask(smt, seat, op)?)),
    }
}

/// What became of a task, if it has ended: its answer, none where it was denied.
fn answer_of(turn: SmtTurn) -> Option<Option<Answer>> {
    match turn {
        SmtTurn::Denied => Some(None),
        SmtTurn::Board(Turn::Answered { answer, .. }) => Some(Some(answer)),
        SmtTurn::Board(Turn::Made { .. } | Turn::NotYet(_)) => None,
    }
}

/// The processors of the first four that are online, a bit for each.
fn online(smt: &Smt<ScriptHook>) -> u32 {
    let board = smt.board();
    let possible = board.journal().head().possible;
    let mut found = 0u32;
    for cpu in 0..4u32 {
        if cpu < possible && board.online(cpu) {
            found |= 1u32 << cpu;
        }
    }
    found
}
