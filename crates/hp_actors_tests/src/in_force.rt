//! What a board says to be in force, asked for every key after every turn: as many keys are as were counted by hand.
//!
//! Three samples are played turn by turn: two startups, the fault of an instance, and a freeze with a setup between its
//! walks.

use crate::runs::rack;
use hp_actors::Run;
use hp_board::Board;
use hp_event::Key;
use hp_samples::{FREEZE_WITH_SETUP_BETWEEN, INSTANCE_FAULT, Marked, Sample, TWO_STARTUPS};
use hp_script::{Schedule, parse};
use hp_states::NoMemory;
use std::alloc::Global;
use std::process::Abort;
use std::test::Fail;

/// One more than the highest processor that is asked for: the last is no processor of any sample.
const CPUS: u32 = 5;

/// One more than the highest state that is asked for: the last is none.
const STATES: u32 = 202;

/// One more than the highest instance that is asked for, which no sample adds.
const INSTS: u32 = 5;

/// One more than the highest seat of a sample.
const SEATS: u32 = 6;

/// More rounds than any sample takes.
const ROUNDS: u32 = 32;

/// How many keys are in force, on all processors together.
fn asked(board: &Board<Marked>) -> u32 {
    let mut found: u32 = 0;
    for cpu in 0..CPUS {
        for state in 0..STATES {
            for inst in 0..INSTS {
                if board.in_force(cpu, Key { state, inst }) {
                    found = found.saturating_add(1);
                }
            }
        }
    }
    found
}

/// A sample, and how many keys are in force, on all processors together, after each of its events.
struct Row {
    sample: Sample,
    in_force: &'static [u32],
}

const ROWS: [Row; 3] = [
    Row {
        sample: TWO_STARTUPS,
        in_force: &[0, 0, 0, 0, 1, 1, 1, 2, 2, 2, 2, 3, 4, 4, 4],
    },
    Row {
        sample: INSTANCE_FAULT,
        in_force: &[
            0, 0, 0, 0, 0, 0, 1, 1, 1, 2, 2, 2, 3, 3, 3, 3, 4, 5, 5, 4, 3, 3, 3,
        ],
    },
    Row {
        sample: FREEZE_WITH_SETUP_BETWEEN,
        in_force: &[
            0, 0, 0, 0, 0, 0, 0, 1, 1, 1, 1, 2, 2, 2, 3, 3, 3, 4, 4, 4, 4, 4, 3, 3, 3, 4, 5, 6, 6,
            6, 5, 5, 6, 6, 6, 6, 6, 6, 7, 8, 8, 8,
        ],
    },
];

/// A turn of a seat, after which all keys are asked for.
fn turn(rt: &impl Abort, run: &mut Run<Marked>, seat: u32, row: &Row) {
    let name = row.sample.name;
    assert!(rt; run.turn(seat).is_ok(), "{name}: memory for a turn");
    let made = run.board().journal().len();
    let wanted = match made.checked_sub(1) {
        Some(last) => row.in_force.get(last as usize).copied(),
        None => None,
    };
    let found = asked(run.board());
    assert!(rt; wanted == Some(found), "{name}: {found} after event {made}");
}

/// The turns of a row's schedule, and then rounds until all its events are made: a turn of each seat. A number that is no
/// seat makes nothing.
fn turns(rt: &impl Abort, run: &mut Run<Marked>, seats: &[u32], row: &Row) {
    for seat in seats {
        turn(rt, run, *seat, row);
    }
    for _ in 0..ROUNDS {
        if run.board().journal().len() as usize >= row.in_force.len() {
            break;
        }
        for seat in 0..SEATS {
            turn(rt, run, seat, row);
        }
    }
}

/// A run from its start to its end, by its script's schedule.
fn played(rt: &impl Abort, run: Run<Marked>, schedule: &Schedule, row: &Row) {
    let mut run = run;
    match schedule {
        Schedule::Turns(seats) => turns(rt, &mut run, seats.as_slice(), row),
        _ => turns(rt, &mut run, &[], row),
    }
    let name = row.sample.name;
    let made = run.board().journal().len();
    assert!(rt;
        made as usize == row.in_force.len(),
        "{name}: {made} events"
    );
}

/// Plays a row's sample.
fn play(rt: &impl Abort, alloc: Global, row: &Row) -> Result<(), Fail> {
    let name = row.sample.name;
    let mut rack = rack(alloc)?;
    let hooks = rack.hooks.len().min(u32::MAX as usize) as u32;
    match parse(alloc, row.sample.script.as_bytes(), hooks) {
        Ok(script) => match Run::start(alloc, &script, &mut rack) {
            Ok(run) => played(rt, run, script.schedule(), row),
            Err(NoMemory) => panic!(rt; "{name}: memory for a run"),
        },
        Err(_) => panic!(rt; "{name}: its script is refused"),
    }
    Ok(())
}

#[test]
fn every_key_is_asked_for_after_every_turn(rt: HostRuntime) -> Result<(), Fail> {
    for row in ROWS.iter() {
        play(&rt, rt.alloc(), row)?;
    }
    Ok(())
}
