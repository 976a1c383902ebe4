//! The ranges of the numbers that a line says.

ghost use Rattle.std.specs.Prelude.{◌≡◌, not};
ghost use Rattle.hp_states.specs.declared.limits.TheConstants.{MAX_INSTANCE, MAX_SUBS};
ghost use Rattle.hp_model.specs.Lists.{is_empty};
ghost use Rattle.hp_model.specs.Listed.{listed};
ghost use Rattle.hp_script.specs.declared.limits.TheConstants.{MAX_NAMED_CPU, MAX_NAMED_STATE};
ghost use Rattle.hp_script.specs.Ranges.{is_within as is_within_at, is_signed_within as is_signed_within_at, is_op as is_op_at, are_seats as are_seats_at, is_schedule as is_schedule_at, is_in_range as is_in_range_at};

use crate::limits::{MAX_I32, MAX_MIXED, MAX_NAMED_CPU, MAX_NAMED_STATE, MAX_SEED, MIN_I32};
use crate::schedule::Schedule;
use crate::statement::Statement;
use hp_event::Op;
use hp_states::{CpuSet, MAX_CPUS, MAX_INSTANCE, MAX_SEATS, MAX_SUBS};
use hp_text::rise_from;

fn is_within(low: u32, high: u32, n: u32) -> bool
    ensures { result ≡ is_within_at low high n }
{
    low <= n && n <= high
}

/// Whether a signed number is from `-least` to `most`.
fn is_signed_within(least: u32, most: u32, value: i32) -> bool
    ensures { result ≡ is_signed_within_at least most value }
{
    if value < 0 {
        value.unsigned_abs() <= least
    } else {
        value as u32 <= most
    }
}

fn is_cpu(cpu: u32) -> bool
    ensures { result ≡ is_within_at 0 MAX_NAMED_CPU cpu }
{
    is_within(0, MAX_NAMED_CPU, cpu)
}

fn is_state(state: u32) -> bool
    ensures { result ≡ is_within_at 0 MAX_NAMED_STATE state }
{
    is_within(0, MAX_NAMED_STATE, state)
}

fn lists_one(set: &CpuSet) -> bool
    ensures { result ≡ not (is_empty (listed set.now)) }
{
    !set.is_empty()
}

/// Whether each number of an operation is in its range.
fn is_op(op: &Op) -> bool
    ensures { result ≡ is_op_at op.now }
{
    match *op {
        Op::Up(cpu)
        | Op::Down(cpu)
        | Op::ShowState(cpu)
        | Op::ShowTarget(cpu)
        | Op::ShowFail(cpu)
        | Op::Boot(cpu) => is_cpu(cpu),
        Op::Target(cpu, value) => is_cpu(cpu) && is_signed_within(MIN_I32, MAX_I32, value),
        Op::Arm(cpu, value) => is_cpu(cpu) && is_signed_within(MIN_I32, MAX_I32, value),
        Op::Setup { state, sub, .. } => is_state(state) && is_within(1, MAX_SUBS, sub),
        Op::Remove { state, .. } => is_state(state),
        Op::Add { state, inst, .. } | Op::Del { state, inst, .. } => {
            is_state(state) && is_within(0, MAX_INSTANCE, inst)
        }
        Op::Freeze(primary) => is_signed_within(1, MAX_NAMED_CPU, primary),
        Op::UpMany(set) => lists_one(&set),
        Op::ShowStates | Op::Lock | Op::Unlock | Op::Disable | Op::Enable | Op::Thaw | Op::Wakeup =>
            { true }
    }
}

fn are_seats(seats: &[u32]) -> bool
    ensures { result ≡ are_seats_at seats.now }
{
    seats.iter().all(|seat| is_within(0, MAX_SEATS - 1, *seat))
}

/// Whether each number of a schedule is in its range.
fn is_schedule(schedule: &Schedule) -> bool
    ensures { result ≡ is_schedule_at schedule.now }
{
    match schedule {
        Schedule::Rounds => true,
        Schedule::Turns(seats) => are_seats(seats.as_slice()),
        Schedule::Mix { seed, turns } => *seed <= MAX_SEED && is_within(0, MAX_MIXED, *turns),
    }
}

/// Whether each number of a line is in its range, where so many processors are possible.
pub fn is_in_range(possible: u32, statement: &Statement) -> bool
    ensures { result ≡ is_in_range_at possible statement.now }
{
    match statement {
        Statement::Cpus(n) => is_within(1, MAX_CPUS, *n),
        Statement::Absent(absent) => rise_from(1, possible, absent.as_slice()),
        Statement::Schedule(schedule) => is_schedule(schedule),
        Statement::Operation(op) => is_op(op),
        Statement::Sub(_) | Statement::Rule(_) | Statement::Actor => true,
    }
}
