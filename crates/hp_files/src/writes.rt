//! What may be written to the `target` and `fail` files.

ghost use Rattle.std.specs.Prelude.{◌≡◌};
ghost use Rattle.hp_files.specs.Writes.{has_callback_at, target_by, fail_by};
ghost use Rattle.hp_files.specs.WritesByJournal.{IsTargetByEvents, IsTargetByRefusal, IsFailByEvents, IsFailByRefusal};

use hp_hook::Hook;
use hp_states::{BRINGUP_CPU, EINVAL, ONLINE, can_stop, is_atomic};
use hp_table::Table;

/// The state that a write to `target` says, by its value alone.
///
/// - `EINVAL` where the value is no state, where the state has no name, and where a walk can't be
///   aimed at it, as at none from 62 to 102.
///
/// There is no other refusal; the table is only read. Takes no memory. After `target_store` of
/// `kernel/cpu.c`; that a walk can't be aimed at those states is this project's own.
pub fn check_target<H: Hook>(table: &Table<H>, value: i32) -> Result<u32, u32>
    ensures by_table { result ≡ target_by table.now value }
    ensures by_events { IsTargetByEvents table.now value result }
    ensures by_refusal { IsTargetByRefusal table.now value result }
{
    if value < 0 || value > ONLINE as i32 {
        return Err(EINVAL);
    }
    let state = value as u32;
    if table.is_named(state) && can_stop(state) {
        Ok(state)
    } else {
        Err(EINVAL)
    }
}

/// The value that a write to the `fail` file of a processor says, which shows this state: -1, or
/// the state at which its next walk is to fail.
///
/// - `EINVAL`, but for -1, where the value is no state, where the state is atomic, where it is a
///   PREPARE state and the processor stands above those, and where no callback is registered there.
///
/// There is no other refusal; the table is only read. Takes no memory. After `fail_store` of
/// `kernel/cpu.c`; each condition is this project's own.
pub fn check_fail<H: Hook>(table: &Table<H>, value: i32, shown: u32) -> Result<i32, u32>
    ensures by_table { result ≡ fail_by table.now value shown }
    ensures by_events { IsFailByEvents table.now value shown result }
    ensures by_refusal { IsFailByRefusal table.now value shown result }
{
    if value == -1 {
        return Ok(value);
    }
    if value < 0 {
        return Err(EINVAL);
    }
    let state = value as u32;
    let is_past = state <= BRINGUP_CPU && BRINGUP_CPU < shown;
    if state > ONLINE || is_atomic(state) || is_past || !has_a_callback(table, state) {
        Err(EINVAL)
    } else {
        Ok(value)
    }
}

/// Whether a state is registered with a callback of some direction.
fn has_a_callback<H: Hook>(table: &Table<H>, state: u32) -> bool
    ensures { result ≡ has_callback_at table.now state }
{
    match table.step(state) {
        Some(record) => record.up || record.down,
        None => false,
    }
}
