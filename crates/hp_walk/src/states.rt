//! The next state with a key.

ghost use Rattle.std.specs.Prelude.{◌≤◌, IfSome, IfNone};
ghost use Rattle.hp_walk.specs.Keys.{keys_by, IsNextState, IsNoState};

use hp_hook::Hook;
use hp_states::{Dir, ONLINE};
use hp_table::Table;

/// The next state with a key on the way from one state to another, which isn't crossed again where
/// it is the first of them.
pub fn next_state<H: Hook>(table: &Table<H>, dir: Dir, from: u32, to: u32) -> Option<u32>
    requires { (from ≤ ONLINE) × (to ≤ ONLINE) }
    ensures some { IfSome result (IsNextState (keys_by table.now) dir from to) }
    ensures none { IfNone result (IsNoState (keys_by table.now) dir from to) }
{
    match dir {
        Dir::Up => lowest_above(table, from, to),
        Dir::Down => highest_above(table, to, from),
    }
}

/// The lowest state with a key above one and up to another.
fn lowest_above<H: Hook>(table: &Table<H>, low: u32, high: u32) -> Option<u32>
    requires { (low ≤ ONLINE) × (high ≤ ONLINE) }
    ensures some { IfSome result (IsNextState (keys_by table.now) Dir.Up low high) }
    ensures none { IfNone result (IsNoState (keys_by table.now) Dir.Up low high) }
{
    let mut from = low + 1;
    while let Some(state) = table.next_registered(from, high) {
        if table.key_count_at(state) > 0 {
            return Some(state);
        }
        from = state + 1;
    }
    None
}

/// The highest state with a key above one and up to another.
fn highest_above<H: Hook>(table: &Table<H>, low: u32, high: u32) -> Option<u32>
    requires { (low ≤ ONLINE) × (high ≤ ONLINE) }
    ensures some { IfSome result (IsNextState (keys_by table.now) Dir.Down high low) }
    ensures none { IfNone result (IsNoState (keys_by table.now) Dir.Down high low) }
{
    let mut state = high;
    while state > low {
        if table.key_count_at(state) > 0 {
            return Some(state);
        }
        state -= 1;
    }
    None
}
