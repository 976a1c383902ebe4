//! The room that a walk takes.

ghost use Rattle.std.specs.Prelude.{◌≡◌, ◌+◌, ◌*◌, ◌≤◌};
ghost use Rattle.hp_states.specs.declared.limits.TheConstants.{MAX_TABLE_INSTANCES, ONLINE as ONLINE_OF};
ghost use Rattle.hp_model.specs.Plan.{keys_on};
ghost use Rattle.hp_table.specs.Keys.{keys_by};

use hp_hook::Hook;
use hp_states::Dir;
use hp_table::Table;

/// The room that a walk from one state to another takes of its own: three events for each key that it crosses
/// and four besides.
pub fn need_of_walk<H: Hook>(table: &Table<H>, from: u32, to: u32) -> u32
    ensures needs { result ≡ 3 * keys_on (keys_by table.now) from to + 4 }
    ensures few { result ≤ 3 * (MAX_TABLE_INSTANCES + ONLINE_OF + 1) + 4 }
{
    3 * keys_crossed(table, from, to) + 4
}

/// How many keys a walk from one state to another crosses.
fn keys_crossed<H: Hook>(table: &Table<H>, from: u32, to: u32) -> u32
    ensures keys { result ≡ keys_on (keys_by table.now) from to }
    ensures few { result ≤ MAX_TABLE_INSTANCES + ONLINE_OF + 1 }
{
    match Dir::between(from, to) {
        Dir::Up => table.keys_between(from, to),
        Dir::Down => table.keys_between(to, from),
    }
}
