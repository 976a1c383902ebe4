//! What no clause says of hp_walk: that walks come out as written by hand, entry by entry, with what the files
//! show at each.

ghost use Rattle.std.specs.Prelude.{◌≡◌};
ghost use Rattle.hp_model.specs.How.{fits};
ghost use Rattle.hp_walk.specs.Keys.{keys_by};
ghost use Rattle.hp_walk.specs.After.{IsWithin};

mod instances;
mod singles;

use hp_event::{Answer, How};
use hp_hook::{Hook, ScriptHook};
use hp_states::{Dir, ONLINE, Place, may_fail};
use hp_table::{Record, Table};
use hp_walk::{Step, Walk};
use instances::INSTANCES;
use singles::SINGLES;
use std::alloc::Global;
use std::process::Abort;

/// An entry that a walk is to ask for: what the `state` and the `target` file are to show before it, its state and
/// instance, its direction, what it is made for, whether it begins to cross its state, and how it is made.
type Row = ((u32, u32), (u32, u32), Dir, Place, bool, How);

/// The entry begins to cross its state.
const FIRST: bool = true;

/// The entry is of another instance of a state, or undoes part of it or does it again.
const MORE: bool = false;

/// The state that has instances, where there are any.
const MULTI: u32 = 130;

/// A walk over a table of states, with the instances in the order in which they are added: its entries, what the two
/// files show at its end, and its answer.
struct Wanted {
    name: &'static str,
    states: &'static [u32],
    insts: &'static [u32],
    from: u32,
    to: u32,
    rows: &'static [Row],
    end: (u32, u32, Answer),
}

/// The table of a walk.
fn table_of(rt: &impl Abort, alloc: Global, wanted: &Wanted) -> Table<ScriptHook> {
    let Ok(mut table) = Table::new(alloc) else {
        panic!(rt; "{}: memory", wanted.name);
    };
    for state in wanted.states {
        let multi = *state == MULTI && !wanted.insts.is_empty();
        let record = Record::new(1, multi, true, true, ScriptHook::new());
        assert!(rt; table.install(*state, record).is_ok());
    }
    for inst in wanted.insts {
        assert!(rt; table.add_instance(MULTI, *inst).is_ok());
    }
    table
}

/// Whether an entry may be made so: it is done, or it may fail.
fn can_be(how: How, dir: Dir, state: u32, place: Place) -> bool
    ensures { result ≡ fits how dir state place }
{
    how.is_done() || may_fail(dir, state, place)
}

/// Makes one entry of a walk, which is to be this one.
fn enters<H: Hook>(
    rt: &impl Abort,
    table: &Table<H>,
    walk: &mut Walk,
    row: &Row,
    name: &str,
    i: usize,
)
    requires { IsWithin (keys_by table.now) walk.old }
    ensures { IsWithin (keys_by table.now) walk.new }
{
    let &(files, of, dir, place, first, how) = row;
    assert!(rt;
        (walk.shown(), walk.target()) == files,
        "{name}: the files before entry {i}"
    );
    let Step::Call {
        key,
        dir: up_or_down,
        place: made_for,
        first: begins,
    } = walk.next(table)
    else {
        panic!(rt; "{name}: no entry {i}");
    };
    assert!(rt;
        (key.state, key.inst) == of
            && (up_or_down, made_for, begins) == (dir, place, first)
            && can_be(how, up_or_down, key.state, made_for),
        "{name}: entry {i}"
    );
    walk.took(table, how);
}

/// A walk, whose entries and whose end are to be these.
fn walks<H: Hook>(rt: &impl Abort, table: &Table<H>, wanted: &Wanted) {
    let (name, from, to) = (wanted.name, wanted.from, wanted.to);
    assert!(rt; from <= ONLINE && to <= ONLINE && from != to, "{name}");
    let mut walk = Walk::begin(table, 1, from, to);
    for (i, row) in wanted.rows.iter().enumerate() {
        enters(rt, table, &mut walk, row, name, i);
    }
    let Step::Ended(answer) = walk.next(table) else {
        panic!(rt; "{name}: one more entry");
    };
    assert!(rt;
        (walk.shown(), walk.target(), answer) == wanted.end,
        "{name}: the end"
    );
}

#[test]
fn walks_come_out_as_written(rt: HostRuntime) {
    for wanted in SINGLES.iter() {
        walks(&rt, &table_of(&rt, rt.alloc(), wanted), wanted);
    }
    for wanted in INSTANCES.iter() {
        walks(&rt, &table_of(&rt, rt.alloc(), wanted), wanted);
    }
}
