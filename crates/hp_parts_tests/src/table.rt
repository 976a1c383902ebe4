//! What no clause says of hp_table: that memory suffices where it is ample, as for all the instances of a table, that the
//! rules come out as written by hand, at hooks of two types, and the numbers of the errors.

ghost use Rattle.std.specs.Prelude.{◌≡◌, true};

use hp_hook::{Hook, ScriptHook};
use hp_states::{Dir, HookPlan, MAX_EVENTS, MAX_INSTANCES, MAX_TABLE_INSTANCES, Range, Rule};
use hp_table::{Record, Table, TableError};
use std::alloc::{AllocError, Global};
use std::process::Abort;

fn table<H: Hook>(rt: &impl Abort, alloc: Global) -> Table<H> {
    match Table::new(alloc) {
        Ok(table) => table,
        Err(_) => panic!(rt; "memory for a table"),
    }
}

/// A record with a startup alone.
fn record_of<H: Hook>(sub: u32, multi: bool, hook: H) -> Record<H>
    ensures { result.home ≡ true }
{
    Record::new(sub, multi, true, false, hook)
}

/// The second startup for processor 1 fails with 5, and each other with 7.
fn two_rules() -> HookPlan {
    let mut plan = HookPlan::none();
    let up = Rule {
        dir: Dir::Up,
        cpu: Some(1),
        inst: None,
        nth: Some(2),
        code: 5,
    };
    plan.add(up);
    plan.add(Rule {
        nth: None,
        code: 7,
        ..up
    });
    plan
}

/// Calls of a hook that has that plan, each with its answer.
const CALLS: [(u32, Dir, u32); 5] = [
    (1, Dir::Up, 7),
    (0, Dir::Up, 0),
    (1, Dir::Down, 0),
    (1, Dir::Up, 5),
    (1, Dir::Up, 7),
];

/// Calls the hook of a state that is registered.
fn call<H: Hook>(rt: &impl Abort, table: &mut Table<H>, state: u32, cpu: u32, dir: Dir) -> u32 {
    let may = match table.step(state) {
        Some(rec) => rec.is_home() && rec.home_hook().made() < u64::from(MAX_EVENTS),
        None => false,
    };
    assert!(rt; may);
    table.call(state, cpu, 0, dir)
}

/// A hook at a state that is handed out: it is called, lent, brought back and taken out.
fn keeps_in<H: Hook>(rt: &impl Abort, table: &mut Table<H>, hook: H) {
    assert!(rt; table.slot(Range::Prepare) == Ok(41));
    assert!(rt; table.install(41, record_of(3, false, hook)).is_ok());
    assert!(rt; table.step(41).is_some() && table.is_home(41));
    table.load(41, two_rules());
    for (place, &(cpu, dir, wanted)) in CALLS.iter().enumerate() {
        assert!(rt; call(rt, table, 41, cpu, dir) == wanted, "call {place}");
    }
    let Some(hook) = table.lend(41) else {
        panic!(rt; "the hook is home")
    };
    assert!(rt; (hook.made(), hook.faults()) == (5, 3));
    assert!(rt; table.step(41).is_some() && !table.is_home(41));
    table.restore(41, hook);
    assert!(rt; table.is_home(41));
    let Ok(record) = table.uninstall(41) else {
        panic!(rt; "the state is registered")
    };
    assert!(rt; (record.sub, record.multi, record.up, record.down) == (3, false, true, false));
}

/// The same in a table of its own, at a hook of any type.
fn keeps_a_hook<H: Hook>(rt: &impl Abort, alloc: Global, hook: H) {
    keeps_in(rt, &mut table(rt, alloc), hook);
}

#[test]
fn hooks_of_two_types_are_kept(rt: HostRuntime) -> Result<(), AllocError> {
    let alloc = rt.alloc();
    keeps_a_hook(&rt, alloc, ScriptHook::new());
    let hook: Box<dyn Hook + Send> = Box::new(alloc, ScriptHook::new())?;
    keeps_a_hook(&rt, alloc, hook);
    Ok(())
}

/// States at which a record is refused, where 10 is registered.
const REFUSED: [(u32, TableError); 7] = [
    (0, TableError::Invalid),
    (200, TableError::Invalid),
    (201, TableError::Invalid),
    (u32::MAX, TableError::Invalid),
    (10, TableError::Busy),
    (62, TableError::Busy),
    (199, TableError::Busy),
];

fn refuses_records(rt: &impl Abort, table: &mut Table<ScriptHook>) {
    assert!(rt;
        table
            .install(10, record_of(1, false, ScriptHook::new()))
            .is_ok()
    );
    for &(state, wanted) in REFUSED.iter() {
        let Err((error, _)) = table.install(state, record_of(2, true, ScriptHook::new())) else {
            panic!(rt; "at {state}")
        };
        assert!(rt; error == wanted, "at {state}");
    }
}

/// The instances of a state, of which the last that is added stands first.
fn keeps_instances(rt: &impl Abort, table: &mut Table<ScriptHook>) {
    assert!(rt;
        table
            .install(150, record_of(4, true, ScriptHook::new()))
            .is_ok()
    );
    for inst in [3, 1, 2] {
        assert!(rt; table.add_instance(150, inst).is_ok());
    }
    assert!(rt; table.instances(150) == [2, 1, 3].as_slice());
    assert!(rt; table.remove_instance(150, 1).is_ok());
    assert!(rt; table.instances(150) == [2, 3].as_slice());
}

#[test]
fn records_are_refused_and_instances_kept(rt: HostRuntime) {
    let mut table = table(&rt, rt.alloc());
    refuses_records(&rt, &mut table);
    keeps_instances(&rt, &mut table);
}

/// As many instances as a state may have.
fn fills_state(rt: &impl Abort, table: &mut Table<ScriptHook>, state: u32) {
    assert!(rt;
        table
            .install(state, record_of(1, true, ScriptHook::new()))
            .is_ok()
    );
    for inst in 1..MAX_INSTANCES + 1 {
        assert!(rt; table.add_instance(state, inst).is_ok(), "at {state}");
    }
    let more = table.add_instance(state, MAX_INSTANCES + 1);
    assert!(rt; more == Err(TableError::TooMany), "at {state}");
}

/// Instances up to the limit of a table: one more is taken only where another leaves.
fn counts_instances(rt: &impl Abort, table: &mut Table<ScriptHook>) {
    assert!(rt;
        table
            .install(120, record_of(1, true, ScriptHook::new()))
            .is_ok()
    );
    for state in 103..119 {
        fills_state(rt, table, state);
    }
    assert!(rt; table.keys_between(0, 200) == MAX_TABLE_INSTANCES);
    assert!(rt; table.add_instance(120, 1) == Err(TableError::TooMany));
    assert!(rt; table.remove_instance(110, 7).is_ok());
    assert!(rt; table.add_instance(120, 1).is_ok());
}

#[test]
fn so_many_instances_and_no_more(rt: HostRuntime) {
    counts_instances(&rt, &mut table(&rt, rt.alloc()));
}

const NUMBERS: [(TableError, u32); 5] = [
    (TableError::Invalid, 1),
    (TableError::Busy, 2),
    (TableError::NoSpace, 3),
    (TableError::TooMany, 4),
    (TableError::NoMemory, 5),
];

#[test]
fn errors_have_numbers(rt: HostRuntime) {
    for &(error, number) in NUMBERS.iter() {
        assert!(rt; error as u32 == number, "{error:?}");
    }
}
