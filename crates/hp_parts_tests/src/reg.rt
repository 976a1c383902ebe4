//! What no clause says of hp_reg: that registrations come out as written by hand, at a table of real records.

ghost use Rattle.std.specs.Prelude.{◌≡◌};
ghost use Rattle.hp_model.specs.Events.{is_registration_op};

use hp_event::{Answer, Form, How, Key, Op};
use hp_hook::ScriptHook;
use hp_reg::{Reg, RegStep};
use hp_states::{Dir, MAX_CPUS, ONLINE, Place};
use hp_table::{Record, Table};
use std::alloc::Global;
use std::process::Abort;

const PLAIN: Form = Form {
    nocalls: false,
    locked: false,
};

/// A table with single states at 45, 120 and 143, and a multi state at 30 with the instances 7 and 9.
fn table_of(rt: &impl Abort, alloc: Global) -> Table<ScriptHook> {
    let Ok(mut table) = Table::new(alloc) else {
        panic!(rt; "memory for a table");
    };
    for state in [45, 120, 143, 30] {
        let record = Record::new(1, state == 30, true, true, ScriptHook::new());
        assert!(rt; table.install(state, record).is_ok(), "at {state}");
    }
    for inst in [9, 7] {
        assert!(rt; table.add_instance(30, inst).is_ok(), "{inst}");
    }
    table
}

/// Where processors stand: of five the second is absent and the fourth stands one state below 120.
const SETTLED: [u32; 5] = [200, 200, 120, 119, 150];

const ABSENT: [u32; 1] = [1];

/// An operation and its key, all entries that it asks for, each with its processor and how it is made, and its answer.
struct Row {
    name: &'static str,
    op: Op,
    key: Key,
    entries: &'static [(u32, Dir, Place, How)],
    answer: Answer,
}

const ROWS: [Row; 8] = [
    Row {
        name: "a setup goes up on the processors at its state or above",
        op: Op::Setup {
            state: 120,
            sub: 1,
            form: PLAIN,
        },
        key: Key {
            state: 120,
            inst: 0,
        },
        entries: &[
            (0, Dir::Up, Place::Add, How::RanOk),
            (2, Dir::Up, Place::Add, How::RanOk),
            (4, Dir::Up, Place::Add, How::RanOk),
        ],
        answer: Answer::Ok(0),
    },
    Row {
        name: "a fault undoes those before it in rising number",
        op: Op::Setup {
            state: 120,
            sub: 1,
            form: PLAIN,
        },
        key: Key {
            state: 120,
            inst: 0,
        },
        entries: &[
            (0, Dir::Up, Place::Add, How::RanOk),
            (2, Dir::Up, Place::Add, How::RanOk),
            (4, Dir::Up, Place::Add, How::RanFault(7)),
            (0, Dir::Down, Place::Undo, How::RanOk),
            (2, Dir::Down, Place::Undo, How::RanOk),
        ],
        answer: Answer::Fault(7),
    },
    Row {
        name: "an overruled undo keeps the first code",
        op: Op::Setup {
            state: 141,
            sub: 1,
            form: PLAIN,
        },
        key: Key {
            state: 143,
            inst: 0,
        },
        entries: &[
            (0, Dir::Up, Place::Add, How::Empty),
            (4, Dir::Up, Place::Add, How::RanFault(3)),
            (0, Dir::Down, Place::Undo, How::Overruled(9)),
        ],
        answer: Answer::Fault(3),
    },
    Row {
        name: "an add that a fault undoes",
        op: Op::Add {
            state: 30,
            inst: 9,
            form: PLAIN,
        },
        key: Key { state: 30, inst: 9 },
        entries: &[
            (0, Dir::Up, Place::Add, How::RanOk),
            (2, Dir::Up, Place::Add, How::Overruled(4)),
            (3, Dir::Up, Place::Add, How::Empty),
            (4, Dir::Up, Place::Add, How::RanFault(6)),
            (0, Dir::Down, Place::Undo, How::RanOk),
            (2, Dir::Down, Place::Undo, How::RanOk),
            (3, Dir::Down, Place::Undo, How::Empty),
        ],
        answer: Answer::Fault(6),
    },
    Row {
        name: "an instance is taken out",
        op: Op::Del {
            state: 30,
            inst: 7,
            form: PLAIN,
        },
        key: Key { state: 30, inst: 7 },
        entries: &[
            (0, Dir::Down, Place::Remove, How::RanOk),
            (2, Dir::Down, Place::Remove, How::RanOk),
            (3, Dir::Down, Place::Remove, How::RanOk),
            (4, Dir::Down, Place::Remove, How::RanOk),
        ],
        answer: Answer::Ok(0),
    },
    Row {
        name: "a remove goes on whatever is overruled",
        op: Op::Remove {
            state: 120,
            form: PLAIN,
        },
        key: Key {
            state: 120,
            inst: 0,
        },
        entries: &[
            (0, Dir::Down, Place::Remove, How::RanOk),
            (2, Dir::Down, Place::Remove, How::Overruled(4)),
            (4, Dir::Down, Place::Remove, How::RanOk),
        ],
        answer: Answer::Ok(0),
    },
    Row {
        name: "a dynamic setup in ONLINE answers its state",
        op: Op::Setup {
            state: 141,
            sub: 1,
            form: PLAIN,
        },
        key: Key {
            state: 143,
            inst: 0,
        },
        entries: &[
            (0, Dir::Up, Place::Add, How::RanOk),
            (4, Dir::Up, Place::Add, How::RanOk),
        ],
        answer: Answer::Ok(143),
    },
    Row {
        name: "a dynamic setup in PREPARE answers its state",
        op: Op::Setup {
            state: 41,
            sub: 1,
            form: PLAIN,
        },
        key: Key { state: 45, inst: 0 },
        entries: &[
            (0, Dir::Up, Place::Add, How::Presumed),
            (2, Dir::Up, Place::Add, How::Presumed),
            (3, Dir::Up, Place::Add, How::Presumed),
            (4, Dir::Up, Place::Add, How::Presumed),
        ],
        answer: Answer::Ok(45),
    },
];

/// Whether an operation is a registration.
fn is_registration(op: Op) -> bool
    ensures { result ≡ is_registration_op op }
{
    matches!(
        op,
        Op::Setup { .. } | Op::Remove { .. } | Op::Add { .. } | Op::Del { .. }
    )
}

/// Asks for all entries of a registration and makes them so, then for its end: each is as wanted.
fn registers(rt: &impl Abort, table: &Table<ScriptHook>, row: &Row) {
    let (name, op, key) = (row.name, row.op, row.key);
    assert!(rt; is_registration(op) && key.state <= ONLINE, "{name}");
    let mut reg = Reg::begin(op, key.state);
    for (i, &(cpu, dir, place, how)) in row.entries.iter().enumerate() {
        let call = RegStep::Call {
            cpu,
            key,
            dir,
            place,
        };
        assert!(rt;
            cpu < MAX_CPUS && reg.next(table, &SETTLED, &ABSENT) == call,
            "{name}: entry {i}"
        );
        reg.took(cpu, how);
    }
    assert!(rt;
        reg.next(table, &SETTLED, &ABSENT) == RegStep::Ended(row.answer),
        "{name}: the end"
    );
}

#[test]
fn registrations_come_out_as_written(rt: HostRuntime) {
    let table = table_of(&rt, rt.alloc());
    for row in ROWS.iter() {
        registers(&rt, &table, row);
    }
}
