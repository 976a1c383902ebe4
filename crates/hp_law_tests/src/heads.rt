//! Heads that a machine can be started with, each at its limits, and heads one step beyond them.

use hp_event::{Head, Name, Numbers, Sub, Subs};
use hp_law::is_head;
use hp_states::{
    Dir, HookPlan, MAX_CODE, MAX_CPUS, MAX_EVENTS, MAX_INSTANCE, MAX_RULE_CPU, MAX_SUBS, Rule,
};
use std::alloc::Global;
use std::test::Fail;

/// A head, and whether a machine can be started with it.
#[derive(Clone, Copy)]
pub(crate) struct Row {
    pub name: &'static str,
    pub possible: u32,
    pub absent: &'static [u32],
    /// How many subsystems there are, each with both callbacks.
    pub subs: u32,
    /// The name of each.
    pub sub: &'static str,
    /// The last of the eight rules of each.
    pub rule: Rule,
    pub wanted: bool,
}

/// The subsystems of a row.
fn subs_of(alloc: Global, row: &Row) -> Result<Subs, Fail> {
    let mut plan = HookPlan::none();
    for _ in 0..7 {
        plan.add(WIDEST);
    }
    plan.add(row.rule);
    let mut subs = Vec::new(alloc);
    for _ in 0..row.subs {
        let name = Name::from_vec(Vec::from_slice(alloc, row.sub.as_bytes())?);
        subs.push(Sub {
            name,
            up: true,
            down: true,
            multi: false,
            plan,
        })?;
    }
    Ok(Subs::from_vec(subs))
}

/// The head of a row.
pub(crate) fn head_of(alloc: Global, row: &Row) -> Result<Head, Fail> {
    let absent = Numbers::from_vec(Vec::from_slice(alloc, row.absent)?);
    Ok(Head {
        possible: row.possible,
        absent,
        subs: subs_of(alloc, row)?,
    })
}

/// The rule of the greatest numbers.
const WIDEST: Rule = Rule {
    dir: Dir::Up,
    cpu: Some(MAX_RULE_CPU),
    inst: Some(MAX_INSTANCE),
    nth: Some(MAX_EVENTS),
    code: MAX_CODE,
};

/// The rule of the least numbers.
const LEAST: Rule = Rule {
    dir: Dir::Down,
    cpu: Some(0),
    inst: Some(0),
    nth: Some(1),
    code: 1,
};

/// The rule that answers to every call.
const ANY: Rule = Rule {
    dir: Dir::Down,
    cpu: None,
    inst: None,
    nth: None,
    code: 1,
};

/// One processor, and no subsystem.
pub(crate) const ONE: Row = Row {
    name: "one processor",
    possible: 1,
    absent: &[],
    subs: 0,
    sub: "net:a",
    rule: WIDEST,
    wanted: true,
};

/// One processor and one subsystem.
const SUB: Row = Row {
    name: "the greatest numbers of a rule",
    subs: 1,
    ..ONE
};

/// The same, with what no subsystem has.
const BAD: Row = Row {
    wanted: false,
    ..SUB
};

const ROWS: [Row; 27] = [
    ONE,
    Row {
        name: "as many processors as there can be, the last absent",
        possible: MAX_CPUS,
        absent: &[1, MAX_CPUS - 1],
        ..ONE
    },
    Row {
        name: "all absent but the first",
        possible: 4,
        absent: &[1, 2, 3],
        ..ONE
    },
    Row {
        name: "no processor",
        possible: 0,
        wanted: false,
        ..ONE
    },
    Row {
        name: "one processor too many",
        possible: MAX_CPUS + 1,
        wanted: false,
        ..ONE
    },
    Row {
        name: "an absent one that is not possible",
        possible: MAX_CPUS,
        absent: &[MAX_CPUS],
        wanted: false,
        ..ONE
    },
    Row {
        name: "the first is absent",
        possible: 2,
        absent: &[0],
        wanted: false,
        ..ONE
    },
    Row {
        name: "absent ones fall",
        possible: 4,
        absent: &[2, 1],
        wanted: false,
        ..ONE
    },
    Row {
        name: "one is absent twice",
        possible: 4,
        absent: &[1, 1],
        wanted: false,
        ..ONE
    },
    SUB,
    Row {
        name: "as many subsystems as there can be",
        subs: MAX_SUBS,
        ..SUB
    },
    Row {
        name: "one subsystem too many",
        subs: MAX_SUBS + 1,
        ..BAD
    },
    Row {
        name: "no name",
        sub: "",
        ..SUB
    },
    Row {
        name: "each kind of byte in a name",
        sub: "aZ09:_/.-",
        ..SUB
    },
    Row {
        name: "the longest name",
        sub: "a23456789012345678901234567890bc",
        ..SUB
    },
    Row {
        name: "a name too long",
        sub: "a23456789012345678901234567890bcd",
        ..BAD
    },
    Row {
        name: "a space in a name",
        sub: "net a",
        ..BAD
    },
    Row {
        name: "another byte in a name",
        sub: "net!",
        ..BAD
    },
    Row {
        name: "the word for no name",
        sub: "-",
        ..BAD
    },
    Row {
        name: "the least numbers of a rule",
        rule: LEAST,
        ..SUB
    },
    Row {
        name: "a rule of every call",
        rule: ANY,
        ..SUB
    },
    Row {
        name: "a rule's processor too high",
        rule: Rule {
            cpu: Some(MAX_RULE_CPU + 1),
            ..WIDEST
        },
        ..BAD
    },
    Row {
        name: "a rule's instance too high",
        rule: Rule {
            inst: Some(MAX_INSTANCE + 1),
            ..WIDEST
        },
        ..BAD
    },
    Row {
        name: "a rule's call too high",
        rule: Rule {
            nth: Some(MAX_EVENTS + 1),
            ..WIDEST
        },
        ..BAD
    },
    Row {
        name: "a rule's call 0",
        rule: Rule {
            nth: Some(0),
            ..LEAST
        },
        ..BAD
    },
    Row {
        name: "a rule's code too high",
        rule: Rule {
            code: MAX_CODE + 1,
            ..WIDEST
        },
        ..BAD
    },
    Row {
        name: "a rule's code 0",
        rule: Rule { code: 0, ..LEAST },
        ..BAD
    },
];

#[test]
fn heads_keep_their_limits(rt: HostRuntime) -> Result<(), Fail> {
    for row in ROWS.iter() {
        let name = row.name;
        let head = head_of(rt.alloc(), row)?;
        assert!(rt; is_head(&head) == row.wanted, "row {name}");
    }
    Ok(())
}
