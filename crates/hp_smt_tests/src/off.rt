//! What is recorded where a write of Off fails half way.

ghost use Rattle.std.specs.Prelude.{◌<◌, ◌≤◌, IfOk};
ghost use Rattle.hp_model.specs.Heads.{IsSub};

use crate::played::{Outcome, Task, played};
use hp_event::{Answer, Form, Name, Op, Sub, Subs};
use hp_smt::{Control, Mode};
use hp_states::{CpuSet, Dir, HookPlan, Rule};
use std::alloc::Global;
use std::process::Abort;
use std::test::Fail;

/// A subsystem with both callbacks, whose teardown answers 6 on processor 3.
fn stays_on_3(alloc: Global) -> Result<Sub, Fail>
    ensures { IfOk result IsSub }
{
    let mut name = Name::new(alloc);
    name.push(b'a')?;
    let mut plan = HookPlan::none();
    plan.add(Rule {
        dir: Dir::Down,
        cpu: Some(3),
        inst: None,
        nth: None,
        code: 6,
    });
    Ok(Sub {
        name,
        up: true,
        down: true,
        multi: false,
        plan,
    })
}

/// A boot of all, and a subsystem that keeps processor 3 from going down.
const BOOT_AND_SETUP: [Task; 2] = [
    Task::Op(Op::Boot(4)),
    Task::Op(Op::Setup {
        state: 150,
        sub: 1,
        form: Form {
            nocalls: false,
            locked: false,
        },
    }),
];

const OFF: [Task; 1] = [Task::Write(Control::Off)];

/// Processor 1 goes down, and 3 does not.
const OUTCOMES: [Outcome; 3] = [
    (4, Some(Answer::Ok(0)), 0b1111),
    (4, Some(Answer::Ok(0)), 0b1111),
    (5, Some(Answer::Fault(6)), 0b1101),
];

const PROCESSOR_1: CpuSet = CpuSet {
    words: [2, 0, 0, 0],
};

#[test]
fn what_went_down_is_recorded_where_an_off_fails(rt: HostRuntime) -> Result<(), Fail> {
    let mut subs = Subs::new(rt.alloc());
    subs.push(stays_on_3(rt.alloc())?)?;
    let found = played(rt.alloc(), subs, &[&BOOT_AND_SETUP, &OFF])?;
    assert!(rt;
        found.outcomes.as_slice() == OUTCOMES.as_slice(),
        "{:?}",
        found.outcomes
    );
    assert!(rt; found.mode == Mode::On, "{:?}", found.mode);
    assert!(rt; found.recorded == PROCESSOR_1, "{:?}", found.recorded);
    Ok(())
}
