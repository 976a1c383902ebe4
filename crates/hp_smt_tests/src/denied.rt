//! What is denied and what isn't, and what each write of control is answered.

use crate::played::{Outcome, Task, played};
use hp_event::{Answer, Op, Subs};
use hp_smt::{Control, Mode};
use hp_states::CpuSet;
use std::process::Abort;
use std::test::Fail;

/// The set of processor 1, a sibling, and that of processor 2, a primary.
const SIBLING: CpuSet = CpuSet {
    words: [2, 0, 0, 0],
};

const PRIMARY: CpuSet = CpuSet {
    words: [4, 0, 0, 0],
};

/// What one client does, and what comes of each.
const TASKS: [Task; 22] = [
    Task::Op(Op::Up(2)),
    Task::Op(Op::Freeze(0)),
    // hotplug is disabled, and processor 2 is frozen
    Task::Write(Control::Off),
    Task::Op(Op::Enable),
    Task::Write(Control::Off),
    Task::Op(Op::Thaw),
    Task::Write(Control::Off),
    Task::Op(Op::Up(1)),
    // the lowest state at which a processor is online, and the one below it, which can't be written
    Task::Op(Op::Target(3, 101)),
    Task::Op(Op::Target(3, 100)),
    Task::Op(Op::Target(1, 0)),
    Task::Op(Op::Boot(1)),
    Task::Op(Op::UpMany(SIBLING)),
    Task::Op(Op::UpMany(PRIMARY)),
    // neither is a processor of the machine
    Task::Op(Op::Up(7)),
    Task::Op(Op::Up(6)),
    Task::Op(Op::Down(1)),
    Task::Write(Control::Off),
    Task::Write(Control::ForceOff),
    Task::Write(Control::ForceOff),
    Task::Write(Control::On),
    Task::Op(Op::Up(3)),
];

const OUTCOMES: [Outcome; 22] = [
    (4, Some(Answer::Ok(0)), 0b0101),
    (4, Some(Answer::Ok(0)), 0b0001),
    (4, Some(Answer::Refused(16)), 0b0001),
    (4, Some(Answer::Ok(0)), 0b0001),
    (4, Some(Answer::Refused(16)), 0b0001),
    (4, Some(Answer::Ok(0)), 0b0101),
    (4, Some(Answer::Ok(0)), 0b0101),
    (4, None, 0b0101),
    (4, None, 0b0101),
    (4, Some(Answer::Refused(22)), 0b0101),
    (4, Some(Answer::Ok(0)), 0b0101),
    (4, None, 0b0101),
    (4, None, 0b0101),
    (4, Some(Answer::Ok(0)), 0b0101),
    (4, None, 0b0101),
    (4, Some(Answer::Refused(22)), 0b0101),
    (4, Some(Answer::Ok(0)), 0b0101),
    (4, Some(Answer::Ok(0)), 0b0101),
    (4, Some(Answer::Ok(0)), 0b0101),
    (4, Some(Answer::Refused(1)), 0b0101),
    (4, Some(Answer::Refused(1)), 0b0101),
    (4, None, 0b0101),
];

#[test]
fn each_is_denied_or_answered(rt: HostRuntime) -> Result<(), Fail> {
    let found = played(rt.alloc(), Subs::new(rt.alloc()), &[&TASKS])?;
    for (place, outcome) in OUTCOMES.iter().enumerate() {
        let came = found.outcomes.get(place).copied();
        assert!(rt; came == Some(*outcome), "task {place}: {came:?}");
    }
    assert!(rt;
        found.outcomes.len() == OUTCOMES.len(),
        "each task has ended"
    );
    assert!(rt; found.mode == Mode::ForceOff, "{:?}", found.mode);
    Ok(())
}
