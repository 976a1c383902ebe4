//! Journals that are full: what was promised always fits, and nothing else.

use super::heads::{ONE, Row};
use super::laws::{started, takes};
use hp_event::{Answer, Event, Op, Role};
use hp_law::Law;
use hp_states::{MAX_EVENTS, ONLINE};
use std::process::Abort;
use std::test::Fail;

/// Two processors.
const TWO: Row = Row {
    name: "two processors",
    possible: 2,
    ..ONE
};

/// Lets the threads of so many processors in, and a client, whose number is theirs, which takes so many
/// wakeups, or as many as there is room for; and says how many.
fn wake(rt: &impl Abort, law: &mut Law, cpus: u32, wakeups: u32) -> u32 {
    for cpu in 0..cpus {
        let role = Role::Ap(cpu);
        assert!(rt; takes(rt, law, &Event::Admit { seat: cpu, role }));
    }
    let role = Role::Client;
    assert!(rt; takes(rt, law, &Event::Admit { seat: cpus, role }));
    let mut taken = 0u32;
    for _ in 0..wakeups {
        if !takes(rt, law, &Event::Wakeup { seat: cpus }) {
            break;
        }
        taken = taken.saturating_add(1);
    }
    taken
}

/// What a full journal of one processor's thread and a client has no room for.
const BEGINNINGS: [Event; 5] = [
    Event::Wakeup { seat: 1 },
    Event::ReadLock { seat: 1 },
    Event::Enter {
        seat: 1,
        op: Op::Disable,
    },
    Event::Refused {
        seat: 1,
        errno: 1,
        op: Op::Unlock,
    },
    Event::Admit {
        seat: 2,
        role: Role::Client,
    },
];

/// Asserts that each seat of a full journal keeps the room of its leave, and nothing else has any.
fn assert_full(rt: &impl Abort, law: &mut Law) {
    assert!(rt; wake(rt, law, 1, MAX_EVENTS) == MAX_EVENTS - 4);
    assert!(rt; !BEGINNINGS.iter().any(|event| law.can_stand(event)));
    for seat in 0..2u32 {
        assert!(rt; law.can_stand(&Event::Leave { seat }), "seat {seat}");
    }
}

#[test]
fn a_full_journal_has_room_for_leaves(rt: HostRuntime) -> Result<(), Fail> {
    let mut law = started(&rt, rt.alloc(), &ONE)?;
    assert_full(&rt, &mut law);
    assert!(rt; law.into_journal().len() == MAX_EVENTS - 2);
    Ok(())
}

/// Whether a walk can begin behind so many wakeups, and whether its operation can end for want of room.
fn begins_or_ends(rt: &impl Abort, law: &mut Law, wakeups: u32) -> (bool, bool) {
    assert!(rt; wake(rt, law, 2, wakeups) == wakeups);
    let op = Op::Up(1);
    assert!(rt; takes(rt, law, &Event::Enter { seat: 2, op }));
    let begin = Event::WalkBegin {
        seat: 2,
        cpu: 1,
        from: 0,
        to: ONLINE,
    };
    let full = Event::OpEnd {
        seat: 2,
        answer: Answer::LogFull,
    };
    (law.can_stand(&begin), law.can_stand(&full))
}

/// A walk without keys takes room for four events, and an operation that has no room for its walk ends.
#[test]
fn a_walk_without_room_ends_its_operation(rt: HostRuntime) -> Result<(), Fail> {
    for &(wakeups, has_room) in [(MAX_EVENTS - 12, true), (MAX_EVENTS - 11, false)].iter() {
        let mut law = started(&rt, rt.alloc(), &TWO)?;
        let found = begins_or_ends(&rt, &mut law, wakeups);
        assert!(rt; found == (has_room, !has_room), "{wakeups} wakeups");
        assert!(rt; law.into_journal().len() == wakeups.saturating_add(4));
    }
    Ok(())
}
