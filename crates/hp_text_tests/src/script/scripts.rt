//! A script with a line of each kind, with what it says; and schedules.

use hp_event::Op;
use hp_script::{Schedule, Script, parse};
use hp_states::{Dir, Rule};
use std::process::Abort;
use std::test::*;

/// The operations of an actor of a script, counted from 0; none where it has no such actor.
fn ops(script: &Script, actor: u32) -> &[Op] {
    if actor < script.actors() {
        script.ops(actor)
    } else {
        &[]
    }
}

/// A script with a line of each kind.
const WHOLE: &[u8] = b"\
# all

cpus 8
absent 2 7
sub - up multi
rule down 255 * 9 4095
rule up * 65535 * 1
sub -b down single
schedule mix 18446744073709551615 1000000
actor a
lock
lock
unlock
actor b
actor c
up 1
";

/// The rules of its first subsystem.
const RULES: [Rule; 2] = [
    Rule {
        dir: Dir::Down,
        cpu: Some(255),
        inst: None,
        nth: Some(9),
        code: 4095,
    },
    Rule {
        dir: Dir::Up,
        cpu: None,
        inst: Some(65535),
        nth: None,
        code: 1,
    },
];

/// The operations of its actors.
const ACTORS: [&'static [Op]; 3] = [&[Op::Lock, Op::Lock, Op::Unlock], &[], &[Op::Up(1)]];

/// Compares what the script says.
fn check_whole(rt: &impl Abort, script: &Script) {
    assert!(rt; script.head().possible == 8);
    assert!(rt; script.head().absent.as_slice() == [2, 7].as_slice());
    match script.head().subs.as_slice() {
        [a, b] => {
            assert!(rt; a.name.as_slice().is_empty() && a.up && !a.down && a.multi);
            assert!(rt; a.plan.rules() == RULES.as_slice());
            assert!(rt; b.name.as_slice() == b"-b".as_slice() && !b.up && b.down && !b.multi);
            assert!(rt; b.plan.rules().is_empty());
        }
        _ => assert!(rt; false),
    }
    assert!(rt; script.actors() == 3);
    for (actor, wanted) in ACTORS.iter().enumerate() {
        assert!(rt; ops(script, actor as u32) == *wanted, "actor {actor}");
    }
}

#[test]
fn whole(rt: HostRuntime) -> Result<(), Fail> {
    let script = parse(rt.alloc(), WHOLE, 0)?;
    check_whole(&rt, &script);
    Ok(())
}

/// A schedule as numbers: the seats of its turns, or the seed and how many are drawn.
fn numbers(script: &Script) -> Option<(&[u32], Option<(u64, u32)>)> {
    match script.schedule() {
        Schedule::Rounds => None,
        Schedule::Turns(seats) => Some((seats.as_slice(), None)),
        Schedule::Mix { seed, turns } => Some((&[], Some((*seed, *turns)))),
    }
}

/// Scripts, and their schedules.
const SCHEDULES: [(&[u8], Option<(&[u32], Option<(u64, u32)>)>); 3] = [
    (WHOLE, Some((&[], Some((u64::MAX, 1_000_000))))),
    (
        b"cpus 1\nschedule turns 319 0 319\nactor a",
        Some((&[319, 0, 319], None)),
    ),
    (b"cpus 1\nactor a", None),
];

#[test]
fn schedules(rt: HostRuntime) -> Result<(), Fail> {
    for (at, &(text, wanted)) in SCHEDULES.iter().enumerate() {
        let script = parse(rt.alloc(), text, 0)?;
        assert!(rt; numbers(&script) == wanted, "script {at}");
    }
    Ok(())
}
