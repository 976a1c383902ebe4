//! Runs come out by each schedule as written by hand, and the very hooks that went in come back: two actors, by three
//! schedules; two, of which one brings processors up together; and one that boots as many processors as there can be.

ghost use Rattle.std.specs.Prelude.{◌≤◌, length, sum_by};
ghost use Rattle.hp_model.specs.Scripts.{IsScript};
ghost use Rattle.hp_script.specs.Playable.{setups_in};

use hp_actors::Run;
use hp_event::{Answer, Event, How};
use hp_hook::{Hook, Rack};
use hp_samples::Marked;
use hp_script::{Script, parse};
use hp_states::{Dir, MAX_CPUS, NoMemory};
use std::alloc::Global;
use std::process::Abort;
use std::test::Fail;

/// Five hooks, marked from 1.
pub(crate) fn rack(alloc: Global) -> Result<Rack<Marked>, Fail> {
    let mut hooks = Vec::new(alloc);
    for mark in 1..6u32 {
        hooks.push(Marked::new(mark))?;
    }
    Ok(Rack { hooks })
}

/// The two actors: both set up state 150, for which one of them is refused.
const ACTORS: &[u8] = b"\
actor one
setup 150 1
setup 120 1 nocalls
actor two
setup 150 1
setup 160 1
remove 160
up 1
";

/// Their script, with this schedule.
fn text(alloc: Global, schedule: &[u8]) -> Result<Vec<u8>, Fail> {
    let mut text = Vec::new(alloc);
    text.extend_from_slice(b"cpus 2\nsub a both single\nschedule ")?;
    text.extend_from_slice(schedule)?;
    text.push(b'\n')?;
    text.extend_from_slice(ACTORS)?;
    Ok(text)
}

/// Plays a script: the events of its journal.
fn played(
    rt: &impl Abort,
    alloc: Global,
    text: &[u8],
    rack: &mut Rack<Marked>,
) -> Result<Vec<Event>, Fail> {
    let hooks = rack.hooks.len().min(u32::MAX as usize) as u32;
    let script = match parse(alloc, text, hooks) {
        Ok(script) => script,
        Err(error) => return Err(Fail::from(error)),
    };
    play(rt, alloc, &script, rack)
}

/// The same of a script that was read.
fn play(
    rt: &impl Abort,
    alloc: Global,
    script: &Script,
    rack: &mut Rack<Marked>,
) -> Result<Vec<Event>, Fail>
    requires script { IsScript script.now.head script.now.actors }
    requires hooks { sum_by setups_in script.now.actors ≤ length rack.old.hooks.items }
{
    let mut run = Run::start(alloc, script, rack)?;
    match run.play(script.schedule()) {
        Ok(()) => {}
        Err(NoMemory) => panic!(rt; "memory for the run"),
    }
    let events = Vec::from_slice(alloc, run.board().journal().events());
    run.finish(rack)?;
    Ok(events?)
}

/// Asserts that events are made by these seats, and that these come last.
fn assert_events(rt: &impl Abort, events: &[Event], seats: &[u32], last: &[Event], name: &str) {
    assert!(rt;
        events.len() == seats.len(),
        "{name}: {} events",
        events.len()
    );
    for (at, (event, wanted)) in events.iter().zip(seats).enumerate() {
        let seat = event.seat();
        assert!(rt; seat == *wanted, "{name}: seat {seat} makes event {at}");
    }
    assert!(rt; events.ends_with(last), "{name}: other events at its end");
}

/// The marks of five hooks, and how often each was called. The second and the third came back, in no order
/// that is promised: the one that was called less stands first here.
fn seen(rack: &Rack<Marked>) -> Option<([u32; 5], [u64; 5])> {
    let (kept, one, other, low, high) = match rack.hooks.as_slice() {
        [kept, one, other, low, high] => (kept, one, other, low, high),
        _ => return None,
    };
    let (less, more) = if one.made() <= other.made() {
        (one, other)
    } else {
        (other, one)
    };
    Some((
        [kept.mark, less.mark, more.mark, low.mark, high.mark],
        [
            kept.made(),
            less.made(),
            more.made(),
            low.made(),
            high.made(),
        ],
    ))
}

/// Schedules, with the seats of the events that they make, and the marks of the hooks that are there then: the one
/// that no setup took; those that came back, from the refused setup and from the remove; and those of the two
/// registered states.
const ROWS: [(&'static str, [u32; 23], [u32; 5]); 3] = [
    (
        "turns 3 2 0 3 3",
        [
            0, 1, 2, 3, 3, 0, 3, 3, 0, 3, 2, 3, 0, 3, 2, 3, 2, 2, 3, 1, 1, 3, 3,
        ],
        [1, 5, 2, 4, 3],
    ),
    (
        "rounds",
        [
            0, 1, 2, 3, 2, 0, 2, 3, 2, 2, 2, 3, 0, 3, 3, 0, 3, 3, 3, 1, 1, 3, 3,
        ],
        [1, 3, 2, 4, 5],
    ),
    (
        "mix 7 30",
        [
            0, 1, 2, 3, 2, 0, 2, 3, 3, 0, 3, 3, 0, 3, 2, 3, 2, 2, 3, 1, 1, 3, 3,
        ],
        [1, 3, 2, 4, 5],
    ),
];

/// How often those hooks were called, by each schedule.
const MADE: [u64; 5] = [0, 0, 2, 1, 2];

/// The last two events of each run.
const LAST: [Event; 2] = [
    Event::WalkEnd {
        seat: 3,
        cpu: 1,
        answer: Answer::Ok(0),
    },
    Event::OpEnd {
        seat: 3,
        answer: Answer::Ok(0),
    },
];

#[test]
fn schedules_interleave_two_actors(rt: HostRuntime) -> Result<(), Fail> {
    for (schedule, seats, marks) in ROWS.iter() {
        let mut rack = rack(rt.alloc())?;
        let text = text(rt.alloc(), schedule.as_bytes())?;
        let events = played(&rt, rt.alloc(), &text, &mut rack)?;
        assert_events(&rt, &events, seats, &LAST, schedule);
        assert!(rt; seen(&rack) == Some((*marks, MADE)), "{schedule}");
    }
    Ok(())
}

/// Two actors: one brings two processors up together, and the other reads and registers beside it.
const TOGETHER: &[u8] = b"\
cpus 3
sub a both single
schedule rounds
actor one
setup 20 1
setup 150 1
upmany 1 2
actor two
lock
unlock
setup 160 1
lock
unlock
remove 160
lock
unlock
";

/// The seats of their events: after the admissions, round by round.
const TOGETHER_SEATS: [u32; 33] = [
    0, 1, 2, 3, 4, // the threads, and the two actors
    3, 4, 3, 4, 3, 4, // state 20 is set up, whose entries are the client's, beside a reader
    0, 4, 3, 4, 0, 3, 4, // one waits for the other's registration, at whose entries threads are
    3, 4, 0, 4, // the upmany enters, and its first walk waits for a registration
    3, 3, // both walks begin
    3, 1, 3, 2, 3, 3, // each makes the client's entry and its thread's, and ends
    3, 4, 4, // and the other can't read before the operation ends
];

/// Those from the first walk on.
const WALKED: [Event; 11] = [
    Event::WalkBegin {
        seat: 3,
        cpu: 1,
        from: 0,
        to: 200,
    },
    Event::WalkBegin {
        seat: 3,
        cpu: 2,
        from: 0,
        to: 200,
    },
    Event::Call {
        seat: 3,
        cpu: 1,
        state: 20,
        inst: 0,
        dir: Dir::Up,
        how: How::RanOk,
    },
    Event::Call {
        seat: 1,
        cpu: 1,
        state: 150,
        inst: 0,
        dir: Dir::Up,
        how: How::RanOk,
    },
    Event::Call {
        seat: 3,
        cpu: 2,
        state: 20,
        inst: 0,
        dir: Dir::Up,
        how: How::RanOk,
    },
    Event::Call {
        seat: 2,
        cpu: 2,
        state: 150,
        inst: 0,
        dir: Dir::Up,
        how: How::RanOk,
    },
    Event::WalkEnd {
        seat: 3,
        cpu: 1,
        answer: Answer::Ok(0),
    },
    Event::WalkEnd {
        seat: 3,
        cpu: 2,
        answer: Answer::Ok(0),
    },
    Event::OpEnd {
        seat: 3,
        answer: Answer::Ok(0),
    },
    Event::ReadLock { seat: 4 },
    Event::ReadUnlock { seat: 4 },
];

#[test]
fn processors_come_up_together(rt: HostRuntime) -> Result<(), Fail> {
    let mut rack = rack(rt.alloc())?;
    let events = played(&rt, rt.alloc(), TOGETHER, &mut rack)?;
    assert_events(&rt, &events, &TOGETHER_SEATS, &WALKED, "upmany");
    Ok(())
}

/// All processors of the largest machine are booted by one operation: beside the seats that come in, its begin and its end,
/// each of the others has the begin and the end of its walk, since nothing is registered.
#[test]
fn the_largest_machine_boots(rt: HostRuntime) -> Result<(), Fail> {
    let mut none = Rack {
        hooks: Vec::new(rt.alloc()),
    };
    let events = played(&rt, rt.alloc(), b"cpus 256\nactor a\nboot 256\n", &mut none)?;
    assert!(rt; events.len() == 769, "{} events", events.len());
    let end = Event::OpEnd {
        seat: MAX_CPUS,
        answer: Answer::Ok(0),
    };
    assert!(rt; events.last() == Some(&end));
    Ok(())
}
