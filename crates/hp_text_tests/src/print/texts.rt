//! Whole texts and summaries, and reports of what is in flight.

use crate::compared::assert_text;
use hp_event::{Answer, Event, Form, Head, How, Journal, Op, Role};
use hp_print::{journal_text, report_json, summary};
use hp_samples::TWO_STARTUPS;
use hp_script::parse;
use hp_states::Dir;
use std::alloc::Global;
use std::process::Abort;
use std::test::Fail;

const PLAIN: Form = Form {
    nocalls: false,
    locked: false,
};

fn setup(state: u32, sub: u32) -> Event {
    Event::RegBegin {
        seat: 2,
        state,
        op: Op::Setup {
            state,
            sub,
            form: PLAIN,
        },
    }
}

fn call(seat: u32, cpu: u32, state: u32, how: How) -> Event {
    Event::Call {
        seat,
        cpu,
        state,
        inst: 0,
        dir: Dir::Up,
        how,
    }
}

/// The answer of what is done.
const DONE: Answer = Answer::Ok(0);

/// The events of two setups and a way up.
fn events_of_two_startups() -> [Event; 15] {
    let seat = 2;
    [
        Event::Admit {
            seat: 0,
            role: Role::Ap(0),
        },
        Event::Admit {
            seat: 1,
            role: Role::Ap(1),
        },
        Event::Admit {
            seat,
            role: Role::Client,
        },
        setup(120, 1),
        call(0, 0, 120, How::RanOk),
        Event::RegEnd { seat, answer: DONE },
        setup(150, 2),
        call(0, 0, 150, How::RanOk),
        Event::RegEnd { seat, answer: DONE },
        Event::Enter {
            seat,
            op: Op::Up(1),
        },
        Event::WalkBegin {
            seat,
            cpu: 1,
            from: 0,
            to: 200,
        },
        call(1, 1, 120, How::RanOk),
        call(1, 1, 150, How::RanOk),
        Event::WalkEnd {
            seat,
            cpu: 1,
            answer: DONE,
        },
        Event::OpEnd { seat, answer: DONE },
    ]
}

/// The head of a journal of this script.
fn head_of(alloc: Global, script: &str) -> Result<Head, Fail> {
    let script = parse(alloc, script.as_bytes(), 4)?;
    Ok(script.head().copy()?)
}

/// Appends so many of these events.
fn append(journal: &mut Journal, events: &[Event], many: usize) -> Result<(), Fail> {
    for event in events.iter().take(many) {
        journal.reserve(1)?;
        if journal.promised() > 0 {
            journal.push(*event);
        }
    }
    Ok(())
}

/// Compares the text of a journal, its summary and its report.
fn check_texts(
    rt: &impl Abort,
    alloc: Global,
    journal: &Journal,
    wanted: &str,
    overview: &str,
    report: &str,
) -> Result<(), Fail> {
    let text = journal_text(alloc, journal)?;
    assert_text(rt, "the journal", &text, wanted);
    let shown = summary(alloc, journal)?;
    assert_text(rt, "the summary", &shown, overview);
    let reported = report_json(alloc, journal)?;
    assert_text(rt, "the report", &reported, report);
    Ok(())
}

#[test]
fn the_texts_of_two_startups(rt: HostRuntime) -> Result<(), Fail> {
    let alloc = rt.alloc();
    let mut journal = Journal::new(alloc, head_of(alloc, TWO_STARTUPS.script)?);
    append(&mut journal, &events_of_two_startups(), 15)?;
    check_texts(
        &rt,
        alloc,
        &journal,
        TWO_STARTUPS.journal,
        TWO_STARTUPS.summary,
        TWO_STARTUPS_REPORT,
    )
}

/// Their report.
const TWO_STARTUPS_REPORT: &str = concat!(
    r#"{"cpus":[{"cpu":0,"keys":[[120,0],[150,0]],"online":true,"present":true,"state":200},"#,
    r#"{"cpu":1,"keys":[[120,0],[150,0]],"online":true,"present":true,"state":200}],"#,
    r#""disabled":0,"events":15,"frozen":[],"#,
    r#""subs":[{"faults":0,"instances":[],"made":2,"name":"net:a","state":120},"#,
    r#"{"faults":0,"instances":[],"made":2,"name":"net:b","state":150}]}"#,
    "\n",
);

/// The report of the first eight of their events, behind which the second registration is in flight.
const IN_A_REGISTRATION: &str = concat!(
    r#"{"cpus":[{"cpu":0,"keys":[[120,0],[150,0]],"online":true,"present":true,"state":200},"#,
    r#"{"cpu":1,"keys":[],"online":false,"present":true,"state":0}],"#,
    r#""disabled":0,"events":8,"frozen":[],"#,
    r#""subs":[{"faults":0,"instances":[],"made":1,"name":"net:a","state":120}]}"#,
    "\n",
);

/// The report of the first twelve, behind which the walk is in flight.
const IN_A_WALK: &str = concat!(
    r#"{"cpus":[{"cpu":0,"keys":[[120,0],[150,0]],"online":true,"present":true,"state":200},"#,
    r#"{"cpu":1,"keys":[[120,0]],"online":false,"present":true,"state":0}],"#,
    r#""disabled":0,"events":12,"frozen":[],"#,
    r#""subs":[{"faults":0,"instances":[],"made":2,"name":"net:a","state":120},"#,
    r#"{"faults":0,"instances":[],"made":1,"name":"net:b","state":150}]}"#,
    "\n",
);

/// A script whose journal is empty as long as nobody comes in, with absent processors.
const ABSENT: &str = "cpus 4\nabsent 1 3\nsub - both multi\nrule up * 3 * 5\nactor a\n";

/// The report of no events of it.
const EMPTY_REPORT: &str = concat!(
    r#"{"cpus":[{"cpu":0,"keys":[],"online":true,"present":true,"state":200},"#,
    r#"{"cpu":1,"keys":[],"online":false,"present":false,"state":0},"#,
    r#"{"cpu":2,"keys":[],"online":false,"present":true,"state":0},"#,
    r#"{"cpu":3,"keys":[],"online":false,"present":false,"state":0}],"#,
    r#""disabled":0,"events":0,"frozen":[],"subs":[]}"#,
    "\n",
);

/// Compares the report of so many events of two startups in a journal of this script.
fn check_report(
    rt: &impl Abort,
    alloc: Global,
    script: &str,
    many: usize,
    wanted: &str,
) -> Result<(), Fail> {
    let mut journal = Journal::new(alloc, head_of(alloc, script)?);
    append(&mut journal, &events_of_two_startups(), many)?;
    let report = report_json(alloc, &journal)?;
    assert_text(rt, "a report", &report, wanted);
    Ok(())
}

#[test]
fn reports_of_what_is_in_flight(rt: HostRuntime) -> Result<(), Fail> {
    let first = TWO_STARTUPS.script;
    for &(script, many, wanted) in [
        (first, 8, IN_A_REGISTRATION),
        (first, 12, IN_A_WALK),
        (ABSENT, 0, EMPTY_REPORT),
    ]
    .iter()
    {
        check_report(&rt, rt.alloc(), script, many, wanted)?;
    }
    Ok(())
}
