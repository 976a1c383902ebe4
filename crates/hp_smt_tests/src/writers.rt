//! Writes that wait, and a second writer.

use crate::turned::{Said, Turned, heard};
use hp_board::Turn;
use hp_event::{Answer, Op};
use hp_locks::Why;
use hp_smt::{Control, Mode, SmtTurn};
use std::process::Abort;
use std::test::Fail;

const BOOT: Turned = Turned::Asks(4, Op::Boot(4));

/// The boot goes on between two turns of the write, and brings processor 1 up.
const OFF_WHILE_BOOTING: [Turned; 5] = [
    BOOT,
    Turned::Writes(5, Control::Off),
    BOOT,
    BOOT,
    Turned::Writes(5, Control::Off),
];

const WAITS: [Said; 5] = [
    Said::Asked(SmtTurn::Board(Turn::Made { at: 6 })),
    Said::Wrote(Turn::NotYet(Why::MapsHeld(4))),
    Said::Asked(SmtTurn::Board(Turn::Made { at: 7 })),
    Said::Asked(SmtTurn::Board(Turn::Made { at: 8 })),
    Said::Wrote(Turn::NotYet(Why::MapsHeld(4))),
];

const TWO_WRITERS: [Turned; 3] = [
    BOOT,
    Turned::Writes(5, Control::ForceOff),
    Turned::Writes(6, Control::On),
];

const SECOND_IS_REFUSED: [Said; 3] = [
    Said::Asked(SmtTurn::Board(Turn::Made { at: 7 })),
    Said::Wrote(Turn::NotYet(Why::MapsHeld(4))),
    Said::Wrote(Turn::Answered {
        at: None,
        answer: Answer::Refused(16),
    }),
];

const UP_WHILE_OFF: [Turned; 4] = [
    Turned::Writes(5, Control::Off),
    Turned::Asks(4, Op::Up(1)),
    Turned::Writes(4, Control::On),
    Turned::Asks(4, Op::Up(1)),
];

const DENIED_AND_THEN_NOT: [Said; 4] = [
    Said::Wrote(Turn::Answered {
        at: None,
        answer: Answer::Ok(0),
    }),
    Said::Asked(SmtTurn::Denied),
    Said::Wrote(Turn::Answered {
        at: None,
        answer: Answer::Ok(0),
    }),
    Said::Asked(SmtTurn::Board(Turn::Made { at: 6 })),
];

#[test]
fn an_off_waits_for_a_boot_in_flight(rt: HostRuntime) -> Result<(), Fail> {
    let (said, mode) = heard(rt.alloc(), 2, &OFF_WHILE_BOOTING)?;
    assert!(rt; said.as_slice() == WAITS.as_slice(), "{said:?}");
    assert!(rt; mode == Mode::Closing(false), "{mode:?}");
    Ok(())
}

#[test]
fn a_second_writer_is_refused(rt: HostRuntime) -> Result<(), Fail> {
    let (said, mode) = heard(rt.alloc(), 3, &TWO_WRITERS)?;
    assert!(rt; said.as_slice() == SECOND_IS_REFUSED.as_slice(), "{said:?}");
    assert!(rt; mode == Mode::Closing(true), "{mode:?}");
    Ok(())
}

#[test]
fn what_is_denied_makes_no_event(rt: HostRuntime) -> Result<(), Fail> {
    let (said, mode) = heard(rt.alloc(), 2, &UP_WHILE_OFF)?;
    assert!(rt;
        said.as_slice() == DENIED_AND_THEN_NOT.as_slice(),
        "{said:?}"
    );
    assert!(rt; mode == Mode::On, "{mode:?}");
    Ok(())
}
