//! What no clause says of hp_locks: that memory suffices where it is ample, and who waits for whom where two seats come
//! together, as worked out by hand from the table of waits.

use hp_locks::{Locks, Why};
use std::process::Abort;

/// A call of a seat.
#[derive(Clone, Copy, Debug)]
enum Act {
    Enter,
    Leave,
    Write,
    EndWrite,
    Register,
    EndRegistration,
    Read,
    Unlock,
}

/// Makes a call of a seat, which is to be answered so, under its condition.
fn acts(rt: &impl Abort, locks: &mut Locks, &(seat, act, wanted): &(u32, Act, Result<(), Why>)) {
    assert!(rt; seat < locks.admitted());
    let answer = match act {
        Act::Enter => locks.enter_maps(seat),
        Act::Write => {
            assert!(rt; locks.map_holder() == Some(seat) && locks.writer().is_none());
            locks.begin_write(seat)
        }
        Act::Register => locks.begin_reg(seat),
        Act::Read => {
            assert!(rt; !locks.reading(seat));
            locks.read_lock(seat)
        }
        Act::Leave | Act::EndWrite | Act::EndRegistration | Act::Unlock => {
            ends(rt, locks, seat, act);
            Ok(())
        }
    };
    assert!(rt; answer == wanted, "{seat} {act:?}: {answer:?}");
}

/// Ends what a seat has.
fn ends(rt: &impl Abort, locks: &mut Locks, seat: u32, act: Act) {
    match act {
        Act::Leave => {
            assert!(rt; locks.map_holder() == Some(seat));
            locks.leave_maps(seat)
        }
        Act::EndWrite => {
            assert!(rt; locks.writer() == Some(seat));
            locks.end_write(seat)
        }
        Act::EndRegistration => {
            assert!(rt; locks.registrar() == Some(seat));
            locks.end_reg(seat)
        }
        _ => {
            assert!(rt; seat < locks.admitted() && locks.reading(seat));
            locks.read_unlock(seat)
        }
    }
}

/// Seat 1 would walk, and waits for what seat 0 has.
const WAITS: [(u32, Act, Result<(), Why>); 9] = [
    (0, Act::Read, Ok(())),
    (1, Act::Enter, Ok(())),
    (0, Act::Enter, Err(Why::MapsHeld(1))),
    (1, Act::Write, Err(Why::ReadersIn(1))),
    (0, Act::Register, Ok(())),
    (1, Act::Register, Err(Why::RegIn(0))),
    (1, Act::Write, Err(Why::ReadersIn(1))),
    (0, Act::Unlock, Ok(())),
    (1, Act::Write, Err(Why::RegIn(0))),
];

/// Seat 1 walks, and seat 0 waits for it.
const KEEPS_OUT: [(u32, Act, Result<(), Why>); 10] = [
    (1, Act::Enter, Ok(())),
    (1, Act::Write, Ok(())),
    (0, Act::Read, Err(Why::WriterIn(1))),
    (0, Act::Register, Err(Why::WriterIn(1))),
    (1, Act::EndWrite, Ok(())),
    (0, Act::Read, Ok(())),
    (0, Act::Register, Ok(())),
    (0, Act::EndRegistration, Ok(())),
    (1, Act::Leave, Ok(())),
    (0, Act::Enter, Ok(())),
];

/// Two seats come in and make these calls; then so many of them read.
fn plays(rt: &impl Abort, locks: &mut Locks, rows: &[(u32, Act, Result<(), Why>)], readers: u32) {
    assert!(rt; locks.admitted() == 0);
    assert!(rt; locks.admit() == Ok(0));
    assert!(rt; locks.admit() == Ok(1));
    for row in rows {
        acts(rt, locks, row);
    }
    assert!(rt; locks.readers() == readers);
}

#[test]
fn seats_wait_for_each_other(rt: HostRuntime) {
    plays(&rt, &mut Locks::new(rt.alloc()), &WAITS, 0);
    plays(&rt, &mut Locks::new(rt.alloc()), &KEEPS_OUT, 1);
}
