//! Two parts of an account alone, with ample memory: its seats, of which one leaves, and what suspends it, which a freeze
//! leaves as is written by hand.

use hp_account::{Seats, Suspended};
use hp_event::{Answer, Op, Role};

#[test]
fn a_seat_that_leaves_is_empty(rt: HostRuntime) {
    let Ok(mut seats) = Seats::new(rt.alloc(), 2) else {
        panic!(rt; "memory for seats");
    };
    assert!(rt; seats.admit(Role::Ap(1)).is_ok());
    assert!(rt; seats.admit(Role::Client).is_ok());
    assert!(rt; seats.admitted() == 2);
    seats.leave(0);
    assert!(rt; (seats.role(0), seats.thread(1)) == (None, None));
    assert!(rt; (seats.role(1), seats.clients()) == (Some(Role::Client), 1));
}

#[test]
fn a_freeze_records_whom_it_took_down(rt: HostRuntime) {
    let Ok(mut suspended) = Suspended::new(rt.alloc(), 3) else {
        panic!(rt; "memory for what suspends");
    };
    suspended.enter(Op::Freeze(0));
    suspended.end_walk(Op::Freeze(0), 1, Answer::Ok(0));
    suspended.end_walk(Op::Freeze(0), 2, Answer::Fault(5));
    suspended.leave(Op::Freeze(0));
    assert!(rt; suspended.disabled() == 1);
    assert!(rt; suspended.frozen() == [false, true, false].as_slice());
}
