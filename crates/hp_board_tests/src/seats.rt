//! As many seats as there can be come in, and no more.

use crate::play::{rack, retired};
use hp_board::{AdmitError, Board, CpuPlan};
use hp_event::{Numbers, Role, Subs};
use hp_samples::Marked;
use hp_states::{MAX_CPUS, MAX_SEATS};
use std::test::Fail;

/// A board of as many processors as there can be lets in a thread for each and as many clients as there are seats left,
/// and then no seat more, also where one has left.
#[test]
fn seats_run_out(rt: HostRuntime) -> Result<(), Fail> {
    let plan = CpuPlan {
        possible: MAX_CPUS,
        absent: Numbers::new(rt.alloc()),
    };
    let mut rack = rack(rt.alloc(), &[])?;
    let mut board = Board::<Marked>::start(rt.alloc(), plan, Subs::new(rt.alloc()))?;
    for seat in 0..MAX_SEATS {
        let role = if seat < MAX_CPUS {
            Role::Ap(seat)
        } else {
            Role::Client
        };
        assert!(rt; board.admit(role) == Ok(seat), "seat {seat}");
    }
    assert!(rt; matches!(board.admit(Role::Client), Err(AdmitError::Full)));
    if board.can_leave(MAX_SEATS - 1) {
        board.leave(MAX_SEATS - 1);
    }
    assert!(rt; matches!(board.admit(Role::Client), Err(AdmitError::Full)));
    assert!(rt; retired(&rt, board, &mut rack) == MAX_SEATS + 1);
    Ok(())
}
