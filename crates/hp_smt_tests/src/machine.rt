//! A machine of four processors, two threads to a core.

ghost use Rattle.std.specs.Prelude.{All};
ghost use Rattle.hp_model.specs.Heads.{IsSub};

use hp_board::{Board, CpuPlan};
use hp_event::{Numbers, Role, Subs};
use hp_hook::ScriptHook;
use hp_smt::Smt;
use std::alloc::Global;
use std::test::Fail;

/// Control of a machine with these subsystems, on which processor 0 alone is online: the threads have the seats 0 to 3,
/// and so many clients those from 4 on.
pub(crate) fn machine(alloc: Global, subs: Subs, clients: u32) -> Result<Smt<ScriptHook>, Fail>
    requires { All IsSub subs }
{
    let plan = CpuPlan {
        possible: 4,
        absent: Numbers::new(alloc),
    };
    let mut board = Board::start(alloc, plan, subs)?;
    if come_in(&mut board, clients) && Smt::is_at_rest(&board) {
        Ok(Smt::over(board, 2))
    } else {
        board.into_journal();
        Err(Fail::from("the seats come in"))
    }
}

/// Whether the threads of four processors and so many clients come in.
fn come_in(board: &mut Board<ScriptHook>, clients: u32) -> bool {
    for cpu in 0..4u32 {
        if board.admit(Role::Ap(cpu)).is_err() {
            return false;
        }
    }
    for _ in 0..clients {
        if board.admit(Role::Client).is_err() {
            return false;
        }
    }
    true
}
