//! A machine with a seat for each thread and each actor of a script.

ghost use Rattle.std.specs.Prelude.{◌≡◌, ◌+◌, ◌≤◌, [], true, false, IfOk, OnOk, length, replicate};
ghost use Rattle.hp_board.specs.Contents.{with_event};
ghost use Rattle.hp_board.specs.HookCount.{hook_count};
ghost use Rattle.hp_model.specs.Heads.{IsHead};
ghost use Rattle.hp_event.specs.declared.event.Role.TheVariants.{Ap};
ghost use Rattle.hp_model.specs.Processors.{is_present, present};
ghost use Rattle.hp_model.specs.Admissions.{admissions};
ghost use Rattle.hp_states.specs.declared.limits.TheConstants.{MAX_SEATS};
ghost use Rattle.hp_machine.specs.StandsNext.{CanComeIn, HasComeIn, admission};

use hp_board::{AdmitError, Board, CpuPlan, StartError};
use hp_event::{Head, Role};
use hp_hook::Hook;
use hp_states::NoMemory;
use std::alloc::Global;

/// A machine of these processors and subsystems, in which the threads of the present processors have come in,
/// in rising number, and after them so many clients.
///
/// The head is one that a machine can be started with, and there are seats for all. Takes memory; where there
/// is none: `NoMemory`. That a thread for each present processor is in is that of `kernel/cpu.c`.
pub fn seated_board<H: Hook>(alloc: Global, head: &Head, clients: u32) -> Result<Board<H>, NoMemory>
    requires head { IsHead head.now }
    requires few { length (present head.now) + clients ≤ MAX_SEATS }
    ensures head { IfOk result (λ board. board.head ≡ head.now) }
    ensures events { IfOk result (λ board. board.events ≡ admissions head.now (replicate clients [])) }
    ensures none { IfOk result (λ board. hook_count board.places ≡ 0) }
{
    let mut board = board_of(alloc, head)?;
    match seat_all(&mut board, head, clients) {
        Ok(()) => Ok(board),
        Err(error) => {
            // Lets the board go with its hooks, by a call that is proved once.
            board.into_journal();
            Err(error)
        }
    }
}

/// Lets the threads of the present processors into an empty machine, in rising number, and after them so many
/// clients.
fn seat_all<H: Hook>(board: &mut Board<H>, head: &Head, clients: u32) -> Result<(), NoMemory>
    requires head { IsHead head.now }
    requires few { length (present head.now) + clients ≤ MAX_SEATS }
    requires same { board.old.head ≡ head.now }
    requires empty { board.old.events ≡ [] }
    ensures head { OnOk result (board.new.head ≡ head.now) }
    ensures events { OnOk result (board.new.events ≡ admissions head.now (replicate clients [])) }
    ensures places { OnOk result (board.new.places ≡ board.old.places) }
{
    for cpu in 0..head.possible {
        admit_thread(board, head, cpu)?;
    }
    for _ in 0..clients {
        admit(board, Role::Client)?;
    }
    Ok(())
}

/// How many processors are present. Takes no memory.
pub fn present_count(head: &Head) -> u32
    ensures { result ≡ length (present head.now) }
{
    let mut count = 0;
    for cpu in 0..head.possible {
        if head.is_present(cpu) {
            count += 1;
        }
    }
    count
}

/// A machine of these processors and subsystems, in which no seat is.
fn board_of<H: Hook>(alloc: Global, head: &Head) -> Result<Board<H>, NoMemory>
    requires { IsHead head.now }
    ensures head { IfOk result (λ board. board.head ≡ head.now) }
    ensures events { IfOk result (λ board. board.events ≡ []) }
    ensures none { IfOk result (λ board. hook_count board.places ≡ 0) }
{
    let Head {
        possible,
        absent,
        subs,
    } = head.copy()?;
    match Board::start(alloc, CpuPlan { possible, absent }, subs) {
        Ok(board) => Ok(board),
        Err(StartError::NoMemory) => Err(NoMemory),
        Err(_) => unreachable!(),
    }
}

/// Lets the thread of a processor in, if that is present; its admission stands then.
fn admit_thread<H: Hook>(board: &mut Board<H>, head: &Head, cpu: u32) -> Result<(), NoMemory>
    requires { is_present head.now cpu ≡ true → CanComeIn board.old (Ap cpu) }
    ensures head { OnOk result (board.new.head ≡ board.old.head) }
    ensures there { OnOk result (is_present head.now cpu ≡ true → HasComeIn (Ap cpu) board.old board.new) }
    ensures absent { OnOk result (is_present head.now cpu ≡ false → board.new.events ≡ board.old.events) }
    ensures places { OnOk result (board.new.places ≡ board.old.places) }
{
    if head.is_present(cpu) {
        return admit(board, Role::Ap(cpu));
    }
    Ok(())
}

/// Lets a seat in whose admission stands.
fn admit<H: Hook>(board: &mut Board<H>, role: Role) -> Result<(), NoMemory>
    requires { CanComeIn board.old role }
    ensures { OnOk result (board.new ≡ with_event board.old (admission board.old role)) }
{
    match board.admit(role) {
        Ok(_) => Ok(()),
        Err(AdmitError::NoMemory) => Err(NoMemory),
        Err(_) => unreachable!(),
    }
}
