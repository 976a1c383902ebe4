//! The start of the machine, and its end.

ghost use Rattle.std.specs.Prelude.{◌≡◌, ℕ, [], All, None, true, IfOk, IfErr, OnOk};
ghost use Rattle.hp_board.specs.Starts.{IsStartRefusal, head_of};
ghost use Rattle.hp_live.specs.Known.{IsOf};
ghost use Rattle.hp_model.specs.Heads.{IsHead, IsSub};
ghost use Rattle.hp_model.specs.Seats.{role_of};
ghost use Rattle.hp_table.specs.Step.{AllHome};
ghost use Rattle.hp_turn.specs.Story.{Knows};

use crate::hotplug::Hotplug;
use crate::live::Live;
use crate::root::Root;
use crate::sight::Sight;
use crate::wakes::Wakes;
use hp_board::{Board, CpuPlan, StartError};
use hp_event::Subs;
use hp_hook::Hook;
use hp_states::NoMemory;
use hp_turn::TurnLock;
use std::alloc::Global;
use std::sync::Wait;

impl<H: Hook + Send> Hotplug<H> {
    /// The machine with these processors and subsystems, and its root, which has seen an empty journal.
    ///
    /// Conditions and refusals are those of `Board::start`. Takes memory for the board and the lock, and for a place
    /// where its thread sleeps for each possible processor.
    pub fn start(
        alloc: Global,
        plan: CpuPlan,
        subs: Subs,
    ) -> Result<(Hotplug<H>, Root<H>), StartError>
        requires { All IsSub subs }
        ensures own { IfOk result (λ r. IsOf r.0 r.1.lock) }
        ensures head { IfOk result (λ r. r.1.head ≡ head_of plan subs) }
        ensures front { IfOk result (λ r. r.1.front ≡ []) }
        ensures is_head { OnOk result (IsHead (head_of plan subs)) }
        ensures refused { IfErr result (IsStartRefusal (head_of plan subs)) }
    {
        let board = Board::start(alloc, plan, subs)?;
        match begin(alloc, board) {
            Ok(started) => Ok(started),
            Err(NoMemory) => Err(StartError::NoMemory),
        }
    }

    /// Ends the machine, and answers its board.
    ///
    /// Condition: this machine gave the root. The root's front begins the board's journal, with no Admit past
    /// it. What is lent still is so; where each seat has left by the root's front, nothing is. Waits while another
    /// holds the lock. Takes no memory. This project's own.
    pub fn close<R: Wait>(self, rt: &R, root: Root<H>) -> Board<H>
        requires { IsOf self root.lock }
        ensures head { result.head ≡ root.head }
        ensures knew { Knows None true root.front result.events }
        ensures home { ((k : ℕ) → role_of k root.front ≡ None) → AllHome result.places }
    {
        let Hotplug { lock, wakes: _ } = self;
        let Root { sight } = root;
        let Sight { turn, seen: _ } = sight;
        let Live { board } = lock.close(rt, turn);
        board.sound();
        board
    }
}

/// A lock with this board, which has no events.
fn begin<H: Hook + Send>(alloc: Global, board: Board<H>) -> Result<(Hotplug<H>, Root<H>), NoMemory>
    requires { board.events ≡ [] }
    ensures own { IfOk result (λ r. IsOf r.0 r.1.lock) }
    ensures head { IfOk result (λ r. r.1.head ≡ board.head) }
    ensures front { IfOk result (λ r. r.1.front ≡ []) }
{
    board.sound();
    let wakes = Wakes::new(alloc, board.journal().head().possible)?;
    let (lock, turn) = TurnLock::new(alloc, Live { board })?;
    let sight = Sight { turn, seen: 0 };
    Ok((Hotplug { lock, wakes }, Root { sight }))
}
