//! The start of a board.

ghost use Rattle.std.specs.Prelude.{◌≡◌, All, IfOk, IfErr, OnOk};
ghost use Rattle.hp_board.specs.Starts.{head_of, IsStarted, IsStartRefusal, refusal_by};
ghost use Rattle.hp_model.specs.Heads.{IsHead, IsSub};

use crate::board::Board;
use hp_called::Called;
use hp_event::{Head, Numbers, Subs};
use hp_hook::Hook;
use hp_machine::{HeadFault, Machine, head_fault};
use hp_states::NoMemory;
use std::alloc::Global;

/// The processors of a board.
#[derive(Drop)]
pub struct CpuPlan {
    /// How many are possible: their numbers are those below.
    pub possible: u32,
    /// The numbers of those that are absent, rising.
    pub absent: Numbers,
}

/// Why a board doesn't start.
#[derive(Clone, Copy, Debug, PartialEq, Eq)]
pub enum StartError {
    /// No processor is possible.
    NoProcessor = 1,
    /// More than `MAX_CPUS` are possible.
    TooManyCpus = 2,
    /// The absent ones don't rise, or aren't possible ones.
    BadAbsent = 3,
    /// The first is absent, which a machine boots on.
    NoBoot = 4,
    /// There are more than `MAX_SUBS` subsystems.
    TooManySubs = 5,
    /// Memory was wanting.
    NoMemory = 6,
}

impl From<HeadFault> for StartError {
    ghost from_gives = { λ fault e. e ≡ refusal_by fault };

    fn from(fault: HeadFault) -> StartError {
        match fault {
            HeadFault::NoProcessor => StartError::NoProcessor,
            HeadFault::TooManyCpus => StartError::TooManyCpus,
            HeadFault::BadAbsent => StartError::BadAbsent,
            HeadFault::NoBoot => StartError::NoBoot,
            HeadFault::TooManySubs => StartError::TooManySubs,
        }
    }
}

impl<H: Hook> Board<H> {
    /// A board with these processors and subsystems, without events: the first processor is up, and
    /// nothing is registered but the built-in states.
    ///
    /// Names and rules of the subsystems have their forms and ranges. The first of these that holds
    /// decides:
    /// - `NoProcessor` where no processor is possible.
    /// - `TooManyCpus` where more than `MAX_CPUS` are.
    /// - `BadAbsent` where the absent ones don't strictly rise, or one isn't possible.
    /// - `NoBoot` where the first processor is absent.
    /// - `TooManySubs` where there are more than `MAX_SUBS` subsystems.
    /// - `NoMemory` where none of these holds and memory was wanting.
    ///
    /// Takes memory for the table's 201 places, for some places for each processor, and for a fixed number of guesses where
    /// keys are. The processor that
    /// boots is that of `boot_cpu_init` of `kernel/cpu.c`; the limits are this project's own.
    pub fn start(alloc: Global, plan: CpuPlan, subs: Subs) -> Result<Board<H>, StartError>
        requires { All IsSub subs }
        ensures ok { IfOk result (IsStarted (head_of plan subs)) }
        ensures head { OnOk result (IsHead (head_of plan subs)) }
        ensures refused { IfErr result (IsStartRefusal (head_of plan subs)) }
    {
        let CpuPlan { possible, absent } = plan;
        let head = Head {
            possible,
            absent,
            subs,
        };
        if let Some(fault) = head_fault(&head) {
            return Err(StartError::from(fault));
        }
        match begin(alloc, head) {
            Ok(board) => Ok(board),
            Err(NoMemory) => Err(StartError::NoMemory),
        }
    }
}

/// A board with a head that one can be started with.
fn begin<H: Hook>(alloc: Global, head: Head) -> Result<Board<H>, NoMemory>
    requires { IsHead head }
    ensures { IfOk result (IsStarted head) }
{
    let called = Called::new(alloc)?;
    let machine = Machine::start(alloc, head)?;
    Ok(Board { machine, called })
}
