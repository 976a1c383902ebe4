//! Which operation an event is of.

ghost use Rattle.std.specs.Prelude.{◌≡◌};
ghost use Rattle.hp_law.specs.Asked.{asked_by};

use hp_event::{Event, File, Op};

/// The operation that an event begins or refuses. Of an event in flight, which says none, any will do,
/// since what comes next of a seat with an operation in flight doesn't ask for it.
pub(crate) fn asked_by(event: &Event) -> Op
    ensures { result ≡ asked_by event.now }
{
    match *event {
        Event::Enter { op, .. } | Event::Refused { op, .. } | Event::RegBegin { op, .. } => op,
        Event::ReadUnlock { .. } => Op::Unlock,
        Event::Armed { cpu, value, .. } => Op::Arm(cpu, value),
        Event::Shown { file, cpu, .. } => match file {
            File::State => Op::ShowState(cpu),
            File::Target => Op::ShowTarget(cpu),
            File::Fail => Op::ShowFail(cpu),
            File::States => Op::ShowStates,
        },
        Event::Wakeup { .. } => Op::Wakeup,
        _ => Op::Lock,
    }
}
