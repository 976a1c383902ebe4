//! The row that goes at the end of a registration.

ghost use Rattle.std.specs.Prelude.{◌≡◌};
ghost use Rattle.hp_called.specs.Steps.{ending_by, takes_row};

use hp_event::{Answer, Head, Key, Op};
use hp_model::is_multi;

/// The key of a registration in flight, whose row goes at its end: where it answers a fault if the registration adds the
/// key, and where it answers Ok if it takes the key away.
#[derive(Clone, Copy)]
pub struct Ending {
    pub(crate) key: Key,
    pub(crate) adds: bool,
}

impl Ending {
    /// That of an operation at a state, if it has one: a setup of a state with instances has no key, and other operations
    /// than registrations have none.
    ///
    /// Takes no memory. After `__cpuhp_setup_state_cpuslocked` and its kin of `kernel/cpu.c`.
    pub(crate) fn of(head: &Head, op: &Op, state: u32) -> Option<Ending>
        ensures { result ≡ ending_by head.now op.now state }
    {
        let (inst, adds) = match *op {
            Op::Setup { sub, .. } => {
                if is_multi(head, sub) {
                    return None;
                }
                (0, true)
            }
            Op::Remove { .. } => (0, false),
            Op::Add { inst, .. } => (inst, true),
            Op::Del { inst, .. } => (inst, false),
            _ => return None,
        };
        Some(Ending {
            key: Key { state, inst },
            adds,
        })
    }

    /// Whether the row goes where the registration ends with this answer.
    pub(crate) fn takes_row(&self, answer: Answer) -> bool
        ensures { result ≡ takes_row self.now.adds answer }
    {
        match answer {
            Answer::Ok(_) => !self.adds,
            _ => self.adds,
        }
    }
}
