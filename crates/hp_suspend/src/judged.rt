//! What an answer of a walk says of it.

ghost use Rattle.std.specs.Prelude.{◌≡◌};
ghost use Rattle.hp_suspend.specs.Booting.{is_fault as is_fault_of};

use hp_event::Answer;

/// Whether the walk turned back to where it began.
pub(crate) fn is_fault(answer: Answer) -> bool
    ensures { result ≡ is_fault_of answer }
{
    matches!(answer, Answer::Fault(_))
}
