//! The run of a script under SMT control. The functions have empty bodies: their contracts are the laws, which callers
//! cite.

ghost use Rattle.std.specs.Prelude.{◌≡◌, ◌+◌, ◌≤◌, ℕ, List, length};
ghost use Rattle.hp_event.specs.declared.op.Op.{Op as AnOp};
ghost use Rattle.hp_model.specs.Heads.{IsHead};
ghost use Rattle.hp_model.specs.Headline.{Headline};
ghost use Rattle.hp_model.specs.Lawful.{IsLawful};
ghost use Rattle.hp_model.specs.Processors.{present};
ghost use Rattle.hp_states.specs.declared.limits.TheConstants.{MAX_SEATS};
ghost use Rattle.hp_smt.specs.Run.{SmtState, SmtRunsAreOne, IsSmtRun};

use crate::mode::Control;
use hp_event::Head;

/// A script has one run under SMT control for the threads of a core and a write.
pub fn one_smt_run(head: &Head, threads: u32)
    ensures { (one other : SmtState) → SmtRunsAreOne head.now threads one other }
{}

/// The journal of such a run is lawful, and has the headline, where the head is one that a machine can be started with
/// and there are seats for the actors and the client more.
pub fn smt_run_lawful(head: &Head, threads: u32, want: Control)
    ensures lawful { (actors : List (List AnOp)) (at : SmtState) → IsHead head.now →
        length (present head.now) + length actors + 1 ≤ MAX_SEATS → IsSmtRun head.now threads actors want at →
        IsLawful head.now at.run.events }
    ensures headline { (actors : List (List AnOp)) (at : SmtState) → IsHead head.now →
        length (present head.now) + length actors + 1 ≤ MAX_SEATS → IsSmtRun head.now threads actors want at →
        Headline head.now at.run.events }
{}
