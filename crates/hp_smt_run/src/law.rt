//! That there is a run. The function has an empty body: its contract is the law, which callers cite.

ghost use Rattle.std.specs.Prelude.{List};
ghost use Rattle.hp_event.specs.declared.op.Op.{Op as AnOp};
ghost use Rattle.hp_smt_run.specs.Existence.{HasSmtRun};

use hp_event::Head;
use hp_smt::Control;

/// The rounds of a run under SMT control end: each script that can be played, and leaves a seat for the client that
/// writes, has a run, for any number of threads of a core and any write before that of On. `one_smt_run` of hp_smt says
/// that it has no other.
pub fn smt_run_ends(head: &Head, threads: u32, want: Control)
    ensures { (actors : List (List AnOp)) → HasSmtRun head.now threads want actors }
{}
