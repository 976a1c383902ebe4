//! The run of a script under SMT control.
//!
//! The actors of a script have their turns in rounds, whatever its schedule, on a machine with SMT control; and after
//! them one client more, which writes a mode and then On. An operation of an actor that is denied has ended. The run is
//! over where each operation is answered or denied, and both writes are answered.
//!
//! `SmtRun::start` seats the threads, the actors and the client, `play` makes the rounds, and `finish` gives the run up: its
//! hooks go back to the rack. What the run is, hp_smt says (`specs/Run.antt` there): `play` makes exactly that, and
//! `smt_run_ends` says that there is one. Here `specs/Reached.antt` says how far a run is after some turns, `Playing.antt`
//! what holds of it between two turns and what a turn makes, `Asked.antt` what a turn makes of an actor, and `Hooks.antt` of
//! the hooks of operations.
#![tactic(auto)]

mod finish;
mod law;
mod play;
mod run;
mod step;
mod turns;
mod written;

pub use law::smt_run_ends;
pub use run::SmtRun;
pub use written::Written;
