//! SMT control: the siblings of a core can be kept off.
//!
//! An `Smt` is a machine whose processors are the threads of cores. Clients and threads have their turns as on a `Board`,
//! but an operation that would bring a sibling up is denied while the mode isn't On; and a client may write to `control`:
//! Off and ForceOff take the siblings down and record them, On brings the recorded ones up.
//!
//! Contracts see the machine, the threads of a core and the setting (`specs/Contents.antt`). `Siblings.antt` says which
//! processors are siblings and which operations bring one up, `Modes.antt` and `Writes.antt` what a write of control makes
//! of machine and setting, as a function, and `Turns.antt` what a turn answers by it. `Shut.antt` is what holds while no
//! sibling may be online, `Brought.antt` what a write of On has done, `Sound.antt` what is so at any time, and
//! `Hooks.antt` what becomes of the hook that is asked with. `Run.antt` is the run of a script beside a client more that
//! writes a mode and then On; `run.rt` has what is so of it, and hp_smt_run makes it.
#![tactic(auto)]

mod control;
mod mode;
mod run;
mod setting;
mod siblings;
mod smt;
mod turn;

pub use mode::{Control, Mode};
pub use run::{one_smt_run, smt_run_lawful};
pub use setting::{Setting, Write};
pub use siblings::{is_sibling, is_up_of_sibling};
pub use smt::Smt;
pub use turn::SmtTurn;
