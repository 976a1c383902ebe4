//! The actors of a script and the threads of its processors, each on a thread of its own.
//!
//! `run_script` starts a machine with the script's head, lets the seats in, runs them, lets them leave, and closes the
//! machine. Who comes first is up to the threads; what holds of the journal, however they come, says
//! `specs/Journals.antt`, by what `Acting.antt` says of one seat.
//!
//! The code goes from one thread to the whole: `acting`, with `outside` and `reading` for one operation, and
//! `serving` are what the threads of actors and of processors do; `starting` and `joining` run all of them;
//! `loading`, `admitting` and `telling` are before them, `ending` after them, and `run` is the whole. `Jobs.antt` says what
//! a thread is given and what comes back, `Crews.antt` what was started, `Admitting.antt` and `Opened.antt` how the
//! run begins, and `Ending.antt` how it ends.
#![tactic(auto)]

mod acting;
mod admitting;
mod ending;
mod job;
mod joining;
mod loading;
mod outside;
mod reading;
mod run;
mod serving;
mod standing;
mod starting;
mod telling;
mod threads;

pub use run::run_script;
