//! The run of a script: its actors on a machine, in the interleaving of its schedule.
//!
//! An `Actor` has its operations with their hooks, and says which comes next and how long it waits; it owns no
//! machine. A `Run` owns one, with all actors of a script.
//!
//! `Run::start` seats the thread of each present processor and a client for each actor, and gives each
//! setup a hook of a rack. `play` makes the turns of the schedule, and then rounds until every operation is
//! answered; `turn` makes one turn of any seat. `board` shows the machine, `rests` says what holds where all
//! is answered, and `finish` gives the run up: its hooks go back to the rack. Who makes turns of another kind of actors
//! on a machine of its own has the parts of it: `seated_board`, `present_count`, `actors_of` and `give_back`.
//!
//! Contracts see an actor as an `Agenda` (`specs/Actors.antt`; `Lending.antt` says what it is after its next
//! operation was lent), and how far a run has come, as a `Position` (`Positions.antt`); what a turn, a round and a
//! schedule make of it says `Runs.antt`, by hp_model's `ScriptTurns`, `ScriptRun` and `Schedule`. `Hooks.antt` says
//! which hooks the operations have, and what turns make of them, `Racks.antt` how many setups take of a rack.
//! `ActorTurns.antt`, `RunInvariant.antt` and `PassedOver.antt` are for the clauses of the code: what an actor's turn makes,
//! what holds of a run between two turns, and which actors wait, so that their turns are passed over.
//!
//! The code goes from one actor to the whole: `actor`, `step` for one turn of an actor on a board, `seating`
//! and `start`, `run` for one turn of any seat, `rounds`, `schedule`, `finish`.
#![tactic(auto)]

mod actor;
mod finish;
mod rounds;
mod run;
mod schedule;
mod seating;
mod start;
mod step;

pub use actor::{Actor, Waits};
pub use finish::give_back;
pub use run::Run;
pub use seating::{present_count, seated_board};
pub use start::actors_of;
