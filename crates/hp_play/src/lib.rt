//! `hp_main`: what the program `hp` does.
//!
//! The words of the command line are a command (`hp_command`). `play`, `states`, `report` and `count` read a
//! script, play it on a machine of their own (`hp_actors`), and write the journal of the run and its summary,
//! the states file after it, the journal's report, or the line of counters that went through it (`hp_pcount`).
//! `smt` plays it under SMT control (`hp_smt_run`), and writes that journal, its summary, and what came of the
//! writes. `replay` reads a printed journal, checks it (`hp_replay`), and writes its summary; `migrate` reads
//! one in version 1 so, and writes its text in version 2 and its summary. `gen` writes a generated script, and
//! `bench` plays one and writes the summary alone.
//!
//! `play` (of `play.rt`) plays a script to its journal, and answers the run; its text is made apart from that.
//! What is written of a run, `specs/Outputs.antt` says; what is so of its journal, `specs/Played.antt`, and of
//! the rack, `specs/Racks.antt`; of a run under SMT control, `specs/Controlled.antt`; what each status means,
//! `specs/Main.antt`; and `specs/Calls.antt` says it of what a call was handed, before and now.
#![tactic(auto)]

mod commands;
mod control_text;
mod controlled;
mod count_line;
mod output;
mod play;
mod stop;
mod top;

pub use top::hp_main;
