//! Scripts: their lines, what each says, and the first that is refused; and scripts that are
//! generated.
//!
//! [`parse`] reads a script whole, or says which line is refused first, and why. What that means is
//! in `specs/`, to be read in this order: `Pieces` (lines), `Words`, `Verbs` (first words),
//! `Statements` (what a line says: most of it as hp_text reads it), `Ranges`, `Before` (what stood before a
//! line), `Refusals` (the conditions of a line in their order, and those at the end), `Script` (the
//! script that lines say), `Judged` (what `parse` answers), `Playable` (what holds of each script
//! that is read) and `Schedules` (a schedule as the run of a script takes it). [`one_refusal`] is the
//! law that at most one line and one kind are refused, [`read_scripts_play`] that each script that is
//! read can be played.
//!
//! [`generate`] writes the script of a seed and a size: its lines are in `Generated`, drawn by
//! [`Draws`], which a mixed schedule draws its seats by too. [`generated_scripts_read`] is the law
//! that none of its lines is refused where there are twelve hooks, and
//! [`generated_scripts_want_hooks`] says at which line it is refused where there are fewer; both are
//! stated in `GeneratedJudged`.
//!
//! The code goes the same way: `words`, `verb`, `statement` for what a line says, `ranges` for its
//! numbers, `before` for what may stand, `line` for one line,
//! `draft` for the script that grows, `reader` for all lines; then `draws`, `drawn` for what is drawn
//! for an actor, and `generator` for the lines that are written. Small scripts, judged by computing
//! the definitions alone, stand beside the lemmas, in `Cases.antt`.
//!
//! ```text
//! cpus 2
//! sub net:a both single
//! actor a
//! setup 120 1
//! up 1
//! ```
#![tactic(auto)]

mod before;
mod draft;
mod drawn;
mod draws;
mod error;
mod generator;
mod limits;
mod line;
mod ranges;
mod reader;
mod schedule;
mod script;
mod statement;
mod stop;
mod verb;
mod words;

pub use draws::Draws;
pub use error::{ParseError, ScriptKind};
pub use generator::{generate, generated_scripts_read, generated_scripts_want_hooks};
pub use reader::{one_refusal, parse, read_scripts_play};
pub use schedule::Schedule;
pub use script::Script;
