//! What the words of the command line ask for.
//!
//! `command_of` finds the command that the words are; `specs/Commands.antt` and `specs/Options.antt`
//! say which words are which command, and the answer is exact: a command comes of its words, of all
//! of them, and of no others. The crate `clap` reads the options. What it makes of words is proved
//! here of the command that it is given: it takes the words of the two options, and other words it
//! refuses. Values are read here, since `clap` takes more than decimal digits for a number.
#![tactic(auto)]

mod command;
mod controlling;
mod counting;
mod law;
mod number;
mod options;
mod texts;

pub use command::{Command, command_of};
pub use controlling::{ControlMode, Controlling};
pub use counting::Counting;
pub use law::words_determine_the_command;
pub use number::number_of;
pub use options::Options;
pub use texts::can_be_options;
