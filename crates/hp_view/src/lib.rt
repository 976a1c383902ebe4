//! `view_main`: what the program `hpview` does.
//!
//! The words of the command line ask for a window of events (`asked.rt`; the crate `clap` reads the options). A journal
//! is read and checked as `hp replay` does it, the window is chosen of it (`window.rt`), and its picture is written,
//! which is that of `hp_timeline`.
//!
//! Which words ask for what, `specs/Options.antt` says; which window that is, `specs/Chosen.antt`; what each status
//! means, `specs/Main.antt`; and `specs/Calls.antt` says it of what a call was handed, before and now.
#![tactic(auto)]

mod asked;
mod law;
mod show;
mod stop;
mod texts;
mod top;
mod window;

pub use asked::Asked;
pub use law::words_ask_once;
pub use top::{BAD_WINDOW, view_main};
pub use window::MAX_SHOWN;
