//! The values of the hotplug files: what a read of one of them answers, and what may be written.
//!
//! The `states` file has a line for each state that has a name: `show_states` makes its text of the
//! head and the state table, in one buffer of bytes. Of the other files, `show_number` makes the
//! text of a number and `read_i32` reads it; `check_target` and `check_fail` decide whether a
//! written value is refused, by the value and what is registered alone.
//!
//! The contract of `show_states`: the bytes are exactly those of `states_file` of
//! `specs/StatesFile.antt`, for the names that the table gives, or memory was wanting. `states` of
//! the same file is the states file of a journal. The lemma `states_of_table` says that the two are
//! one text wherever table and journal have the same subsystem at each state.
#![tactic(auto)]

mod numbers;
mod states;
mod writes;

pub use numbers::{BadNumber, read_i32, show_number};
pub use states::show_states;
pub use writes::{check_fail, check_target};
