//! Words: how what scripts and journals share is read from words, and how it is spelled.
//!
//! Words say a value, or aren't of the form, or are of the form and have a number that is out of
//! its range (`Unread`). They come one by one from any `Words`: how a line is parted into words is each
//! text's own rule.
//!
//! To read the definitions, take `specs/Numbers.antt` and `Readings`, which say what a word and all
//! the words that are left say; `Choices` and `FirstWords` for words of which each is one of a few;
//! `Flags`, `Sets` and `Lists`, and then `OpAt` for operations and `Subs` for subsystems and rules. `Fits`
//! has the values that words can say, and `Appends` what is spelled. What is read is defined apart
//! from how it is spelled (`EventLine.antt` of hp_model), and that both are inverse to each other
//! is a part of the readers' contracts.
#![tactic(auto)]

mod choices;
mod first_word;
mod fits;
mod flags;
mod lists;
mod numbers;
mod op;
mod pieces;
mod set;
mod spell;
mod spell_op;
mod spell_sub;
mod subs;
mod tails;
mod unread;
mod words;

pub use choices::{dir_of, is_name};
pub use first_word::{OpWord, op_word};
pub use fits::{integer_fits, number_fits, op_fits};
pub use lists::{number_list, number_list_or_dash, rise_from};
pub use numbers::{integer, long_number, number, number_from};
pub use op::{read_op, read_op_behind};
pub use pieces::{
    FEW, FEW_DIGITS, push, push_few, push_first, push_number, push_pair, put_back, take_out,
};
pub use spell::{
    append, append_behind_dot, append_count, append_dir, append_name, append_number,
    append_numbers, append_of, append_signed, end_line,
};
pub use spell_op::append_op;
pub use spell_sub::{append_rule, append_sub};
pub use subs::{rule, sub};
pub use tails::{both, done, number_alone};
pub use unread::Unread;
pub use words::Words;
