//! The tests of hp_script: a script that is read, with what it says, scripts that are refused for how much they hold,
//! each with its line and kind, and generated scripts.

mod generator;
mod refusals;
mod scripts;
