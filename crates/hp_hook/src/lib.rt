//! Hooks: the callbacks of subsystems.
//!
//! A subsystem's startup and teardown are calls of its hook. A hook has a plan of rules, counts
//! the calls that each rule matches, and answers each call by the plan: 0, or the code of a fault.
//! The trait `Hook` says this once for every hook, the one of a script, a test's own or one behind
//! a box, and crates above are generic in it.
//!
//! Its contract is that of `Hook::call`, in the words of `specs/Rules.antt` of `hp_states`: the
//! counts of the rules that match the site are raised, and the answer is that of the raised counts.
//! `answer_by_counts` of `hp_states` says what that means of all calls since the plan was set.
//! `CountedPlan` is the plan with its counts as plain data, of which can be asked what would be
//! answered next. `specs/Counted.antt` has what contracts see of every hook (`Counts`), what a hook
//! that has counted so much answers, and what it has counted then.
//!
//! No call of a hook takes memory.
#![tactic(auto)]

mod hook;
mod rack;
mod script_hook;
#[cfg(test)]
mod tests;

pub use hook::Hook;
pub use rack::Rack;
pub use script_hook::{CountedPlan, ScriptHook};
