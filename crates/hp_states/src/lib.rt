//! States, their sections and the rules of a callback's plan.
//!
//! A state is a number from 0 to 200. This crate says which section a state lies in, which states
//! are built in, where a walk may stop and where a callback may fail; and what a plan of rules
//! answers to a call. Every limit of the project has its name here, and `find_word` looks a word up in
//! a table.
//!
//! Its contract is a set of tables, each a definition of `specs/` that a clause cites:
//! `specs/Sections.antt` for the states, `specs/Crossings.antt` for walks across them,
//! `specs/Names.antt` for the form of a name, `specs/Rules.antt` for plans, `specs/Words.antt` for words,
//! `specs/CpuSets.antt` for sets of processors. `answer_by_counts` is
//! the law that a plan's answers can be had from counts, one for each rule. No function takes
//! memory, and none refuses anything but a ninth rule.
#![tactic(auto)]

mod cpu_set;
mod dir;
mod limits;
mod name;
mod no_memory;
mod place;
mod plan;
mod section;
mod word;

pub use cpu_set::CpuSet;
pub use dir::Dir;
pub use limits::{
    AP_ONLINE, BRINGUP_CPU, EAGAIN, EBUSY, EDEADLK, EINVAL, ENOSPC, EPERM, MAX_ACTORS, MAX_CODE,
    MAX_CPU_SET, MAX_CPUS, MAX_EVENTS, MAX_GENERATED_SIZE, MAX_INSTANCE, MAX_INSTANCES,
    MAX_JOURNAL_BYTES, MAX_NAME_LEN, MAX_OPERATIONS, MAX_RULE_CPU, MAX_RULES, MAX_SCRIPT_BYTES,
    MAX_SEATS, MAX_SUBS, MAX_TABLE_INSTANCES, OFFLINE, ONLINE, ONLINE_DYN, ONLINE_DYN_END,
    PREPARE_DYN, PREPARE_DYN_END, TEARDOWN_CPU,
};
pub use name::{is_name, is_name_byte};
pub use no_memory::NoMemory;
pub use place::Place;
pub use plan::{HookPlan, Rule, answer_by_counts};
pub use section::{
    Range, Section, builtin_name, can_stop, first_state, is_ap, is_atomic, is_builtin, may_fail,
    section_of,
};
pub use word::find_word;
