//! The state table: what is registered at each state, and its instances.
//!
//! A table has a place for each state from 0 to 200, as `cpuhp_hp_states` of `kernel/cpu.c` has.
//! Nine places are built in and have a name from the start. At the others a `Record` may be
//! installed: a subsystem with its hook. A state whose record is multi has a list of instances.
//! The table is generic in the hook: a program puts `Box<dyn Hook + Send>` there.
//!
//! Its contract: a table is a map from states to records with instance lists, a call changes what
//! its clause names and nothing else, each refusal is exact, and a refused record is handed back.
//! `specs/Step.antt` says what contracts see of a table, `specs/Kept.antt` what they see of a
//! record, `specs/Sound.antt` what is so of every table. `specs/Named.antt`, `Slots.antt`,
//! `Instances.antt` and `Keys.antt` have one notion each.
#![tactic(auto)]

mod error;
mod record;
mod registered;
mod table;

pub use error::TableError;
pub use record::Record;
pub use table::Table;
