//! Per-processor counters: a base, and a part for each processor, folded into the base as the
//! processor goes down.
//!
//! `Counters` follow one state of a journal. On a processor where that is in force something can be
//! added: it stays in the processor's own part until it makes a batch, and what a part holds as its
//! processor goes down is not lost. `count` goes through a whole journal.
//!
//! Its contract: each call changes exactly what `specs/Changes.antt` says of what contracts see, which
//! `specs/Tally.antt` has. Of every lawful journal that they follow, `specs/Stands.antt` says what
//! counters stand for; so after any additions among its events, `total_is_of_the_accepted` says, the
//! total is the sum of those that were accepted (`specs/Steps.antt`). `specs/Counted.antt` says what
//! `count` counts. No call takes memory.
//!
//! After `lib/percpu_counter.c`; that a counter follows a state's entries is this project's own.
#![tactic(auto)]

mod counters;
mod counting;
mod law;
mod limits;

pub use counters::{Counters, Offline};
pub use counting::count;
pub use law::{Step, parts_for_lawful, total_is_of_the_accepted};
pub use limits::{LAST_FOLLOWED, MAX_BATCH};
