//! The machine: a lawful journal with what its events amount to, and the table of what is registered.
//!
//! `next` says what comes next of a seat and its operation, `due` which entry a seat has to make, and
//! `next_due` of which processors entries are due; they change nothing. `make` makes an event that they say,
//! `make_entry` an entry by the hook that stands there, and `make_answered` one by the answer of a hook that
//! was lent. `lent` are the processors for whose entries hooks are lent. `admit` and `leave` let seats in and
//! go. `make` alone reserves room, for the event and for what has to follow it, and gives it back where
//! memory is wanting; an entry and a leave use room that was promised.
//!
//! Contracts see the head, the events, what stands at each state, and the processors for whose entries hooks are
//! lent (`specs/Contents.antt`). The journal is lawful at any time, the account is its, and so is the table
//! (`specs/Machine.antt`), so that no call has that as a condition. What is answered is said by hp_model's
//! definitions: `specs/Next.antt` of what comes next, `specs/Blocked.antt` of refusals and waits,
//! `specs/Admission.antt` of who may come in. Clauses speak of the contents as a whole: `specs/StandsNext.antt` has
//! what can be made next, `MayAsk.antt` what a seat may ask for, `Lent.antt` where the hook of an entry is, and
//! `Refused.antt` the number of a refusal. The other specs are for the machine's own calls. Only `start`, `make`
//! and `admit` take memory, and no call looks at the events.
#![tactic(auto)]

mod admission;
mod entries;
mod files;
mod heads;
mod lending;
mod machine;
mod making;
mod next;
mod refusals;
mod room;
mod upmany;
mod waits;

pub use admission::AdmitError;
pub use heads::{HeadFault, head_fault, names_sub};
pub use machine::Machine;
pub use next::Next;
