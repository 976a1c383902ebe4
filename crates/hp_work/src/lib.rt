//! Per-processor work queues: items that are put on a processor run there in their order, and move on as a whole where
//! the processor goes down.
//!
//! `Queues` follow one state of a journal. On a processor where that is in force items can be put. As the processor goes
//! down, its queue moves, whole and in order, to the tail of that of the lowest open processor; where none is open, to the
//! unbound list, which the next processor that opens takes. `drain` ends it: it answers what is left.
//!
//! Its contract: each call changes exactly what `specs/Changes.antt` says of what contracts see, which `specs/Work.antt`
//! has. Of every lawful journal that they follow, `specs/Follows.antt` says which processors are open. So after any puts
//! and runs among its events, `items_stand_once` says, each item stands exactly once in what ran, the queues and the
//! unbound list; and two items of one processor keep their order, says `items_keep_their_order` (`specs/Steps.antt`).
//! `specs/Drained.antt` says what `drain` answers, and `specs/Worked.antt` what `go_through` makes of a whole journal.
//!
//! The items stand in a slab, in which those of a list are linked (`specs/Chained.antt`): a queue moves by one link,
//! however long it is. Room is made at the start, and no call but `new` and `drain` takes memory.
//!
//! After `struct worker_pool` and `unbind_workers` of `kernel/workqueue.c`; that queues follow a state's entries is this
//! project's own.
#![tactic(auto)]

mod chains;
mod drain;
mod going;
mod law;
mod limits;
mod queues;

#[doc(hidden)]
pub use chains::{Chain, Chains, Node};
pub use drain::{Drain, Drained, Drains};
pub use going::go_through;
pub use law::{Step, items_keep_their_order, queues_for_lawful};
pub use limits::{LAST_FOLLOWED, MAX_ITEMS};
pub use queues::{PutError, Queues};
