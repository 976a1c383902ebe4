//! The walks of a freeze, a thaw, a boot and an upmany: which processor walks next, and how the
//! operation ends.
//!
//! The first three walk many processors, one after the other; the walks of an upmany are in flight
//! together. A `Freeze`, a `Thaw`, a `Boot` or a `Batch` walks none itself: `next` says which walk
//! comes next, and `took` is told the answer of a walk; `began` tells a `Batch` that one has begun.
//! They are a few numbers, take no memory and refuse nothing. Which processors the first three
//! walked isn't kept: the lists that `next` is handed tell it, since a walk leaves its processor
//! where its answer says. A batch is a set, which loses a processor where its walk begins. `Turns`
//! is the queue by which the seat of an upmany goes from walk to walk: it takes memory as it is
//! made, and none afterwards.
//!
//! Its contract: of any lists with a place for each processor `next` of the first three answers
//! what `specs/ByLists.antt` says. While the operation is in flight in a lawful journal, and
//! nothing walks unless it is an upmany, that is exactly what hp_model's `next` says of that
//! journal: `specs/ByJournal.antt` says so. `specs/Freezing.antt`, `specs/Thawing.antt`,
//! `specs/Booting.antt` and `specs/Batching.antt` say what each keeps of the journal,
//! `specs/Tables.antt` what the lists are, `specs/Asked.antt` what an answer means. `Turns` moves
//! as hp_model's `BatchQueue` does, whose law says that its front has the turn.
#![tactic(auto)]

mod asked;
mod batch;
mod boot;
mod freeze;
mod judged;
mod law;
mod thaw;
mod turns;

pub use asked::{Asked, WalkAsk};
pub use batch::Batch;
pub use boot::Boot;
pub use freeze::Freeze;
pub use law::{failures_are_few, others_change_nothing, record_rises};
pub use thaw::Thaw;
pub use turns::Turns;
