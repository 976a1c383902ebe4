//! Laws of queues, as functions with empty bodies.

ghost use Rattle.std.specs.Prelude.{All};
ghost use Rattle.hp_model.specs.Lawful.{IsLawful};
ghost use Rattle.hp_work.specs.Follows.{HasQueue};
ghost use Rattle.hp_work.specs.Steps.{KeepsOrder};

use hp_event::{Event, Head};

/// A step of queues among the events of a journal. It is there for laws to speak of.
pub enum Step {
    /// They follow an event.
    Follow(Event),
    /// An item is put on a processor, where that can be.
    Put { cpu: u32 },
    /// The front of a processor's queue runs, if it has one.
    Run { cpu: u32 },
}

/// Every entry of a lawful journal is of a processor that there is a queue for.
pub fn queues_for_lawful(head: &Head, events: &[Event])
    ensures { IsLawful head.now events.now → All HasQueue events.now }
{}

/// Two items that are put on one processor, with no move of its queue between the two puts, keep their order, whatever
/// steps come later: the first comes before the second in what ran, or in one queue or the unbound list, or has run, and
/// the second hasn't.
pub fn items_keep_their_order(
    state: u32,
    cpu: u32,
    before: &[Step],
    between: &[Step],
    behind: &[Step],
)
    ensures { KeepsOrder state cpu before.now between.now behind.now }
{}
