//! Laws of counters, as functions with empty bodies.

ghost use Rattle.std.specs.Prelude.{All};
ghost use Rattle.hp_model.specs.Lawful.{IsLawful};
ghost use Rattle.hp_pcount.specs.Places.{HasPart};
ghost use Rattle.hp_pcount.specs.Steps.{SumsAccepted};

use hp_event::{Event, Head};

/// A step of counters among the events of a journal. It is there for laws to speak of.
pub enum Step {
    /// They follow an event.
    Follow(Event),
    /// So much is added on a processor.
    Add { cpu: u32, by: i32 },
}

/// Every entry of a lawful journal is of a processor that counters have a part for.
pub fn parts_for_lawful(head: &Head, events: &[Event])
    ensures { IsLawful head.now events.now → All HasPart events.now }
{}

/// After any additions on processors that counters have parts for, among the events of a lawful
/// journal and in any order with them, counters that follow a state stand at the sum of the accepted
/// ones: those made while the state was in force on their processor.
pub fn total_is_of_the_accepted(head: &Head, state: u32, batch: u32, steps: &[Step])
    ensures { SumsAccepted head.now state batch steps.now }
{}
