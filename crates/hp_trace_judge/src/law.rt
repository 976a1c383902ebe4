//! A law of the definitions, as a function that does nothing.

ghost use Rattle.hp_trace_judge.specs.Lawful.{WalksAreExact};

use hp_trace_walk::tables_are_exact;

/// Walks are said to be lawful exactly where each event is one that a walk or a registration can have and there is a table
/// of states that answers all that they ask; and else the event that is named is the first with which they aren't.
pub fn walks_are_exact()
    ensures { WalksAreExact }
{
    tables_are_exact();
}
