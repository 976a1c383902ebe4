//! Laws of the definitions, as functions with empty bodies.

ghost use Rattle.hp_trace_walk.specs.Answered.{TablesAreExact};
ghost use Rattle.hp_trace_walk.specs.Entries.{EntriesAreExact};

/// What is known of a state tells exactly whether a table can have it as it was asked.
pub fn entries_are_exact()
    ensures { EntriesAreExact }
{}

/// A state is shut by what is asked of it exactly where there is no table that answers all that was asked, and that is
/// another at a state only behind a registration of it.
pub fn tables_are_exact()
    ensures { TablesAreExact }
{}
