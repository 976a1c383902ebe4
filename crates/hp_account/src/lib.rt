//! The account of a journal: what its events so far amount to.
//!
//! An `Account` says who is in, who holds which lock, where processors stand, which operation holds the map
//! lock, which walks and which registration are in flight and how far they are, and how much room is promised to
//! each. `append` puts one event more into the journal and into the account, `append_entry` an entry, with what
//! is under way then: the entry or the end that comes next in flight (`NextStep`). `change_table` changes the table
//! of states, which holds the hooks and stands beside the journal, as an event does.
//!
//! Its contract is that of hp_model's definitions. `specs/Account.antt` says that each part is the fold of the
//! events, `specs/Table.antt` what the table of states has, meanwhile too, and `specs/UnderWay.antt` what is under
//! way. `FlightNext.antt` and `HookAsked.antt` say what comes next of a walk, and whose hook it calls, in whichever
//! journal that is. The specs named after changes (`After`, `Appending`, `FlightChanges`, `OperationChanges`,
//! `RegisteringChanges`, `BatchTurns`) are steps on the way to these, which only the code's own clauses need. That
//! journal, account and table belong together is a condition of each call here, and a part of the type in
//! hp_machine, which asks the questions. Only `new`, `admit` and `change_table` take memory, and no call looks at
//! the events.
#![tactic(auto)]

mod account;
mod effects;
mod flights;
mod operation;
mod processors;
mod registering;
mod room;
mod seats;
mod suspended;
mod table_changes;
mod under_way;

pub use account::Account;
pub use flights::{Flight, Flights};
pub use operation::{MapOperation, OneWalk, Walks};
pub use processors::Processors;
pub use registering::Registering;
pub use room::need_of_walk;
pub use seats::Seats;
pub use suspended::Suspended;
pub use table_changes::change_table;
pub use under_way::{Ending, Entry, MadeBy, NextStep};
