//! The lock, and the answer of one that is taken.

// They stand apart from the lock's calls, since a struct with a ghost field imports all that the
// clauses of its file name.
ghost use Rattle.std.specs.Prelude.{◌≡◌};

use crate::grown::Grown;
use crate::law::Law;
use crate::view::View;
use atomic_table::Table;
use std::alloc::Global;
use std::snapshot::Snapshot;

/// The lock is taken. The pass that tried has one more miss, and is otherwise as before.
#[derive(Clone, Copy, Debug, PartialEq, Eq)]
pub struct Busy;

/// A lock with a value that only grows. Threads share it by `&`, each with a pass of its own.
///
/// At run time it is two words, whether it is held and the length of the story, and a slot with the
/// value, which is empty while the lock is held.
#[derive(Drop)]
pub struct TurnLock<V: Grown> {
    pub(crate) table: Table<Option<V>, View, Snapshot<V>, Law<V>, Global>,
    ghost sized: { (table.shared.table_id.words ≡ 2) × (table.shared.table_id.slots ≡ 1) },
}
