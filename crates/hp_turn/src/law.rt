//! The rule of the lock's table, and what each kind of step tells.

ghost use Rattle.std.specs.Prelude.{true};
ghost use Rattle.hp_turn.specs.Turn.{Kept, locked, counted, released, learned};
ghost use Rattle.hp_turn.specs.Views.{fresh, split_left, split_right, joined, spent};

use crate::grown::Grown;
use crate::view::View;
use atomic_table::{Join, Play, Split, TableRule};
use std::marker::PhantomData;
use std::snapshot::Snapshot;

/// The rule that a lock's table keeps, which `specs/Turn.antt` states. No value of it is made.
pub struct Law<V> {
    of: PhantomData<V>,
}

impl<V: Grown> TableRule<Option<V>, View, Snapshot<V>> for Law<V> {
    ghost holds = { λ _. Kept V.head V.story V.aside };

    ghost first = { λ k. fresh (V.head k.value) (V.story k.value) true };
}

// The compare exchange that takes the lock.
pub(crate) struct Locks<V> {
    of: PhantomData<V>,
}

impl<V: Grown> Play<Option<V>, View> for Locks<V> {
    ghost then = { λ s m r n. locked V.head V.story V.aside m r n };
}

// The fetch and add by which what a section added is told.
pub(crate) struct Counts<V> {
    of: PhantomData<V>,
}

impl<V: Grown> Play<Option<V>, View> for Counts<V> {
    ghost then = { λ s m r n. counted V.head V.story V.aside m n };
}

// The swap that gives the lock back.
pub(crate) struct Releases;

impl<V> Play<Option<V>, View> for Releases {
    ghost then = { λ s m r n. released m n };
}

// The load after a join.
pub(crate) struct Learns;

impl<V> Play<Option<V>, View> for Learns {
    ghost then = { λ s m r n. learned m n };
}

// The split of a pass.
pub(crate) struct Cut;

impl Split<View> for Cut {
    ghost left = { split_left };

    ghost right = { split_right };
}

// The join of two passes.
pub(crate) struct Glue;

impl Join<View> for Glue {
    ghost both = { joined };

    ghost spent = { spent };
}
