//! A pass, as contracts see it.

ghost use Rattle.hp_turn.specs.Pass.{Pass, IsSound};

use crate::view::View;
use atomic_table::Seat;
use std::marker::Model;

/// What a thread takes the lock with that gave it.
///
/// Contracts see its lock, the value's head, its front, its seat if it has one, whether it may
/// admit, its misses, what it took where it holds the lock, the entry that a hook is lent to its
/// seat for if one is, and the pairs of seats and such entries as it last put them back. Of one lock at most one
/// pass may admit, and no two passes have the same seat.
#[derive(Drop)]
pub struct TurnPass<V> {
    pub(crate) seat: Seat<Option<V>, View>,
    pub(crate) taken: u64,
}

impl<V> Model for TurnPass<V> {
    ghost Value = { Pass };

    ghost view = { λ p. record {
      lock = p.seat.table_id;
      head = p.seat.me.0.head;
      front = p.seat.me.0.front;
      seat = p.seat.me.0.seat;
      admits = p.seat.me.0.admits;
      misses = p.seat.me.0.misses;
      held = p.seat.me.0.held;
      aside = p.seat.me.0.aside;
      kept = p.seat.me.0.kept;
    } };

    ghost invariant = { λ p. IsSound p.seat.me p.taken };
}
