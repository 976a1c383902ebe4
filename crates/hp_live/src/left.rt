//! What a pass leaves.

ghost use Rattle.hp_live.specs.Known.{Gone, IsGone};

use crate::sight::Sight;
use hp_hook::Hook;
use std::marker::Model;

/// What a pass has seen whose seat has left: the root meets it.
///
/// Contracts see the machine that gave it, the head, its front, and the seat.
#[derive(Drop)]
pub struct Left<H: Hook + Send> {
    pub(crate) sight: Sight<H>,
    pub(crate) seat: u32,
}

impl<H: Hook + Send> Model for Left<H> {
    ghost Value = { Gone };

    ghost view = { λ l. record {
      lock = l.sight.lock;
      head = l.sight.head;
      front = l.sight.front;
      seat = l.seat;
    } };

    ghost invariant = { λ l. IsGone l.sight };
}
