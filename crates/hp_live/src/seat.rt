//! What a seat takes its sections with.

ghost use Rattle.hp_live.specs.Known.{Seated, IsSeat};

use crate::sight::Sight;
use hp_board::Back;
use hp_hook::Hook;
use std::marker::Model;

/// What a seat takes its sections with: its pass of the lock, how many sections it took, whether its operation is in flight,
/// and the hook that was lent to it and has answered, if there is one.
pub(crate) struct Seat<H: Hook + Send> {
    pub(crate) sight: Sight<H>,
    pub(crate) number: u32,
    pub(crate) sections: u64,
    pub(crate) busy: bool,
    pub(crate) back: Option<Back<H>>,
}

impl<H: Hook + Send> Model for Seat<H> {
    ghost Value = { Seated };

    ghost view = { λ s. record {
      lock = s.sight.lock;
      head = s.sight.head;
      front = s.sight.front;
      seat = s.number;
      misses = s.sight.misses;
      lent = s.back;
      kept = s.sight.kept;
    } };

    ghost invariant = { λ s. IsSeat s.sight s.number s.back };
}
