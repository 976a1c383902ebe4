//! The pass of a client.

ghost use Rattle.hp_live.specs.Known.{Seated, IsOut};

use crate::seat::Seat;
use hp_hook::Hook;
use std::marker::Model;

/// What a client's seat takes its turns with, outside of read sections.
///
/// Contracts see the machine that gave it, the head, its front, which is the journal as it last saw it, its
/// seat, and how often its tries found the lock taken. It may carry a hook that was lent to it by a try and
/// has answered; contracts see the entry that this is for, and all that is lent as the pass last left it. It must be
/// spent: by `Hotplug::leave`, or by `read_lock`.
pub struct Pass<H: Hook + Send> {
    pub(crate) own: Seat<H>,
}

impl<H: Hook + Send> Model for Pass<H> {
    ghost Value = { Seated };

    ghost view = { λ p. p.own };

    ghost invariant = { λ p. IsOut p.own.seat p.own.front };
}
