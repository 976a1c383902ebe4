//! The pass of a processor's thread.

ghost use Rattle.hp_live.specs.Known.{Seated, IsThread};

use crate::seat::Seat;
use hp_hook::Hook;
use std::marker::Model;

/// What the hotplug thread of a processor makes its entries with.
///
/// Contracts see the same as of a client's pass. It must be spent, by `Hotplug::leave_ap`.
pub struct ApPass<H: Hook + Send> {
    pub(crate) own: Seat<H>,
}

impl<H: Hook + Send> Model for ApPass<H> {
    ghost Value = { Seated };

    ghost view = { λ p. p.own };

    ghost invariant = { λ p. IsThread p.own.seat p.own.front };
}
