//! The pass that admits.

ghost use Rattle.hp_live.specs.Known.{Known, IsRoot};

use crate::sight::Sight;
use hp_hook::Hook;
use std::marker::Model;

/// The pass without seat, by which seats are admitted and to which they come back.
///
/// Contracts see the machine that gave it, the head, and its front, which is the journal as it last saw it.
#[derive(Drop)]
pub struct Root<H: Hook + Send> {
    pub(crate) sight: Sight<H>,
}

impl<H: Hook + Send> Model for Root<H> {
    ghost Value = { Known };

    ghost view = { λ r. record { lock = r.sight.lock; head = r.sight.head; front = r.sight.front } };

    ghost invariant = { λ r. IsRoot r.sight };
}
