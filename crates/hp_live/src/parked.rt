//! Passes on their way to another thread.

ghost use Rattle.std.specs.Prelude.{◌≡◌, None};
ghost use Rattle.hp_live.specs.Known.{Seated, IsOut, IsSeat, IsThread};

use crate::ap_pass::ApPass;
use crate::pass::Pass;
use crate::seat::Seat;
use crate::sight::Sight;
use hp_hook::Hook;
use std::marker::Model;

/// A client's pass that carries no hook, on its way to another thread: what a thread is given has to be
/// droppable, which a pass isn't.
///
/// Contracts see the same as of the pass. It is to be resumed: where it is dropped its seat never leaves.
#[derive(Drop)]
pub struct Parked<H: Hook + Send> {
    pub(crate) sight: Sight<H>,
    pub(crate) number: u32,
    pub(crate) sections: u64,
    pub(crate) busy: bool,
}

impl<H: Hook + Send> Model for Parked<H> {
    ghost Value = { Seated };

    ghost view = { λ p. record {
      lock = p.sight.lock;
      head = p.sight.head;
      front = p.sight.front;
      seat = p.number;
      misses = p.sight.misses;
      lent = None;
      kept = p.sight.kept;
    } };

    ghost invariant = { λ p. IsSeat p.sight p.number None × IsOut p.number p.sight.front };
}

/// The same of the pass of a processor's thread.
#[derive(Drop)]
pub struct ParkedAp<H: Hook + Send> {
    pub(crate) sight: Sight<H>,
    pub(crate) number: u32,
    pub(crate) sections: u64,
    pub(crate) busy: bool,
}

impl<H: Hook + Send> Model for ParkedAp<H> {
    ghost Value = { Seated };

    ghost view = { λ p. record {
      lock = p.sight.lock;
      head = p.sight.head;
      front = p.sight.front;
      seat = p.number;
      misses = p.sight.misses;
      lent = None;
      kept = p.sight.kept;
    } };

    ghost invariant = { λ p. IsSeat p.sight p.number None × IsThread p.number p.sight.front };
}

impl<H: Hook + Send> Pass<H> {
    /// The pass, to be given to another thread. Condition: it carries no hook. Takes no memory.
    pub fn park(self) -> Parked<H>
        requires { self.lent ≡ None }
        ensures { result ≡ self }
    {
        let Pass { own } = self;
        let Seat {
            sight,
            number,
            sections,
            busy,
            back,
        } = own;
        let None = back else { unreachable!() };
        Parked {
            sight,
            number,
            sections,
            busy,
        }
    }
}

impl<H: Hook + Send> Parked<H> {
    /// The pass again. Takes no memory.
    pub fn resume(self) -> Pass<H>
        ensures { result ≡ self }
    {
        let Parked {
            sight,
            number,
            sections,
            busy,
        } = self;
        Pass {
            own: Seat {
                sight,
                number,
                sections,
                busy,
                back: None,
            },
        }
    }
}

impl<H: Hook + Send> ApPass<H> {
    /// The pass, to be given to another thread. Condition: it carries no hook. Takes no memory.
    pub fn park(self) -> ParkedAp<H>
        requires { self.lent ≡ None }
        ensures { result ≡ self }
    {
        let ApPass { own } = self;
        let Seat {
            sight,
            number,
            sections,
            busy,
            back,
        } = own;
        let None = back else { unreachable!() };
        ParkedAp {
            sight,
            number,
            sections,
            busy,
        }
    }
}

impl<H: Hook + Send> ParkedAp<H> {
    /// The pass again. Takes no memory.
    pub fn resume(self) -> ApPass<H>
        ensures { result ≡ self }
    {
        let ParkedAp {
            sight,
            number,
            sections,
            busy,
        } = self;
        ApPass {
            own: Seat {
                sight,
                number,
                sections,
                busy,
                back: None,
            },
        }
    }
}
