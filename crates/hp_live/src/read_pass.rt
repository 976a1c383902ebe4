//! The pass of a client in a read section.

ghost use Rattle.std.specs.Prelude.{◌≡◌, IsSome, None, Some, false, length};
ghost use Rattle.hp_event.specs.declared.event.Role.TheVariants.{Client as AClient};
ghost use Rattle.hp_live.specs.ReadSections.{Reader, IsReader, IsOnlineThroughout};
ghost use Rattle.hp_model.specs.Lawful.{IsLawful};
ghost use Rattle.hp_model.specs.Readers.{reading_since};
ghost use Rattle.hp_model.specs.Seats.{is_busy, role_of};

use crate::seat::Seat;
use hp_hook::Hook;
use hp_states::CpuSet;
use std::marker::Model;

/// What a client's seat takes its turns with in a read section, from its ReadLock to its ReadUnlock.
///
/// Contracts see what they see of a client's pass (`pass`), and the processors that are online throughout the
/// section (`online`). Between two calls no operation of the seat is in flight, and the pass carries no hook.
/// It must be spent, by `Hotplug::read_unlock`.
pub struct ReadPass<H: Hook + Send> {
    pub(crate) own: Seat<H>,
    pub(crate) online: CpuSet,
}

impl<H: Hook + Send> Model for ReadPass<H> {
    ghost Value = { Reader };

    ghost view = { λ r. record { pass = r.own; online = r.online } };

    ghost invariant = { λ r. IsReader r.own r.online };
}

impl<H: Hook + Send> ReadPass<H> {
    /// The processors that are online throughout the section: just these were at its ReadLock, and just these
    /// are at each front of the pass's from there on.
    ///
    /// Takes no lock and no memory, and waits for nobody. After `cpu_online_mask` of `kernel/cpu.c` under
    /// `cpus_read_lock`.
    pub fn online(&self) -> CpuSet
        ensures set { result ≡ self.now.online }
        ensures throughout { IsOnlineThroughout self.now self.now.pass.front }
    {
        self.sound();
        self.online
    }

    /// How many events the pass has seen. Takes no memory, and waits for nobody.
    pub fn seen(&self) -> u64
        ensures { result ≡ length self.now.pass.front }
    {
        self.own.sight.seen
    }

    /// What is so of every pass in a read section: its front is a lawful journal, in which its seat is in as a
    /// client, reads, and has nothing in flight; and it carries no hook. It does nothing.
    pub fn sound(&self)
        ensures lawful { IsLawful self.now.pass.head self.now.pass.front }
        ensures role { role_of self.now.pass.seat self.now.pass.front ≡ Some AClient }
        ensures reading { IsSome (reading_since self.now.pass.seat self.now.pass.front) }
        ensures idle { is_busy self.now.pass.seat self.now.pass.front ≡ false }
        ensures nothing { self.now.pass.lent ≡ None }
    {
        let _ = &self.own;
        self.own.sight.sound();
    }
}
