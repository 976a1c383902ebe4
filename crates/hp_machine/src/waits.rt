//! What an operation waits for.

ghost use Rattle.std.specs.Prelude.{◌≡◌, option_map};
ghost use Rattle.hp_model.specs.Batch.{is_batch_begun};
ghost use Rattle.hp_model.specs.Waits.{wait_to_begin, wait_to_walk};
ghost use Rattle.hp_account.specs.Locks.{why_of};

use crate::machine::Machine;
use hp_event::Op;
use hp_hook::Hook;
use hp_locks::Why;

impl<H: Hook> Machine<H> {
    /// What an operation waits for before it begins, if anything keeps it.
    ///
    /// An operation of the map lock waits for its holder, a target then for a registration too, which
    /// also keeps out the arming of a fault and the `states` file; a read section waits for the
    /// writer, and a registration for the writer and then for another one. Everything else begins at
    /// once. There is no condition. Takes no memory, and a time that doesn't grow with the journal.
    /// After `cpu_add_remove_lock`, `cpu_hotplug_lock` and `cpuhp_state_mutex` of `kernel/cpu.c`; that
    /// nobody waits behind a walk that waits, as readers and registrations do there, is this project's own.
    #[tactic(auto, using(crate::proofs::LockWaits::read_said, crate::proofs::LockWaits::register_said))]
    pub(crate) fn wait_to_begin(&self, op: &Op) -> Option<Why>
        ensures { result ≡ option_map why_of (wait_to_begin self.now.events op.now) }
    {
        let locks = &self.account.locks;
        match *op {
            Op::Target(..) => locks.wait_for_map().or(locks.wait_for_registration()),
            Op::Arm(_, -1) => None,
            Op::Arm(..) | Op::ShowStates => locks.wait_for_registration(),
            Op::Lock => locks.wait_to_read(),
            Op::Setup { .. } | Op::Remove { .. } | Op::Add { .. } | Op::Del { .. } => {
                locks.wait_to_register()
            }
            _ if op.takes_map() => locks.wait_for_map(),
            _ => None,
        }
    }

    /// What a walk waits for before it begins, if anything keeps it: readers, and then a registration. The
    /// later walks of an upmany wait for nothing.
    ///
    /// There is no condition. Takes no memory. After `cpus_write_lock` of `kernel/cpu.c`, for which a
    /// registration is a reader; the order is this project's own.
    pub(crate) fn wait_to_walk(&self) -> Option<Why>
        ensures { result ≡ option_map why_of (wait_to_walk self.now.events) }
    {
        if self.has_batch_begun() {
            return None;
        }
        self.account.locks.wait_to_write()
    }

    /// Whether an upmany is in flight and has begun a walk. Takes no memory.
    fn has_batch_begun(&self) -> bool
        ensures { result ≡ is_batch_begun self.now.events }
    {
        match self.account.batch() {
            Some((_, batch)) => batch.is_begun(),
            None => false,
        }
    }
}
