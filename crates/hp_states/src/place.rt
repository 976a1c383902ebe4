//! What an entry is made for.

/// What an entry is made for, and so a callback called. A walk goes forward, and after a fault its
/// rollback goes back; adding goes on over the processors, and after a fault its rollback undoes it.
/// After the loops of `cpuhp_invoke_callback_range` and `__cpuhp_setup_state_cpuslocked` of
/// `kernel/cpu.c`.
#[derive(Clone, Copy, Debug, PartialEq, Eq)]
pub enum Place {
    /// A walk on its way to its target.
    Forward,
    /// The rollback of a walk after a fault, over the states that it had crossed.
    Back,
    /// The rollback of the earlier instances of a state at whose instance a fault came.
    Part,
    /// Adding a state or an instance on the processors that are at or above it.
    Add,
    /// The rollback of an adding after a fault, on the processors before it.
    Undo,
    /// Removing a state or an instance.
    Remove,
}
