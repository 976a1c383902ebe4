//! Why a seat has to wait.

/// What a seat's next event waits for. The numbers are seats, but where another is named.
///
/// The first four are answered by the locks, the others by the machine above them. This project's
/// own, after the locks of `kernel/cpu.c` and its `cpuhp_kick_ap`.
#[derive(Clone, Copy, Debug, PartialEq, Eq)]
pub enum Why {
    /// That seat holds the map lock.
    MapsHeld(u32),
    /// That seat holds the write side of the hotplug lock.
    WriterIn(u32),
    /// So many readers, at least 1, hold its read side.
    ReadersIn(u32),
    /// That seat's registration is in flight.
    RegIn(u32),
    /// The hotplug thread of that processor has to make the next entry.
    ApTurn(u32),
    /// The hook of that state is lent.
    HookOut(u32),
    /// No entry is due from this thread.
    Idle,
}
