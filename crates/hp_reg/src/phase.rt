//! Where a registration's entries stand.

/// Where a registration's entries stand, between two of them.
#[derive(Clone, Copy)]
pub enum Phase {
    /// The entries on the processors below `from` are made.
    Making { from: u32 },
    /// The entry on the processor `failed` was a fault with this code, and of the processors before
    /// it those below `from` are undone.
    Undoing { from: u32, failed: u32, code: u32 },
}
