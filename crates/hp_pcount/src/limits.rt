//! What counters can follow, and how much a part can hold.

/// The last state that counters can follow: 199 is built in, and 200 is the highest.
pub const LAST_FOLLOWED: u32 = 198;
/// The largest batch.
pub const MAX_BATCH: u32 = 1_000_000;
