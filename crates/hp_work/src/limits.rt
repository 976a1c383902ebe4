//! What queues can follow, and how many items they take.

/// The last state that queues can follow: 199 is built in, and 200 is the highest.
pub const LAST_FOLLOWED: u32 = 198;
/// How many items can be put.
pub const MAX_ITEMS: u32 = 4096;
