//! The limits of what a script may name; those of a script as such are `hp_states`'s.

/// The highest processor that an operation may name.
pub const MAX_NAMED_CPU: u32 = 4095;
/// The highest number that a setup, a remove, an add or a del may have for its state; which of them
/// are states, the machine says.
pub const MAX_NAMED_STATE: u32 = 65_535;
/// The most turns of a mixed schedule.
pub const MAX_MIXED: u32 = 1_000_000;
/// The highest seed of a mixed schedule.
pub const MAX_SEED: u64 = 18_446_744_073_709_551_615;
/// The highest value that a file may be written.
pub const MAX_I32: u32 = 2_147_483_647;
/// The lowest such value, without its sign.
pub const MIN_I32: u32 = 2_147_483_648;
