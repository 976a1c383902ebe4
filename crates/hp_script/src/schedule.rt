//! The schedule of a script.

use hp_event::Numbers;

/// Whose turns come in which order, before the closing rounds.
#[derive(Drop)]
pub enum Schedule {
    /// Closing rounds alone.
    Rounds,
    /// One turn of each of these seats, in their order.
    Turns(Numbers),
    /// So many turns of seats that are drawn, beginning with this seed.
    Mix { seed: u64, turns: u32 },
}
