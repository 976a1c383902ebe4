//! What the thread of an actor is given.

use hp_board::Ask;
use hp_hook::Hook;
use hp_live::Parked;

/// An actor: its pass on the way to the thread, and its operations, each with its hook.
#[derive(Drop)]
pub(crate) struct Job<H: Hook + Send> {
    pub(crate) pass: Parked<H>,
    pub(crate) asks: Vec<Ask<H>>,
}
