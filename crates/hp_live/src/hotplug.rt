//! The machine that threads share.

use crate::live::Live;
use crate::wakes::Wakes;
use hp_hook::Hook;
use hp_turn::TurnLock;

/// The machine of CPU hotplug, which threads share by `&`, each with a pass of its own.
///
/// At run time it is the turn lock with the board, and the places where those sleep who have nothing to do: they are
/// woken after each section that made an event by which they may go on.
#[derive(Drop)]
pub struct Hotplug<H: Hook + Send> {
    pub(crate) lock: TurnLock<Live<H>>,
    pub(crate) wakes: Wakes,
}
