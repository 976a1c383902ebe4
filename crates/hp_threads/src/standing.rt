//! Where an actor stands between two operations.

use hp_hook::Hook;
use hp_live::{Pass, ReadPass};

/// An actor between two operations: outside of read sections, or in one. Its pass must be spent.
pub(crate) enum Standing<H: Hook + Send> {
    Outside(Pass<H>),
    Inside(ReadPass<H>),
}
