//! The cache of one processor.

use std::collections::LinkedList;

/// The items of one processor, and whether items can be put there.
#[derive(Drop)]
pub(crate) struct Cache {
    pub(crate) is_open: bool,
    pub(crate) items: LinkedList<u32>,
}
