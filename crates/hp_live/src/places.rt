//! Sets of places.

use hp_states::CpuSet;
use std::sync::atomic::{AtomicU64, Ordering};

/// A set of places that threads share.
#[derive(Drop)]
pub(crate) struct Places {
    words: [AtomicU64; 4],
}

impl Places {
    /// The empty set.
    pub(crate) fn none() -> Places {
        Places {
            words: [
                AtomicU64::new(0),
                AtomicU64::new(0),
                AtomicU64::new(0),
                AtomicU64::new(0),
            ],
        }
    }

    /// Puts a place into it.
    pub(crate) fn put(&self, place: u32) {
        if let Some(word) = self.words.get((place / 64) as usize) {
            word.fetch_or(1u64 << (place % 64), Ordering::SeqCst);
        }
    }

    /// Puts those of another set into it.
    pub(crate) fn add(&self, set: CpuSet) {
        for at in 0..4usize {
            if set.words[at] != 0 {
                self.words[at].fetch_or(set.words[at], Ordering::SeqCst);
            }
        }
    }

    /// Takes all out of it.
    pub(crate) fn take(&self) -> CpuSet {
        CpuSet {
            words: [
                self.words[0].swap(0, Ordering::SeqCst),
                self.words[1].swap(0, Ordering::SeqCst),
                self.words[2].swap(0, Ordering::SeqCst),
                self.words[3].swap(0, Ordering::SeqCst),
            ],
        }
    }
}
