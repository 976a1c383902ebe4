//! The stock that threads share.

ghost use Rattle.std.specs.Prelude.{◌≡◌, true};
ghost use Rattle.hp_states.specs.CpuSets.{has};

use hp_caches::{PutError, Stock};
use hp_hook::Hook;
use hp_live::ReadPass;
use hp_states::NoMemory;
use std::alloc::Global;
use std::sync::{Mutex, Wait};

/// The stock behind its lock. Who has the lock waits for nobody.
///
/// Only a reader of the machine puts items and takes them, and for a processor that is online in its read section.
#[derive(Drop)]
pub(crate) struct SharedStock {
    stock: Mutex<Stock>,
}

impl SharedStock {
    /// This stock, shared.
    pub(crate) fn new(stock: Stock) -> SharedStock {
        SharedStock {
            stock: Mutex::new(stock),
        }
    }

    /// Opens the cache of a processor.
    pub(crate) fn open<R: Wait>(&self, rt: &R, cpu: u32) {
        self.stock.lock(rt).open(cpu);
    }

    /// Closes the cache of a processor: what is in it moves to the list.
    pub(crate) fn close<R: Wait>(&self, rt: &R, cpu: u32) {
        self.stock.lock(rt).close(cpu);
    }

    /// Puts an item into the cache of a processor that is online in the reader's section.
    pub(crate) fn put<H: Hook + Send, R: Wait>(
        &self,
        rt: &R,
        _reader: &ReadPass<H>,
        cpu: u32,
        item: u32,
    ) -> Result<(), PutError>
        requires { has _reader.now.online cpu ≡ true }
    {
        self.stock.lock(rt).put(cpu, item)
    }

    /// Takes the first item of such a cache, if it has one.
    pub(crate) fn take<H: Hook + Send, R: Wait>(
        &self,
        rt: &R,
        _reader: &ReadPass<H>,
        cpu: u32,
    ) -> Result<Option<u32>, NoMemory>
        requires { has _reader.now.online cpu ≡ true }
    {
        self.stock.lock(rt).take(cpu)
    }

    /// All items: what was taken, the list, and the caches.
    pub(crate) fn all<R: Wait>(&self, rt: &R, alloc: Global) -> Result<Vec<u32>, NoMemory> {
        self.stock.lock(rt).all(alloc)
    }
}
