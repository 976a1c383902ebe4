//! The caches of all processors, and the list that they share.

ghost use Rattle.std.specs.Prelude.{◌≡◌, ◌↔◌, ℕ, [], ◌++◌, true, false, IfOk, IfErr, IfSome, IfNone, OnOk, OnErr, length, slice_get, Some};
ghost use Rattle.hp_caches.specs.Changes.{IsPutError, closed, empty, opened, put_into, taken_from};
ghost use Rattle.hp_caches.specs.Contents.{IsEachOnce, all as all_of, cache, times};

use crate::cache::Cache;
use hp_states::NoMemory;
use std::alloc::Global;
use std::collections::LinkedList;
use std::marker::Model;

/// Why an item isn't put.
#[derive(Clone, Copy, Debug, PartialEq, Eq)]
pub enum PutError {
    /// The cache is closed, or there is none.
    Closed,
    /// Memory was wanting.
    NoMemory,
}

/// A cache for each processor, the list that they share, what was taken, and a book of what was put.
///
/// Contracts see all four. In what was taken, the list and the caches together each item stands as often as it was put.
#[derive(Drop)]
pub struct Stock {
    caches: Vec<Cache>,
    list: LinkedList<u32>,
    taken: Vec<u32>,
    put: Vec<u32>,
}

impl Model for Stock {
    ghost use Rattle.hp_caches.specs.Contents.{Balances, Contents};
    ghost use Rattle.hp_caches.specs.Inside.{contents};

    ghost Value = { Contents };

    ghost view = { contents };

    ghost invariant = { λ s. Balances (contents s) };
}

impl Stock {
    /// So many caches, closed and empty. Takes memory; where that is wanting: `NoMemory`.
    pub fn new(alloc: Global, cpus: u32) -> Result<Stock, NoMemory>
        ensures { IfOk result (λ stock. stock ≡ empty cpus) }
    {
        let mut caches = Vec::new(alloc);
        for _ in 0..cpus {
            caches.push(Cache {
                is_open: false,
                items: LinkedList::new(alloc),
            })?;
        }
        Ok(Stock {
            caches,
            list: LinkedList::new(alloc),
            taken: Vec::new(alloc),
            put: Vec::new(alloc),
        })
    }

    /// Opens the cache of a processor. Where there is none, or it is open, nothing changes. Takes no memory.
    pub fn open(&mut self, cpu: u32)
        ensures { self.new ≡ opened cpu self.old }
    {
        if let Some(cache) = self.caches.get_mut(cpu as usize) {
            cache.is_open = true;
        }
    }

    /// Closes the cache of a processor: what is in it moves, whole and in order, to the tail of the list. Where there is
    /// none nothing changes. Takes no memory, and a constant time.
    pub fn close(&mut self, cpu: u32)
        ensures { self.new ≡ closed cpu self.old }
    {
        if let Some(cache) = self.caches.get_mut(cpu as usize) {
            cache.is_open = false;
            let moved = self.list.append(&mut cache.items);
            prove!(moved.is_ok());
        }
    }

    /// Puts an item into the cache of a processor, behind the others.
    ///
    /// - `Closed` exactly where the cache is closed, or there is none.
    /// - `NoMemory` where memory was wanting.
    ///
    /// Nothing changes then. Takes memory.
    pub fn put(&mut self, cpu: u32, item: u32) -> Result<(), PutError>
        ensures put { OnOk result (self.new ≡ put_into cpu item self.old) }
        ensures open { OnOk result ((cache self.old cpu).is_open ≡ true) }
        ensures same { OnErr result (self.new ≡ self.old) }
        ensures refused { IfErr result (IsPutError (cache self.old cpu).is_open) }
    {
        let Some(cache) = self.caches.get_mut(cpu as usize) else {
            return Err(PutError::Closed);
        };
        if !cache.is_open {
            return Err(PutError::Closed);
        }
        if self.put.try_reserve(1).is_err() || cache.items.push_back(item).is_err() {
            return Err(PutError::NoMemory);
        }
        let noted = self.put.push(item);
        prove!(noted.is_ok());
        Ok(())
    }

    /// Takes the first item of the cache of a processor; none where it has none.
    ///
    /// - `NoMemory` where memory was wanting. Nothing changes then.
    ///
    /// Takes memory.
    pub fn take(&mut self, cpu: u32) -> Result<Option<u32>, NoMemory>
        ensures taken { IfOk result (λ taken. IfSome taken (λ item.
            (slice_get (cache self.old cpu).items 0 ≡ Some item) × (self.new ≡ taken_from cpu item self.old))) }
        ensures none { IfOk result (λ taken. IfNone taken (((cache self.old cpu).items ≡ []) × (self.new ≡ self.old))) }
        ensures same { OnErr result (self.new ≡ self.old) }
    {
        self.taken.try_reserve(1)?;
        let Some(cache) = self.caches.get_mut(cpu as usize) else {
            return Ok(None);
        };
        let Some(item) = cache.items.pop_front() else {
            return Ok(None);
        };
        let noted = self.taken.push(item);
        prove!(noted.is_ok());
        Ok(Some(item))
    }

    /// All items: what was taken, the list, and the caches in rising number. Takes memory; where that is wanting:
    /// `NoMemory`.
    pub fn all(&self, alloc: Global) -> Result<Vec<u32>, NoMemory>
        ensures { IfOk result (λ items. items.items ≡ all_of self.now) }
    {
        let mut items = Vec::new(alloc);
        items.extend_from_slice(&self.taken)?;
        append(&mut items, &self.list)?;
        for cpu in 0..self.caches.len() {
            append(&mut items, &self.caches[cpu].items)?;
        }
        Ok(items)
    }

    /// How many items were put. Takes no memory.
    pub fn count(&self) -> u64
        ensures { result ≡ length self.now.put }
    {
        self.put.len() as u64
    }

    /// Each item stands among all as often as it was put; and so each of so many stands there exactly once just where each was
    /// put exactly once. It does nothing.
    pub fn items_stand_once(&self)
        ensures as_put { (item : ℕ) → times item (all_of self.now) ≡ times item self.now.put }
        ensures once { (count : ℕ) → IsEachOnce count (all_of self.now) ↔ IsEachOnce count self.now.put }
    {
        let _ = &self.put;
    }
}

/// Puts the items of a list behind those of a `Vec`. Takes memory; where that is wanting: `NoMemory`.
fn append(items: &mut Vec<u32>, list: &LinkedList<u32>) -> Result<(), NoMemory>
    ensures { OnOk result (items.new.items ≡ items.old.items ++ list.now) }
{
    for item in list.iter() {
        items.push(*item)?;
    }
    Ok(())
}
