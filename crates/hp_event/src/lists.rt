//! Lists that contracts see as lists.

ghost use Rattle.std.specs.Prelude.{◌≡◌, ◌++◌, ◌∷◌, [], IfOk, OnOk, OnErr};

use crate::head::Sub;
use crate::key::Key;
use hp_states::NoMemory;
use std::alloc::Global;
use std::marker::Model;

/// A list, which contracts see as the list of its items.
///
/// It keeps the allocator that it was made with, so that only `new` is passed one. Its calls are
/// this project's own.
#[derive(Debug, Drop)]
pub struct Items<T> {
    items: Vec<T>,
}

impl<T> Model for Items<T> {
    ghost use Rattle.std.specs.Prelude.{List};

    ghost Value = { List T };

    ghost view = { λ l. l.items.items };
}

/// A name, as its bytes; the empty one is no name.
pub type Name = Items<u8>;

/// A list of numbers.
pub type Numbers = Items<u32>;

/// A list of keys.
pub type Keys = Items<Key>;

/// A list of subsystems, which are numbered from 1.
pub type Subs = Items<Sub>;

impl<T> Items<T> {
    /// The empty list. Takes no memory.
    pub fn new(alloc: Global) -> Items<T>
        ensures { result ≡ [] }
    {
        Items {
            items: Vec::new(alloc),
        }
    }

    /// The items of a `Vec`. Takes no memory: the list keeps the `Vec`.
    pub fn from_vec(items: Vec<T>) -> Items<T>
        ensures { result ≡ items.items }
    {
        Items { items }
    }

    /// The items, as the `Vec` that the list kept. Takes no memory.
    pub fn into_vec(self) -> Vec<T>
        ensures { result.items ≡ self }
    {
        let Items { items } = self;
        items
    }

    /// The items, in their order. Takes no memory.
    pub fn as_slice(&self) -> &[T]
        ensures { result.now ≡ self.now }
    {
        self.items.as_slice()
    }
}

impl<T: Drop> Items<T> {
    /// Appends an item.
    ///
    /// Takes memory where the list has no spare place; where there is none: `NoMemory`, the list is
    /// as before, and the item is dropped.
    pub fn push(&mut self, item: T) -> Result<(), NoMemory>
        ensures ok { OnOk result (self.new ≡ self.old ++ item ∷ []) }
        ensures err { OnErr result (self.new ≡ self.old) }
    {
        self.items.push(item)?;
        Ok(())
    }
}

impl<T: Copy> Items<T> {
    /// A list equal to this one. Takes memory for its items; where there is none: `NoMemory`.
    pub fn copy(&self) -> Result<Items<T>, NoMemory>
        ensures { IfOk result (λ l. l ≡ self.now) }
    {
        let items = Vec::from_slice(*self.items.allocator(), self.as_slice())?;
        Ok(Items { items })
    }
}

impl Items<Sub> {
    /// A list equal to this one. Takes memory for its subsystems and their names; where there is
    /// none: `NoMemory`.
    pub fn copy(&self) -> Result<Subs, NoMemory>
        ensures { IfOk result (λ s. s ≡ self.now) }
    {
        let mut items = Vec::with_capacity(*self.items.allocator(), self.items.len())?;
        for sub in self.items.as_slice() {
            items.push(sub.copy()?)?;
        }
        Ok(Items { items })
    }
}

impl<T> From<Vec<T>> for Items<T> {
    ghost from_gives = { λ v l. l ≡ v.items };

    fn from(items: Vec<T>) -> Items<T> {
        Items::from_vec(items)
    }
}
