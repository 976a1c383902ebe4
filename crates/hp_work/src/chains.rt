//! Lists of items in one slab, linked by its keys.

ghost use Rattle.std.specs.Prelude.{◌≡◌, ◌≢◌, ◌<◌, ◌==◌, [], IfOk, length, replicate, sum_by, slice_get};
ghost use Rattle.hp_work.specs.declared.chains.TheConstants.{LISTS as LISTS_OF};
ghost use Rattle.hp_work.specs.declared.limits.TheConstants.{MAX_ITEMS as MAX_ITEMS_OF};
ghost use Rattle.hp_work.specs.Chained.{linked};
ghost use Rattle.hp_work.specs.Lists.{list, times_in, pushed, popped, moved};

use crate::limits::MAX_ITEMS;
use hp_states::{MAX_CPU_SET, NoMemory};
use slab::Slab;
use std::alloc::{AllocError, Global};
use std::marker::Model;

/// How many lists there are: a queue for each processor, and the unbound list.
pub(crate) const LISTS: usize = MAX_CPU_SET as usize + 1;

/// The place of the unbound list, behind the queues.
pub(crate) const UNBOUND: usize = MAX_CPU_SET as usize;

/// An item in its list, and the key of the one behind it: any, where it is the last.
#[derive(Clone, Copy)]
pub struct Node {
    pub(crate) item: u32,
    pub(crate) next: usize,
}

/// A list: the keys of its first and its last item, and how many it has. Where it has none the keys are any.
#[derive(Clone, Copy)]
pub struct Chain {
    pub(crate) first: usize,
    pub(crate) last: usize,
    pub(crate) many: u32,
}

/// A list without items.
const NO_ITEMS: Chain = Chain {
    first: 0,
    last: 0,
    many: 0,
};

/// The lists of items, by place: the queues of the processors, and behind them the unbound list.
///
/// Contracts see what items each has. No item stands twice.
#[derive(Drop)]
pub struct Chains {
    nodes: Slab<Node>,
    chains: [Chain; LISTS],
}

impl Model for Chains {
    ghost use Rattle.std.specs.Prelude.{List, ℕ};
    ghost use Rattle.hp_work.specs.Chained.{IsChained, lists_of};

    ghost Value = { List (List ℕ) };

    ghost view = { λ c. lists_of c.nodes c.chains };

    ghost invariant = { λ c. IsChained c.nodes c.chains };
}

impl Chains {
    /// Lists without items. Takes memory for `MAX_ITEMS` items; where there is none: `NoMemory`.
    pub(crate) fn new(alloc: Global) -> Result<Chains, NoMemory>
        ensures { IfOk result (λ chains. chains ≡ replicate LISTS_OF []) }
    {
        Ok(Chains {
            nodes: Slab::with_capacity(alloc, MAX_ITEMS as usize)?,
            chains: [NO_ITEMS; LISTS],
        })
    }

    /// Puts an item that stands nowhere at the tail of a list. There is room for it. Takes no memory.
    pub(crate) fn push(&mut self, place: usize, item: u32)
        requires place { place < LISTS_OF }
        requires room { sum_by length self.old < MAX_ITEMS_OF }
        requires nowhere { times_in item self.old ≡ 0 }
        ensures { self.new ≡ pushed place item self.old }
    {
        let key = self.nodes.insert_reserved(Node { item, next: 0 });
        let chain = self.chains[place];
        if chain.many == 0 {
            self.chains[place] = Chain {
                first: key,
                last: key,
                many: 1,
            };
        } else {
            link(&mut self.nodes, chain.last, key);
            self.chains[place] = Chain {
                first: chain.first,
                last: key,
                many: chain.many + 1,
            };
        }
    }

    /// Takes the front of a list. None where the list has no items. Takes no memory.
    pub(crate) fn pop(&mut self, place: usize) -> Option<u32>
        requires { place < LISTS_OF }
        ensures front { result ≡ slice_get (list self.old place) 0 }
        ensures rest { self.new ≡ popped place self.old }
    {
        let chain = self.chains[place];
        if chain.many == 0 {
            return None;
        }
        let node = self.nodes.remove(chain.first);
        self.chains[place] = Chain {
            first: node.next,
            last: chain.last,
            many: chain.many - 1,
        };
        Some(node.item)
    }

    /// Moves all items of a list, in order, to the tail of another. Takes no memory, and a constant time.
    pub(crate) fn append(&mut self, from: usize, to: usize)
        requires from { from < LISTS_OF }
        requires to { to < LISTS_OF }
        requires other { from ≢ to }
        ensures { self.new ≡ moved from to self.old }
    {
        let behind = self.chains[from];
        let before = self.chains[to];
        if behind.many == 0 {
            return;
        }
        self.chains[from] = NO_ITEMS;
        if before.many == 0 {
            self.chains[to] = behind;
        } else {
            link(&mut self.nodes, before.last, behind.first);
            self.chains[to] = Chain {
                first: before.first,
                last: behind.last,
                many: before.many + behind.many,
            };
        }
    }

    /// Whether a list has no items. Takes no memory.
    pub(crate) fn is_empty(&self, place: usize) -> bool
        requires { place < LISTS_OF }
        ensures { result ≡ (length (list self.now place) == 0) }
    {
        self.chains[place].many == 0
    }

    /// The items of a list, in order. Takes memory for them.
    pub(crate) fn items(&self, alloc: Global, place: usize) -> Result<Vec<u32>, AllocError>
        requires { place < LISTS_OF }
        ensures { IfOk result (λ items. items.items ≡ list self.now place) }
    {
        let chain = self.chains[place];
        let mut items = Vec::new(alloc);
        let mut key = chain.first;
        for _ in 0..chain.many {
            let node = self.nodes[key];
            items.push(node.item)?;
            key = node.next;
        }
        Ok(items)
    }
}

/// Links an item to the one at a key.
fn link(nodes: &mut Slab<Node>, key: usize, next: usize)
    ensures { nodes.new ≡ linked key next nodes.old }
{
    if let Some(node) = nodes.get_mut(key) {
        node.next = next;
    }
}
