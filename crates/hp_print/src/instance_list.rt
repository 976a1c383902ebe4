//! The instances of a state.

ghost use Rattle.std.specs.Prelude.{◌≡◌, ◌∷◌, OnOk, List, []};
ghost use Rattle.hp_model.specs.Lists.{without};

use std::alloc::{AllocError, Global};
use std::marker::Model;

/// The instances of a state, newest first.
#[derive(Drop)]
pub struct InstanceList {
    items: Vec<u32>,
}

impl Model for InstanceList {
    ghost use Rattle.std.specs.Prelude.{ℕ, List};

    ghost Value = { List ℕ };

    ghost view = { λ i. i.items.items };
}

impl InstanceList {
    /// No instances.
    pub fn new(alloc: Global) -> InstanceList
        ensures { result ≡ [] }
    {
        InstanceList {
            items: Vec::new(alloc),
        }
    }

    /// The instances, newest first.
    pub fn as_slice(&self) -> &[u32]
        ensures { result.now ≡ self.now }
    {
        self.items.as_slice()
    }

    /// Takes all instances away.
    pub fn clear(&mut self)
        ensures { self.new ≡ [] }
    {
        self.items.clear();
    }

    /// Adds an instance, which is the newest.
    pub fn add(&mut self, inst: u32) -> Result<(), AllocError>
        ensures { OnOk result (self.new ≡ inst ∷ self.old) }
    {
        self.items.insert(0, inst)?;
        Ok(())
    }

    /// Takes an instance away.
    pub fn remove(&mut self, inst: u32)
        ensures { self.new ≡ without inst self.old }
    {
        self.items.retain(move |x| *x != inst);
    }
}
