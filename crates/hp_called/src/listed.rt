//! The keys in force on a processor, as a list.

ghost use Rattle.std.specs.Prelude.{◌≡◌, ◌<◌, ℕ, List, IfOk};
ghost use Rattle.hp_event.specs.declared.event.Event.{Event as AnEvent};
ghost use Rattle.hp_event.specs.declared.head.Head.{Head as AHead};
ghost use Rattle.hp_model.specs.Net.{keys_in_force};
ghost use Rattle.hp_called.specs.Called.{IsCalled};
ghost use Rattle.hp_called.specs.Listed.{keys_on};
ghost use Rattle.hp_called.specs.Rows.{same_row};
ghost use Rattle.indexmap.specs.IndexMap.{IsUnique};

use crate::called::Called;
use crate::rows::{Rows, is_in};
use hp_event::{Key, Keys};
use hp_states::NoMemory;
use std::alloc::Global;

impl Called {
    /// The keys in force on a processor, in rising order, after the journal of which this is the called set. Any number may
    /// be asked for: one that is no processor's has none in force.
    ///
    /// Takes memory for the list; where there is none: `NoMemory`. Takes time for the keys that have a row, and to put those
    /// of the list in order, and none for the journal. That a key is in force is this project's own.
    pub fn keys(&self, alloc: Global, cpu: u32) -> Result<Keys, NoMemory>
        ensures { IfOk result (λ keys. (head : AHead) (events : List AnEvent) → IsCalled head events self.now →
            keys ≡ keys_in_force cpu events) }
    {
        let mut keys = self.rows.keys_on(alloc, cpu)?;
        keys.sort_unstable();
        Ok(Keys::from_vec(keys))
    }
}

impl Rows {
    /// The keys whose rows have a processor, in the order of the rows.
    fn keys_on(&self, alloc: Global, cpu: u32) -> Result<Vec<Key>, NoMemory>
        ensures keys { IfOk result (λ keys. keys.items ≡ keys_on cpu self.now.sets.entries) }
        ensures unique { IsUnique same_row self.now.sets }
    {
        let mut keys = Vec::new(alloc);
        for place in 0..self.sets.len() {
            let Some((row, set)) = self.sets.get_index(place) else {
                unreachable!()
            };
            if is_in(set, cpu) {
                keys.push(row.key())?;
            }
        }
        Ok(keys)
    }
}
