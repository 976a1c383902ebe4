//! Guesses where rows are.

ghost use Rattle.std.specs.Prelude.{◌<◌};

use crate::rows::RowKey;
use hp_states::NoMemory;
use std::alloc::Global;
use std::marker::Model;

/// How many guesses there are.
const GUESSES: u32 = 256;

/// For each of some numbers of keys the place where the row of one of them was last found: a walk goes over the same keys
/// again and again, and looks most of them up without their hash.
///
/// A guess may be wrong, so that no contract speaks of one: the row that is there is looked at.
#[derive(Drop)]
pub struct Guesses {
    places: Vec<usize>,
}

impl Model for Guesses {
    ghost use Rattle.std.specs.Prelude.{◌≡◌, List, ℕ, length};

    ghost Value = { List ℕ };

    ghost view = { λ g. g.places.items };

    ghost invariant = { λ g. length g.places.items ≡ 256 };
}

impl Guesses {
    /// The first place for each. Takes memory for them; where there is none: `NoMemory`.
    pub(crate) fn new(alloc: Global) -> Result<Guesses, NoMemory> {
        let mut places = Vec::new(alloc);
        places.resize(GUESSES as usize, 0)?;
        Ok(Guesses { places })
    }

    /// The place where a key may have its row.
    pub(crate) fn place(&self, key: RowKey) -> usize {
        self.places[number(key)]
    }

    /// Notes the place of the row of a key.
    pub(crate) fn note(&mut self, key: RowKey, place: usize) {
        self.places[number(key)] = place;
    }
}

/// The number of a key among the guesses: states and instances that are near have others.
fn number(key: RowKey) -> usize
    ensures { result < 256 }
{
    (key.state.wrapping_add(key.inst.wrapping_mul(37)) % GUESSES) as usize
}
