//! The rows of the called set.

ghost use Rattle.std.specs.Prelude.{◌≡◌, ◌<◌, ◌&&◌, ◌||◌, ◌==◌, not, if◌then◌else◌, ℕ, false, None, IfSome, IfNone, IfOk, OnOk};
ghost use Rattle.hp_states.specs.CpuSets.{has};
ghost use Rattle.hp_states.specs.declared.limits.TheConstants.{MAX_CPU_SET};
ghost use Rattle.hp_event.specs.declared.key.Key.{Key as AKey};
ghost use Rattle.indexmap.specs.IndexMap.{get};
ghost use Rattle.hp_called.specs.Listed.{key_of};
ghost use Rattle.hp_called.specs.Rows.{has_row, is_on, row_key, same, same_row, is_up, HasRoom, IsPlaceOf};

use crate::guesses::Guesses;
use hp_event::Key;
use hp_states::{CpuSet, Dir, NoMemory};
use indexmap::IndexMap;
use std::alloc::Global;

/// A key as the map has it: one that can be hashed.
#[derive(Clone, Copy, PartialEq, Eq, Hash, Drop)]
pub struct RowKey {
    pub(crate) state: u32,
    pub(crate) inst: u32,
}

impl RowKey {
    fn of(key: Key) -> RowKey
        ensures { result ≡ row_key key }
    {
        RowKey {
            state: key.state,
            inst: key.inst,
        }
    }

    pub(crate) fn key(&self) -> Key
        ensures { result ≡ key_of self.now }
    {
        Key {
            state: self.state,
            inst: self.inst,
        }
    }
}

/// The rows: of each key that has one, the processors on which the key is in force.
#[derive(Drop)]
pub struct Rows {
    pub(crate) sets: IndexMap<RowKey, CpuSet>,
    guesses: Guesses,
}

impl Rows {
    /// No rows. Takes memory for the guesses; where there is none: `NoMemory`.
    pub(crate) fn new(alloc: Global) -> Result<Rows, NoMemory>
        ensures { IfOk result (λ rows. (k : AKey) → has_row rows k ≡ false) }
    {
        Ok(Rows {
            sets: IndexMap::new(alloc),
            guesses: Guesses::new(alloc)?,
        })
    }
}

impl Rows {
    /// Makes room for one row more. Takes memory where there is no spare room; where there is none: `NoMemory`.
    pub(crate) fn reserve(&mut self) -> Result<(), NoMemory>
        ensures rows { (k : AKey) → has_row self.new k ≡ has_row self.old k }
        ensures sets { (k : AKey) (c : ℕ) → is_on self.new k c ≡ is_on self.old k c }
        ensures ok { OnOk result (HasRoom self.new) }
    {
        self.sets.reserve(1)?;
        Ok(())
    }

    /// Gives a key a row, with no processor. There is room for it. Takes no memory.
    pub(crate) fn insert(&mut self, key: Key)
        requires { HasRoom self.old }
        ensures rows { (k : AKey) → has_row self.new k ≡ (same key k || has_row self.old k) }
        ensures sets { (k : AKey) (c : ℕ) → is_on self.new k c ≡ (not (same key k) && is_on self.old k c) }
    {
        match self.sets.insert(RowKey::of(key), CpuSet::none()) {
            Ok(_) => {}
            Err(_) => unreachable!(),
        }
    }

    /// Takes the row of a key out, if it has one. Takes no memory.
    pub(crate) fn remove(&mut self, key: Key)
        ensures rows { (k : AKey) → has_row self.new k ≡ (not (same key k) && has_row self.old k) }
        ensures sets { (k : AKey) (c : ℕ) → is_on self.new k c ≡ (not (same key k) && is_on self.old k c) }
    {
        self.sets.swap_remove(&RowKey::of(key));
    }

    /// Writes into the row of a key, if it has one, whether that is in force on a processor, whose number is at most 255:
    /// after an upward entry it is, and after a downward one it isn't. Takes no memory.
    pub(crate) fn write(&mut self, key: Key, cpu: u32, dir: Dir)
        requires { cpu < MAX_CPU_SET }
        ensures rows { (k : AKey) → has_row self.new k ≡ has_row self.old k }
        ensures sets { (k : AKey) (c : ℕ) → is_on self.new k c
            ≡ (if has_row self.old k && (same key k && (cpu == c)) then is_up dir else is_on self.old k c) }
    {
        if let Some(place) = self.place(RowKey::of(key)) {
            let (_, set) = self.sets.pair_mut(place);
            match dir {
                Dir::Up => set.put(cpu),
                Dir::Down => set.take(cpu),
            }
        }
    }

    /// The place of the row of a key, if it has one.
    #[inline(always)]
    fn place(&mut self, key: RowKey) -> Option<usize>
        ensures same { self.new.sets ≡ self.old.sets }
        ensures some { IfSome result (IsPlaceOf self.old.sets key) }
        ensures none { IfNone result (get same_row self.old.sets key ≡ None) }
    {
        match self.guessed(key) {
            Some(place) => Some(place),
            None => self.looked_up(key),
        }
    }

    /// The place of the row of a key, where that is the one that is guessed.
    #[inline(always)]
    fn guessed(&self, key: RowKey) -> Option<usize>
        ensures { IfSome result (IsPlaceOf self.now.sets key) }
    {
        let guess = self.guesses.place(key);
        let (found, _) = self.sets.get_index(guess)?;
        if *found == key { Some(guess) } else { None }
    }

    /// The place of the row of a key, if it has one, which is the guess for such keys from now on.
    #[inline(never)]
    fn looked_up(&mut self, key: RowKey) -> Option<usize>
        ensures same { self.new.sets ≡ self.old.sets }
        ensures some { IfSome result (IsPlaceOf self.old.sets key) }
        ensures none { IfNone result (get same_row self.old.sets key ≡ None) }
    {
        let (place, _, _) = self.sets.get_full(&key)?;
        self.guesses.note(key, place);
        Some(place)
    }

    /// Whether a key is in force on a processor: a number above 255 is none. Takes no memory.
    pub(crate) fn has(&self, key: Key, cpu: u32) -> bool
        ensures { result ≡ is_on self.now key cpu }
    {
        match self.sets.get(&RowKey::of(key)) {
            Some(set) => is_in(set, cpu),
            None => false,
        }
    }
}

/// Whether a number is in a set, whichever number it is: it is the lowest there from itself on.
pub(crate) fn is_in(set: &CpuSet, cpu: u32) -> bool
    ensures { result ≡ has set.now cpu }
{
    match set.first_from(cpu) {
        Some(lowest) => lowest == cpu,
        None => false,
    }
}
