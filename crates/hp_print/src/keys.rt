//! How often the entries of each key are done.
//!
//! The counts of a processor stand in the order of their keys, and the same few keys come again and
//! again, walk after walk. So where a key was found is remembered, and looked at first.

ghost use Rattle.std.specs.Prelude.{◌≡◌, ◌≤◌, ◌<◌, ◌++◌, ◌∷◌, [], List, OnOk, IfOk, length, vec_len, insert, ◌+◌};
ghost use Rattle.hp_model.specs.Net.{is_before as is_before_of};
ghost use Rattle.hp_print.specs.Counts.{AreInOrder, place, with_count, counted, no_count, is_key};

use hp_event::Key;
use hp_states::{Dir, ONLINE};
use std::alloc::{AllocError, Global};
use std::marker::Model;

/// How often the entries of a key are done, upwards and downwards.
#[derive(Clone, Copy)]
pub struct KeyCount {
    pub key: Key,
    pub ups: usize,
    pub downs: usize,
}

/// How many places are remembered.
const REMEMBERED: usize = 256;

/// Under which number the place of a key is remembered. Keys may share one, and then the last that
/// came has it; states without instances don't, and the instances of a state lie far apart.
fn slot_of(key: Key) -> usize
    ensures { result < REMEMBERED }
{
    (key.state as usize + key.inst as usize * 159) % REMEMBERED
}

/// Whether a key is before another, as keys are ordered.
fn is_before(key: Key, other: Key) -> bool
    ensures { result ≡ is_before_of key other }
{
    key < other
}

/// How many keys of a list that rises are before a key, found by halves.
fn place_by_halves(counts: &[KeyCount], key: Key) -> usize
    requires { AreInOrder counts.now }
    ensures place { result ≡ place key counts.now }
    ensures within { result ≤ length counts.now }
{
    let mut low = 0;
    let mut high = counts.len();
    while low < high {
        let middle = low + (high - low) / 2;
        if is_before(counts[middle].key, key) {
            low = middle + 1;
        } else {
            high = middle;
        }
    }
    low
}

/// How many keys of a list that rises are before a key. Keys mostly come for the first time in
/// rising order, so the end is looked at first.
fn place_of(counts: &[KeyCount], key: Key) -> usize
    requires { AreInOrder counts.now }
    ensures place { result ≡ place key counts.now }
    ensures within { result ≤ length counts.now }
{
    let many = counts.len();
    if many > 0 && is_before(counts[many - 1].key, key) {
        return many;
    }
    place_by_halves(counts, key)
}

/// For how many keys a list takes memory at once: one of each state.
const FIRST_KEYS: usize = ONLINE as usize + 1;

/// Puts a count of no entries at a place, which mostly is the end.
#[tactic(auto, using(std::proofs::lemmas::List::Edits::insert_end))]
fn put(counts: &mut Vec<KeyCount>, at: usize, key: Key) -> Result<(), AllocError>
    requires { at ≤ vec_len counts.old }
    ensures counts { OnOk result (counts.new.items ≡ insert counts.old.items at (no_count key)) }
    ensures many { OnOk result (vec_len counts.new ≡ vec_len counts.old + 1) }
{
    let none = KeyCount {
        key,
        ups: 0,
        downs: 0,
    };
    if counts.is_empty() {
        counts.reserve(FIRST_KEYS)?;
    }
    if at == counts.len() {
        counts.push(none)?;
    } else {
        counts.insert(at, none)?;
    }
    Ok(())
}

/// Puts a count of a key in its place, unless there is one; answers the place. It is mostly the one
/// that was remembered.
fn admit(counts: &mut Vec<KeyCount>, key: Key, remembered: usize) -> Result<usize, AllocError>
    requires { AreInOrder counts.old.items }
    ensures place { IfOk result (λ p. p ≡ place key counts.old.items) }
    ensures counts { OnOk result (counts.new.items ≡ with_count key counts.old.items) }
    ensures within { IfOk result (λ p. p < vec_len counts.new) }
{
    if remembered < counts.len() && counts[remembered].key == key {
        return Ok(remembered);
    }
    let at = place_of(counts.as_slice(), key);
    if at < counts.len() && !is_before(key, counts[at].key) {
        return Ok(at);
    }
    put(counts, at, key)?;
    Ok(at)
}

/// Counts an entry of a key; answers its place.
fn count(
    counts: &mut Vec<KeyCount>,
    key: Key,
    remembered: usize,
    dir: Dir,
    done: bool,
) -> Result<usize, AllocError>
    requires { AreInOrder counts.old.items }
    ensures { OnOk result (counts.new.items ≡ counted key dir done counts.old.items) }
{
    let at = admit(counts, key, remembered)?;
    if done {
        let count = &mut counts[at];
        match dir {
            Dir::Up => count.ups = count.ups.saturating_add(1),
            Dir::Down => count.downs = count.downs.saturating_add(1),
        }
    }
    Ok(at)
}

/// The counts of a processor's keys, which rise.
#[derive(Drop)]
pub struct KeyCounts {
    counts: Vec<KeyCount>,
    /// Where the key of each slot was when it last came; it may have moved since.
    places: [u32; REMEMBERED],
}

impl Model for KeyCounts {
    ghost use Rattle.std.specs.Prelude.{List};
    ghost use Rattle.hp_print.specs.declared.keys.KeyCount.{KeyCount};

    ghost Value = { List KeyCount };

    ghost view = { λ k. k.counts.items };
}

impl KeyCounts {
    /// The counts before any entry. Takes no memory.
    pub fn new(alloc: Global) -> KeyCounts
        ensures { result ≡ [] }
    {
        KeyCounts {
            counts: Vec::new(alloc),
            places: [0; REMEMBERED],
        }
    }

    /// The counts, in the order of their keys.
    pub fn as_slice(&self) -> &[KeyCount]
        ensures { result.now ≡ self.now }
    {
        self.counts.as_slice()
    }

    /// Counts an entry of a key.
    pub fn count(&mut self, key: Key, dir: Dir, done: bool) -> Result<(), AllocError>
        requires { AreInOrder self.old }
        ensures { OnOk result (self.new ≡ counted key dir done self.old) }
    {
        let slot = slot_of(key);
        let remembered = self.places[slot] as usize;
        let at = count(&mut self.counts, key, remembered, dir, done)?;
        if at != remembered {
            self.places[slot] = u32::try_from(at).unwrap_or(0);
        }
        Ok(())
    }
}
