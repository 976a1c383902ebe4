//! The keys in force on a processor, by counting.

ghost use Rattle.std.specs.Prelude.{◌≡◌, ◌<◌, IfOk, OnOk, OnErr};
ghost use Rattle.hp_model.specs.InForce.{is_done_entry as is_done_entry_of, done_entries};
ghost use Rattle.hp_model.specs.Net.{with_key, entered, is_key_in_force, keys_in_force};

use hp_event::{Event, Journal, Key, Keys};
use hp_states::{Dir, NoMemory};
use std::alloc::{AllocError, Global};

/// The keys in force on a processor after the events of a journal: those with more upward than
/// downward entries done there, in rising state and then rising instance.
///
/// It takes a time quadratic in the journal, and is for tests and small journals. Takes memory for
/// the list; where there is none: `NoMemory`.
#[tactic(auto, unfolding(crate::specs::Net::keys_in_force))]
pub fn net_of(alloc: Global, journal: &Journal, cpu: u32) -> Result<Keys, NoMemory>
    ensures { IfOk result (λ keys. keys ≡ keys_in_force cpu journal.now.events) }
{
    let events = journal.events();
    let entered = entered_of(alloc, events, cpu)?;
    let mut found = Vec::new(alloc);
    for key in entered.as_slice() {
        if is_in_force(events, cpu, *key) {
            found.push(*key)?;
        }
    }
    Ok(Keys::from_vec(found))
}

/// The keys that have an entry on a processor, in rising order.
#[tactic(auto, unfolding(crate::specs::Net::entered))]
fn entered_of(alloc: Global, events: &[Event], cpu: u32) -> Result<Vec<Key>, NoMemory>
    ensures { IfOk result (λ keys. keys.items ≡ entered cpu events.now) }
{
    let mut keys = Vec::new(alloc);
    for event in events {
        if let Event::Call {
            cpu: on,
            state,
            inst,
            ..
        } = event
        {
            if *on == cpu {
                put(
                    &mut keys,
                    Key {
                        state: *state,
                        inst: *inst,
                    },
                )?;
            }
        }
    }
    Ok(keys)
}

/// Puts a key into its place, if it isn't there.
fn put(keys: &mut Vec<Key>, key: Key) -> Result<(), NoMemory>
    ensures ok { OnOk result (keys.new.items ≡ with_key key keys.old.items) }
{
    let mut at = 0;
    while at < keys.len() && keys[at] < key {
        at += 1;
    }
    if at < keys.len() && key >= keys[at] {
        return Ok(());
    }
    keys.insert(at, key)?;
    Ok(())
}

fn is_in_force(events: &[Event], cpu: u32, key: Key) -> bool
    ensures { result ≡ is_key_in_force cpu events.now key }
{
    count_of(events, cpu, key, Dir::Down) < count_of(events, cpu, key, Dir::Up)
}

/// How many entries of a key are done on a processor in a direction.
fn count_of(events: &[Event], cpu: u32, key: Key, dir: Dir) -> usize
    ensures { result ≡ done_entries cpu key.state key.inst dir events.now }
{
    let mut count = 0;
    for event in events {
        if is_done_entry(event, cpu, key, dir) {
            count += 1;
        }
    }
    count
}

fn is_done_entry(event: &Event, cpu: u32, key: Key, dir: Dir) -> bool
    ensures { result ≡ is_done_entry_of cpu key.state key.inst dir event.now }
{
    match event {
        Event::Call {
            cpu: on,
            state,
            inst,
            dir: way,
            how,
            ..
        } => {
            (*on == cpu && *way == dir)
                && ((*state == key.state && *inst == key.inst) && how.is_done())
        }
        _ => false,
    }
}
