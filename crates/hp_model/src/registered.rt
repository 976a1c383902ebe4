//! The registered keys, by the events alone.

ghost use Rattle.std.specs.Prelude.{◌≡◌, ◌++◌, IfOk, OnOk};
ghost use Rattle.hp_model.specs.Registered.{registered, applied as applied_of, insts_of as insts_of_of, keys as keys_of};
ghost use Rattle.hp_model.specs.Net.{registered_keys, keys_with};
ghost use Rattle.hp_model.specs.Found.{as_registered, FoundAfter};

use crate::lists::without;
use crate::subsystems::is_multi;
use hp_event::{Answer, Event, Head, Journal, Key, Keys, Op};
use hp_states::{NoMemory, ONLINE};
use std::alloc::Global;

/// What is registered at a state.
#[derive(Drop)]
pub struct Found {
    /// The number of the subsystem that was set up there, from 1.
    pub sub: u32,
    /// Whether the state has an instance list, as that subsystem's states have.
    pub multi: bool,
    /// Its instances, newest first.
    pub insts: Vec<u32>,
}

/// A registration in flight.
#[derive(Clone, Copy)]
struct Asked {
    state: u32,
    op: Op,
}

/// The registered keys after the events of a journal, in rising state and, in one state, newest
/// instance first.
///
/// It goes through the journal once for each state, and is for tests and small journals. Takes
/// memory for the list; where there is none: `NoMemory`.
pub fn registered_of(alloc: Global, journal: &Journal) -> Result<Keys, NoMemory>
    ensures { IfOk result (λ keys. keys ≡ registered_keys journal.now.head journal.now.events) }
{
    let head = journal.head();
    let events = journal.events();
    let mut keys = Vec::new(alloc);
    for state in 0..ONLINE + 1 {
        let insts = instances_of_keys(alloc, head, state, events)?;
        push_keys(&mut keys, state, insts.as_slice())?;
    }
    Ok(Keys::from_vec(keys))
}

/// The instances of the keys of a state after some events, in list order: those of its list where
/// it has one, the instance 0 alone where it is registered without, and none where it isn't
/// registered.
///
/// It takes a time linear in the events, and is for tests and small journals. Of the events nothing
/// is asked. Takes memory for the list; where there is none: `NoMemory`. The rule is `keys` of
/// `specs/Registered.antt`.
pub fn instances_of_keys(
    alloc: Global,
    head: &Head,
    state: u32,
    events: &[Event],
) -> Result<Vec<u32>, NoMemory>
    ensures { IfOk result (λ insts. insts.items ≡ keys_of head.now events.now state) }
{
    let found = registered_at(alloc, head, state, events)?;
    insts_of(alloc, found)
}

/// The instances of the keys where that is registered.
fn insts_of(alloc: Global, found: Option<Found>) -> Result<Vec<u32>, NoMemory>
    ensures { IfOk result (λ insts. insts.items ≡ insts_of_of (as_registered found)) }
{
    match found {
        None => Ok(Vec::new(alloc)),
        Some(found) => {
            if found.multi {
                Ok(found.insts)
            } else {
                let mut insts = Vec::new(alloc);
                insts.push(0)?;
                Ok(insts)
            }
        }
    }
}

/// What is registered at one state after some events; none where nothing is.
///
/// A setup that answered Ok registers it with an empty list, and a removal that did takes it away;
/// an instance that was added comes first in the list, and one that was taken is gone from it. What
/// answers otherwise leaves it as it was. Of the events nothing is asked.
///
/// It takes a time linear in the events, for each instance that is taken also one linear in the
/// list, and is for tests and small journals. Takes memory for the list; where there is none:
/// `NoMemory`. The rule is `registered` of `specs/Registered.antt`.
pub fn registered_at(
    alloc: Global,
    head: &Head,
    state: u32,
    events: &[Event],
) -> Result<Option<Found>, NoMemory>
    ensures { IfOk result (λ found. as_registered found ≡ registered head.now state events.now) }
{
    let mut found = None;
    let mut asked = None;
    for event in events {
        match event {
            Event::RegBegin { state: at, op, .. } => {
                asked = Some(Asked {
                    state: *at,
                    op: *op,
                });
            }
            Event::RegEnd { answer, .. } => {
                found = ended(alloc, head, state, *answer, asked, found)?;
                asked = None;
            }
            _ => {}
        }
    }
    Ok(found)
}

/// What the end of a registration makes of what is registered at a state.
fn ended(
    alloc: Global,
    head: &Head,
    state: u32,
    answer: Answer,
    asked: Option<Asked>,
    found: Option<Found>,
) -> Result<Option<Found>, NoMemory>
    ensures { IfOk result (FoundAfter head.now state answer asked found) }
{
    match asked {
        Some(asked) if answer.is_ok() && asked.state == state => applied(
            alloc, head, &asked.op, found,
        ),
        _ => Ok(found),
    }
}

/// What an operation that answers Ok makes of what is registered at its state.
fn applied(
    alloc: Global,
    head: &Head,
    op: &Op,
    found: Option<Found>,
) -> Result<Option<Found>, NoMemory>
    ensures { IfOk result (λ f. as_registered f ≡ applied_of head.now op.now (as_registered found)) }
{
    match op {
        Op::Setup { sub, .. } => Ok(Some(Found {
            sub: *sub,
            multi: is_multi(head, *sub),
            insts: Vec::new(alloc),
        })),
        Op::Remove { .. } => Ok(None),
        Op::Add { inst, .. } => match found {
            None => Ok(None),
            Some(mut found) => {
                found.insts.insert(0, *inst)?;
                Ok(Some(found))
            }
        },
        Op::Del { inst, .. } => match found {
            None => Ok(None),
            Some(found) => Ok(Some(Found {
                sub: found.sub,
                multi: found.multi,
                insts: without(alloc, *inst, found.insts.as_slice())?,
            })),
        },
        _ => Ok(found),
    }
}

/// Appends the keys of a state.
fn push_keys(keys: &mut Vec<Key>, state: u32, insts: &[u32]) -> Result<(), NoMemory>
    ensures { OnOk result (keys.new.items ≡ keys.old.items ++ keys_with state insts.now) }
{
    for inst in insts {
        keys.push(Key { state, inst: *inst })?;
    }
    Ok(())
}
