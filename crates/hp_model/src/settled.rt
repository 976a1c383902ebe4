//! Where a processor stands, by the events alone.

ghost use Rattle.std.specs.Prelude.{◌≡◌, Option};
ghost use Rattle.hp_model.specs.Walks.{Walk};
ghost use Rattle.hp_model.specs.Found.{SettlesAt, GoesOnTo, target};
ghost use Rattle.hp_model.specs.Settled.{settled, left_at as left_at_lem};

use hp_event::{Answer, Event, Journal};
use hp_states::first_state;

/// Where a processor stands, and where its walk in flight goes.
#[derive(Clone, Copy)]
struct Standing {
    at: u32,
    to: Option<u32>,
}

/// The settled state of a processor after the events of a journal: where its last walk left it.
///
/// It takes a time linear in the journal, and is for tests and small journals. Takes no memory.
pub fn settled_of(journal: &Journal, cpu: u32) -> u32
    ensures { result ≡ settled cpu journal.now.events }
{
    settled_after(cpu, journal.events())
}

/// The settled state of a processor after some events: where its last walk left it, and where none
/// did ONLINE for processor 0 and OFFLINE for the others.
///
/// Of the events nothing is asked. It takes a time linear in them, and is for tests and small
/// journals. Takes no memory. The rule is `settled` of `specs/Settled.antt`.
pub fn settled_after(cpu: u32, events: &[Event]) -> u32
    ensures { result ≡ settled cpu events.now }
{
    let mut standing = Standing {
        at: first_state(cpu),
        to: None,
    };
    for event in events {
        standing = after(standing, event, cpu);
    }
    standing.at
}

/// What one event makes of it.
fn after(standing: Standing, event: &Event, cpu: u32) -> Standing
    ensures at { SettlesAt cpu standing event.now result.at }
    ensures to { GoesOnTo cpu standing event.now result.to }
{
    match event {
        Event::WalkBegin {
            cpu: walker,
            to,
            ..
        } if *walker == cpu => Standing {
            at: standing.at,
            to: Some(*to),
        },
        Event::WalkEnd {
            cpu: walker,
            answer,
            ..
        } if *walker == cpu => Standing {
            at: left_at(answer, standing),
            to: None,
        },
        _ => standing,
    }
}

/// Where the end of a walk leaves its processor.
fn left_at(answer: &Answer, standing: Standing) -> u32
    ensures { (w : Option Walk) → standing.to ≡ target w → result ≡ left_at_lem answer.now w standing.at }
{
    answer.leaves_at(standing.to.unwrap_or(standing.at), standing.at)
}
