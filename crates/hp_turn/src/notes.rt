//! A value for the tests: a head and the events so far.

ghost use Rattle.std.specs.Prelude.{◌≡◌, ◌++◌, ◌∷◌, ◌==◌, not, true, false, []};
ghost use Rattle.std.specs.List.{list_all};
ghost use Rattle.hp_event.specs.declared.event.Role.TheVariants.{Client as AClient};
ghost use Rattle.hp_event.specs.declared.event.Event.TheVariants.{Admit as AnAdmit};
ghost use Rattle.hp_model.specs.Events.{seat_of};
ghost use Rattle.hp_turn.specs.Story.{AddsOwn, KeepsLimit};

use crate::Grown;
use hp_event::{Event, Head, Role};
use hp_states::MAX_EVENTS;

#[derive(Drop)]
pub struct Notes {
    pub head: Head,
    pub events: Vec<Event>,
}

impl Grown for Notes {
    ghost head = { λ n. n.head };

    ghost story = { λ n. n.events.items };

    ghost aside = { λ n. [] };

    fn length(&self) -> u64 {
        self.events.len() as u64
    }
}

// No event is of the seat.
fn is_new(events: &[Event], seat: u32) -> bool
    ensures { result ≡ list_all (λ e. not (seat_of e == seat)) events.now }
{
    events.iter().all(|event| event.seat() != seat)
}

impl Notes {
    /// Notes one more act of a seat, a number; false where there is no room or no memory.
    pub fn act(&mut self, seat: u32, value: i32) -> bool
        ensures head { self.new.head ≡ self.old.head }
        ensures story { AddsOwn seat self.old.events.items self.new.events.items }
        ensures room { KeepsLimit self.old.events.items self.new.events.items }
    {
        if self.events.len() as u64 >= u64::from(MAX_EVENTS) {
            return false;
        }
        self.events
            .push(Event::Armed {
                seat,
                cpu: 0,
                value,
            })
            .is_ok()
    }

    /// Admits a client's seat that the story doesn't have; false where it has, or where there is no
    /// room or no memory.
    pub fn admit(&mut self, seat: u32) -> bool
        ensures head { self.new.head ≡ self.old.head }
        ensures room { KeepsLimit self.old.events.items self.new.events.items }
        ensures no { result ≡ false → self.new.events.items ≡ self.old.events.items }
        ensures yes { result ≡ true →
            self.new.events.items ≡ self.old.events.items ++ AnAdmit seat AClient ∷ [] }
        ensures is_new { result ≡ true →
            list_all (λ e. not (seat_of e == seat)) self.old.events.items ≡ true }
    {
        if self.events.len() as u64 >= u64::from(MAX_EVENTS)
            || !is_new(self.events.as_slice(), seat)
        {
            return false;
        }
        let role = Role::Client;
        self.events.push(Event::Admit { seat, role }).is_ok()
    }
}
