//! A script: the head of the machine, the operations of its actors, and the schedule.

ghost use Rattle.std.specs.Prelude.{◌≡◌, ◌<◌, ◌≤◌, length, slice_get, Some};
ghost use Rattle.hp_states.specs.declared.limits.TheConstants.{MAX_ACTORS};

use crate::schedule::Schedule;
use hp_event::{Head, Op};
use std::marker::Model;

/// What a script says.
#[derive(Drop)]
pub struct Script {
    pub(crate) head: Head,
    pub(crate) actors: Vec<Vec<Op>>,
    pub(crate) schedule: Schedule,
}

impl Model for Script {
    ghost use Rattle.std.specs.Prelude.{map, vec_items, vec_len, ◌≤◌};
    ghost use Rattle.hp_states.specs.declared.limits.TheConstants.{MAX_ACTORS};
    ghost use Rattle.hp_script.specs.Script.{Contents};

    ghost Value = { Contents };

    ghost invariant = { λ s. vec_len s.actors ≤ MAX_ACTORS };

    ghost view = { λ s. record {
      head = s.head;
      actors = map vec_items s.actors.items;
      schedule = s.schedule;
    } };
}

impl Script {
    /// The processors and the subsystems. Takes no memory.
    pub fn head(&self) -> &Head
        ensures { result.now ≡ self.now.head }
    {
        &self.head
    }

    /// How many actors there are. Takes no memory.
    pub fn actors(&self) -> u32
        ensures count { result ≡ length self.now.actors }
        ensures few { result ≤ MAX_ACTORS }
    {
        self.actors.len() as u32
    }

    /// The operations of an actor, counted from 0.
    ///
    /// `actor` is below the number of actors. Takes no memory.
    pub fn ops(&self, actor: u32) -> &[Op]
        requires { actor < length self.now.actors }
        ensures { slice_get self.now.actors actor ≡ Some result.now }
    {
        self.actors[actor as usize].as_slice()
    }

    /// The schedule. Takes no memory.
    pub fn schedule(&self) -> &Schedule
        ensures { result.now ≡ self.now.schedule }
    {
        &self.schedule
    }
}
