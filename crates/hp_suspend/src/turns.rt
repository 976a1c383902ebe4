//! Whose turn it is in an upmany.

ghost use Rattle.std.specs.Prelude.{◌≡◌, ◌<◌, ◌≤◌, true, [], length, IfOk};
ghost use Rattle.hp_model.specs.BatchQueue.{first, from_front, at_end};

use hp_states::NoMemory;
use std::alloc::Global;
use std::collections::VecDeque;
use std::marker::Model;

/// The processors with whose walks the seat of an upmany goes on, in the order of their turns.
///
/// Contracts see them, and for how many there is room (`Queue`). After a round-robin run queue;
/// this project's own.
#[derive(Drop)]
pub struct Turns {
    cpus: VecDeque<u32>,
}

impl Model for Turns {
    ghost use Rattle.std.specs.VecDeque.{deque_capacity};
    ghost use Rattle.hp_suspend.specs.Turns.{Queue};

    ghost Value = { Queue };

    ghost view = { λ t. record { cpus = t.cpus.items; room = deque_capacity t.cpus } };

    ghost invariant = { λ t. Unit {0} };
}

impl Turns {
    /// An empty queue with room for so many processors.
    ///
    /// Takes memory for them; where there is none: `NoMemory`. This project's own.
    pub fn new(alloc: Global, cpus: u32) -> Result<Turns, NoMemory>
        ensures { IfOk result (λ t. (t.cpus ≡ []) × (cpus ≤ t.room)) }
    {
        Ok(Turns {
            cpus: VecDeque::with_capacity(alloc, cpus as usize)?,
        })
    }

    /// The processor whose turn it is: the one at the front. None where the queue is empty.
    ///
    /// Takes no memory. This project's own.
    pub fn first(&self) -> Option<u32>
        ensures { result ≡ first self.now.cpus }
    {
        self.cpus.front().copied()
    }

    /// An event was made of the walk of a processor: takes that processor from the front, if it
    /// stands there, and puts it at the end where the next event of its walk is the seat's own.
    ///
    /// Where it is put at the end there is room for it, as in a queue with room for each possible
    /// processor of a lawful journal. The order of the others stays. Takes no memory, and a
    /// constant time. This project's own.
    pub fn moved(&mut self, cpu: u32, own: bool)
        requires { own ≡ true → length (from_front cpu self.old.cpus) < self.old.room }
        ensures cpus { self.new.cpus ≡ at_end own cpu (from_front cpu self.old.cpus) }
        ensures room { self.new.room ≡ self.old.room }
    {
        if self.first() == Some(cpu) {
            self.cpus.pop_front();
        }
        if own {
            self.cpus.push_back_reserved(cpu);
        }
    }
}
