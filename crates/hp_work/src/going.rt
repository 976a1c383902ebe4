//! Queues go through a journal.

ghost use Rattle.std.specs.Prelude.{◌≡◌, ◌≤◌, IfOk};
ghost use Rattle.hp_model.specs.Lawful.{IsLawful};
ghost use Rattle.hp_work.specs.Worked.{put_on_each as put_on_each_of, run_on_each as run_on_each_of, worked};

use crate::limits::{LAST_FOLLOWED, MAX_ITEMS};
use crate::queues::Queues;
use hp_event::Journal;
use hp_states::NoMemory;
use std::alloc::Global;

/// Goes through a lawful journal with queues of a state: after each event they follow it, then an item is put on each open
/// processor in rising number, while fewer than `MAX_ITEMS` were put; and after every third event, then, the front of each
/// open processor's queue runs, in rising number.
///
/// The state is 1 to `LAST_FOLLOWED`. Takes the memory of the queues; where there is none: `NoMemory`. Takes a time linear
/// in the journal. This project's own.
pub fn go_through(alloc: Global, journal: &Journal, state: u32) -> Result<Queues, NoMemory>
    requires lawful { IsLawful journal.now.head journal.now.events }
    requires state { (1 ≤ state) × (state ≤ LAST_FOLLOWED) }
    ensures { IfOk result (λ queues. queues ≡ worked state journal.now.events) }
{
    let mut queues = Queues::new(alloc, state)?;
    let mut number = 0u64;
    for event in journal.events() {
        queues.follow(event);
        put_on_each(&mut queues);
        number += 1;
        if number % 3 == 0 {
            run_on_each(&mut queues);
        }
    }
    Ok(queues)
}

/// Puts an item on each open processor, in rising number, while there is room.
fn put_on_each(queues: &mut Queues)
    ensures { queues.new ≡ put_on_each_of queues.old }
{
    let mut from = 0;
    while let Some(cpu) = queues.first_open(from) {
        if queues.count() < MAX_ITEMS {
            queues.put(cpu).unwrap();
        }
        from = cpu + 1;
    }
}

/// Runs the front of each open processor's queue, in rising number.
fn run_on_each(queues: &mut Queues)
    ensures { queues.new ≡ run_on_each_of queues.old }
{
    let mut from = 0;
    while let Some(cpu) = queues.first_open(from) {
        queues.run(cpu);
        from = cpu + 1;
    }
}
