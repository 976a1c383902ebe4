//! A journal is counted.

ghost use Rattle.std.specs.Prelude.{◌≡◌, ◌+◌, ◌^◌, ◌≤◌, pos};
ghost use Rattle.hp_states.specs.declared.limits.TheConstants.{MAX_CPU_SET};
ghost use Rattle.hp_model.specs.Lawful.{IsLawful};
ghost use Rattle.hp_pcount.specs.Tally.{total};
ghost use Rattle.hp_pcount.specs.Counted.{one_on_each as one_on_each_of, counted, in_force_over};

use crate::counters::Counters;
use crate::limits::{LAST_FOLLOWED, MAX_BATCH};
use hp_event::Journal;

/// Goes through a lawful journal with counters of a state: after each event they follow it, and 1 is
/// added on each open processor in rising number.
///
/// The total is the sum, over the fronts of the journal but the empty one, of on how many processors the
/// state is in force after it. The state is 1 to `LAST_FOLLOWED`, the batch 1 to `MAX_BATCH`. Takes no
/// memory, and a time linear in the journal. This project's own.
pub fn count(journal: &Journal, state: u32, batch: u32) -> Counters
    requires lawful { IsLawful journal.now.head journal.now.events }
    requires state { (1 ≤ state) × (state ≤ LAST_FOLLOWED) }
    requires batch { (1 ≤ batch) × (batch ≤ MAX_BATCH) }
    ensures exactly { result ≡ counted state batch journal.now.events }
    ensures total { total result ≡ pos (in_force_over journal.now.head state journal.now.events) }
{
    let mut counters = Counters::new(state, batch);
    for event in journal.events() {
        counters.follow(event);
        one_on_each(&mut counters);
    }
    counters
}

/// Adds 1 on each open processor, in rising number.
fn one_on_each(counters: &mut Counters)
    requires { counters.old.adds + MAX_CPU_SET ≤ 2 ^ 62 }
    ensures exactly { counters.new ≡ one_on_each_of counters.old }
    ensures few { counters.new.adds ≤ counters.old.adds + MAX_CPU_SET }
{
    let mut from = 0;
    while let Some(cpu) = counters.first_open(from) {
        counters.add(cpu, 1).unwrap();
        from = cpu + 1;
    }
}
