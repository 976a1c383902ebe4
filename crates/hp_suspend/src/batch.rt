//! The walks of an upmany.

ghost use Rattle.std.specs.Prelude.{◌≡◌, ℕ, ◌+◌, ◌<◌, ◌≤◌, length, true, not, ◌==◌, ◌&&◌};
ghost use Rattle.hp_states.specs.declared.limits.TheConstants.{MAX_CPUS as MAX_CPUS_OF, MAX_CPU_SET, MAX_EVENTS};
ghost use Rattle.hp_states.specs.CpuSets.{has};
ghost use Rattle.hp_event.specs.declared.op.Op.TheVariants as op;
ghost use Rattle.hp_suspend.specs.Batching.{BatchEnters, BatchBegan, BatchTook};
ghost use Rattle.hp_suspend.specs.ByJournal.{IsNextOfBatch};

use hp_event::Answer;
use hp_states::{CpuSet, ONLINE};

/// An upmany on its way: which of its batch are still to begin, and how many walks failed.
///
/// It is plain data and takes no memory. This project's own.
#[derive(Clone, Copy)]
pub struct Batch {
    /// Those of its batch whose walks haven't begun.
    left: CpuSet,
    /// Whether one has.
    begun: bool,
    failed: u32,
}

impl Batch {
    /// The upmany of these processors that has just entered, with no walk begun: its batch are
    /// those that aren't up.
    ///
    /// `settled` says where each possible processor stands. Takes no memory, and a time linear in
    /// the list.
    pub fn begin(set: &CpuSet, settled: &[u32]) -> Batch
        requires few { length settled.now ≤ MAX_CPUS_OF }
        ensures { BatchEnters set.now settled.now result }
    {
        let mut left = CpuSet::none();
        for cpu in 0..settled.len() as u32 {
            if set.has(cpu) && settled[cpu as usize] < ONLINE {
                left.put(cpu);
            }
        }
        Batch {
            left,
            begun: false,
            failed: 0,
        }
    }

    /// The processor whose walk begins next, to ONLINE: the lowest of the batch that hasn't begun.
    ///
    /// Takes no memory, and a time that doesn't grow with the processors.
    pub fn next(&self) -> Option<u32>
        ensures { IsNextOfBatch self.now result }
    {
        self.left.first_from(0)
    }

    /// Whether a processor is one of the batch that hasn't begun. The number is at most 255. Takes
    /// no memory.
    pub fn is_left(&self, cpu: u32) -> bool
        requires { cpu < MAX_CPU_SET }
        ensures { result ≡ has self.now.left cpu }
    {
        self.left.has(cpu)
    }

    /// Whether a walk of it has begun. Takes no memory.
    pub fn is_begun(&self) -> bool
        ensures { result ≡ self.now.begun }
    {
        self.begun
    }

    /// How many of its walks didn't answer Ok. Takes no memory.
    pub fn failed(&self) -> u32
        ensures { result ≡ self.now.failed }
    {
        self.failed
    }

    /// The walk of a processor has begun, which `next` has answered. Takes no memory.
    pub fn began(&mut self, cpu: u32)
        requires { cpu < MAX_CPUS_OF }
        ensures batching { BatchBegan self.old cpu self.new }
        ensures left { (c : ℕ) → has self.new.left c ≡ (not (c == cpu) && has self.old.left c) }
        ensures begun { self.new.begun ≡ true }
    {
        self.left.take(cpu);
        self.begun = true;
    }

    /// Goes on past a walk of it that has ended with this answer.
    ///
    /// Fewer walks failed than a journal has room for, as is so of any journal. Takes no memory.
    pub fn took(&mut self, answer: Answer)
        requires { self.old.failed < MAX_EVENTS }
        ensures batching { BatchTook self.old answer self.new }
        ensures one_more { self.new.failed ≤ self.old.failed + 1 }
    {
        if !answer.is_ok() {
            self.failed += 1;
        }
    }
}
