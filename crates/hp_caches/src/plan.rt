//! What a run is to do.

ghost use Rattle.std.specs.Prelude.{◌≡◌, ◌<◌, ◌≤◌, ◌+◌, ◌*◌, IfOk, IfErr, OnOk};
ghost use Rattle.hp_states.specs.declared.limits.TheConstants.{MAX_EVENTS};
ghost use Rattle.hp_caches.specs.Plans.{IsOutside, IsPlan, events_of};

/// How many processors there are, each with a cache.
pub const CPUS: u32 = 4;

/// The most workers, items of one, and rounds of a plan: with these the journal has room for all events.
pub const MAX_WORKERS: u32 = 16;

pub const MAX_ITEMS: u32 = 10_000;

pub const MAX_ROUNDS: u32 = 1_000;

/// What of a plan is out of its range: the first in this order.
#[derive(Clone, Copy, Debug, PartialEq, Eq)]
pub enum PlanError {
    /// There are 1 to `MAX_WORKERS` workers.
    Workers,
    /// Each puts up to `MAX_ITEMS` items.
    Items,
    /// There are up to `MAX_ROUNDS` rounds.
    Rounds,
}

/// So many workers, items that each of them puts, and rounds in which each processor but the first goes down and comes up.
#[derive(Clone, Copy, Debug, PartialEq, Eq)]
pub struct Plan {
    workers: u32,
    items: u32,
    rounds: u32,
    ghost in_range: { IsPlan workers items rounds },
}

impl Plan {
    /// The plan of so many workers, items of each, and rounds.
    ///
    /// - `Workers` exactly where there is none, or more than `MAX_WORKERS`.
    /// - `Items` exactly where the workers are in their range, and each puts more than `MAX_ITEMS`.
    /// - `Rounds` exactly where both are in their ranges, and there are more than `MAX_ROUNDS`.
    ///
    /// Takes no memory.
    pub fn new(workers: u32, items: u32, rounds: u32) -> Result<Plan, PlanError>
        ensures plan { IfOk result (λ plan. (plan.workers ≡ workers) × (plan.items ≡ items) × (plan.rounds ≡ rounds)) }
        ensures in_range { OnOk result (IsPlan workers items rounds) }
        ensures refused { IfErr result (IsOutside workers items rounds) }
    {
        if workers == 0 || workers > MAX_WORKERS {
            return Err(PlanError::Workers);
        }
        if items > MAX_ITEMS {
            return Err(PlanError::Items);
        }
        if rounds > MAX_ROUNDS {
            return Err(PlanError::Rounds);
        }
        Ok(Plan {
            workers,
            items,
            rounds,
        })
    }

    /// How many workers there are.
    pub fn workers(&self) -> u32
        ensures { result ≡ self.now.workers }
    {
        self.workers
    }

    /// How many items each of them puts.
    pub fn items(&self) -> u32
        ensures { result ≡ self.now.items }
    {
        self.items
    }

    /// How many rounds there are.
    pub fn rounds(&self) -> u32
        ensures { result ≡ self.now.rounds }
    {
        self.rounds
    }

    /// How many items all workers put.
    pub fn count(&self) -> u32
        ensures { result ≡ self.now.workers * self.now.items }
    {
        let _in_range = *self;
        self.workers * self.items
    }

    /// The first item of a worker, which puts that and the next ones: the workers' items are the numbers below `count`.
    pub fn first_item(&self, worker: u32) -> u32
        requires { worker < self.now.workers }
        ensures first { result ≡ worker * self.now.items }
        ensures below { result + self.now.items ≤ self.now.workers * self.now.items }
    {
        let _in_range = *self;
        worker * self.items
    }

    /// How many events the journal of such a run has, in whatever order its threads come.
    ///
    /// The seats of the threads, the client that administers and the workers come in and leave. Each item has a read section
    /// of two events. The setup has 3 events, the boot 11; in a round each of three processors goes down and comes up by 5
    /// events each; the freeze has 11, and so has the thaw.
    pub fn events(&self) -> u32
        ensures is { result ≡ events_of self.now.workers self.now.items self.now.rounds }
        ensures fits { result ≤ MAX_EVENTS }
    {
        let _in_range = *self;
        let seats = CPUS + 1 + self.workers;
        2 * seats + 2 * self.count() + 14 + 30 * self.rounds + 22
    }
}
