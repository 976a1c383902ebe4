//! The queues of the processors.

ghost use Rattle.std.specs.Prelude.{◌≡◌, ◌≢◌, ◌↔◌, ℕ, ◌<◌, ◌≤◌, [], true, false, Err, IfOk, IfSome, IfNone, OnOk, OnErr, length, slice_get};
ghost use Rattle.hp_states.specs.declared.limits.TheConstants.{MAX_CPU_SET as MAX_CPU_SET_OF};
ghost use Rattle.hp_work.specs.declared.limits.TheConstants.{MAX_ITEMS as MAX_ITEMS_OF};
ghost use Rattle.hp_work.specs.Work.{queue, is_open, none_put, StandOnce};
ghost use Rattle.hp_work.specs.declared.chains.TheConstants.{LISTS as LISTS_OF};
ghost use Rattle.hp_states.specs.CpuSets.{has};
ghost use Rattle.hp_work.specs.Inside.{places};
ghost use Rattle.hp_work.specs.Changes.{is_followed, lowest_from, goes_to, moves, followed, put_on, ran_on};
ghost use Rattle.hp_work.specs.Drained.{IsDrained};
ghost use Rattle.hp_work.specs.Worked.{IsFirstOpen, HasNoneOpen};
ghost use Rattle.hp_work.specs.Follows.{HasQueue, OpensBy, FollowsLawful, OpensAsBefore};

use crate::chains::{Chains, UNBOUND};
use crate::drain::{Drain, drain_of};
use crate::limits::{LAST_FOLLOWED, MAX_ITEMS};
use hp_event::{Event, How};
use hp_states::{CpuSet, Dir, MAX_CPU_SET, NoMemory};
use std::alloc::Global;
use std::marker::Model;
use std::thread::Threads;

/// Why an item isn't put.
#[derive(Clone, Copy, Debug, PartialEq, Eq)]
pub enum PutError {
    /// The processor isn't open.
    Offline,
    /// The processor is open, and as many items were put as can be.
    Full,
}

/// A queue of items for each processor, which follow a state.
///
/// Contracts see them as `Work`. A processor is open while the state is in force on it. Each item that was put stands
/// exactly once in what ran, the queues and the unbound list. After `struct worker_pool` of `kernel/workqueue.c`; that
/// queues follow a state's entries is this project's own.
#[derive(Drop)]
pub struct Queues {
    state: u32,
    opened: CpuSet,
    lists: Chains,
    ran: Vec<u32>,
    put: u32,
}

impl Model for Queues {
    ghost use Rattle.hp_work.specs.Work.{Work};
    ghost use Rattle.hp_work.specs.Inside.{IsSound, work};

    ghost Value = { Work };

    ghost view = { work };

    ghost invariant = { IsSound };
}

impl Queues {
    /// Queues that follow the callbacks of a state without instances: no item was put, and no processor is open.
    ///
    /// The state is 1 to `LAST_FOLLOWED`. Takes memory for `MAX_ITEMS` items, so that no later call of these queues but `drain` takes any;
    /// where there is none: `NoMemory`. After `init_worker_pool` of `kernel/workqueue.c`.
    pub fn new(alloc: Global, state: u32) -> Result<Queues, NoMemory>
        requires { (1 ≤ state) × (state ≤ LAST_FOLLOWED) }
        ensures none { IfOk result (λ queues. queues ≡ none_put state) }
        ensures opens { IfOk result (OpensBy []) }
    {
        let mut ran = Vec::new(alloc);
        ran.reserve(MAX_ITEMS as usize)?;
        Ok(Queues {
            state,
            opened: CpuSet::none(),
            lists: Chains::new(alloc)?,
            ran,
            put: 0,
        })
    }

    /// Follows one event: a done upward entry of the state opens its processor, which takes the unbound list behind its
    /// queue; a done downward entry closes its processor, whose queue moves, whole and in order, to the tail of that of
    /// the lowest open one, or of the unbound list where none is open; every other event changes nothing.
    ///
    /// The processor of an entry is at most 255. Takes no memory, and a constant time, however many items move. After
    /// `workqueue_online_cpu` and `workqueue_offline_cpu` of `kernel/workqueue.c`.
    pub fn follow(&mut self, event: &Event)
        requires { HasQueue event.now }
        ensures exactly { self.new ≡ followed event.now self.old }
        ensures lawful { FollowsLawful self.old event.now self.new }
    {
        if let Event::Call {
            cpu,
            state,
            inst,
            dir,
            how,
            ..
        } = *event
        {
            if self.is_followed(state, inst, how) {
                match dir {
                    Dir::Up => self.open(cpu),
                    Dir::Down => self.close(cpu),
                }
            }
        }
    }

    /// Whether an entry is a done one of the callback that is followed.
    fn is_followed(&self, state: u32, inst: u32, how: How) -> bool
        ensures { result ≡ is_followed self.now state inst how }
    {
        state == self.state && inst == 0 && how.is_done()
    }

    /// Opens a processor.
    fn open(&mut self, cpu: u32)
        requires { cpu < MAX_CPU_SET_OF }
        ensures exactly { self.new ≡ moves Dir.Up cpu self.old }
        ensures places { length self.old.opened ≡ MAX_CPU_SET_OF }
    {
        self.opened.put(cpu);
        self.lists.append(UNBOUND, cpu as usize);
    }

    /// Closes a processor, and moves its queue.
    fn close(&mut self, cpu: u32)
        requires { cpu < MAX_CPU_SET_OF }
        ensures exactly { self.new ≡ moves Dir.Down cpu self.old }
        ensures places { length self.old.opened ≡ MAX_CPU_SET_OF }
    {
        self.opened.take(cpu);
        let to = lowest_place(&self.opened);
        self.lists.append(cpu as usize, to);
    }

    /// Puts one item more at the tail of a processor's queue, and answers its number: so many items were put before.
    ///
    /// The processor is at most 255. `Offline` exactly where it isn't open; `Full` exactly where it is open and
    /// `MAX_ITEMS` items were put; either changes nothing. Takes no memory, and a constant time. After
    /// `insert_work` of `kernel/workqueue.c`.
    pub fn put(&mut self, cpu: u32) -> Result<u32, PutError>
        requires { cpu < MAX_CPU_SET_OF }
        ensures ok { OnOk result (self.new ≡ put_on cpu self.old) }
        ensures number { IfOk result (λ item. item ≡ self.old.put) }
        ensures offline { (result ≡ Err PutError.Offline) ↔ (is_open self.old cpu ≡ false) }
        ensures full { (result ≡ Err PutError.Full) ↔ ((is_open self.old cpu ≡ true) × (self.old.put ≡ MAX_ITEMS_OF)) }
        ensures stays { OnErr result (self.new ≡ self.old) }
        ensures opens { OpensAsBefore self.old self.new }
    {
        if !self.opened.has(cpu) {
            return Err(PutError::Offline);
        }
        if self.put >= MAX_ITEMS {
            return Err(PutError::Full);
        }
        let item = self.put;
        self.lists.push(cpu as usize, item);
        self.put += 1;
        Ok(item)
    }

    /// Runs the front of a processor's queue: it goes behind those that ran. None exactly where the queue has no items;
    /// then nothing changes.
    ///
    /// The processor is at most 255; a closed one has no items. Takes no memory, and a constant time. After
    /// `process_one_work` of `kernel/workqueue.c`.
    pub fn run(&mut self, cpu: u32) -> Option<u32>
        requires { cpu < MAX_CPU_SET_OF }
        ensures front { result ≡ slice_get (queue self.old cpu) 0 }
        ensures exactly { self.new ≡ ran_on cpu self.old }
        ensures opens { OpensAsBefore self.old self.new }
    {
        let item = self.lists.pop(cpu as usize)?;
        self.ran.push_reserved(item);
        Some(item)
    }

    /// The items that ran, in the order in which they did. Takes no memory. This project's own.
    pub fn ran(&self) -> &[u32]
        ensures { result.now ≡ self.now.ran }
    {
        self.ran.as_slice()
    }

    /// Whether a processor is open. Any number may be asked for: one above 255 is no processor's, and isn't open.
    ///
    /// Takes no memory. This project's own.
    pub fn is_open(&self, cpu: u32) -> bool
        ensures { result ≡ is_open self.now cpu }
    {
        cpu < MAX_CPU_SET && self.opened.has(cpu)
    }

    /// The lowest open processor whose number is at least `from`. None where there is none.
    ///
    /// `from` may be any number. Takes no memory, and a constant time. This project's own.
    pub fn first_open(&self, from: u32) -> Option<u32>
        ensures some { IfSome result (λ cpu. IsFirstOpen self.now from cpu) }
        ensures none { IfNone result (HasNoneOpen self.now from) }
    {
        self.opened.first_from(from)
    }

    /// How many items were put. Takes no memory. This project's own.
    pub fn count(&self) -> u32
        ensures exactly { result ≡ self.now.put }
        ensures few { result ≤ MAX_ITEMS_OF }
    {
        self.put
    }

    /// What holds at any time, whatever was followed, put and run: each item that was put stands exactly once in what ran,
    /// the queues and the unbound list together, and nothing else stands there. Does nothing, and takes no memory. This
    /// project's own.
    pub fn items_stand_once(&self)
        ensures { StandOnce self.now }
    {
        let _ = &self.put;
    }

    /// What the queues hold: those that have items, each collected by a job of its own, in rising processor number; the
    /// unbound list; and what ran. It is as if one thread had collected them. That the jobs run beside one another isn't
    /// said.
    ///
    /// Takes memory for the answer and for the jobs; where there is none: `NoMemory`. After `drain_workqueue` of
    /// `kernel/workqueue.c`.
    pub fn drain<R: Threads + Sync>(self, rt: &R) -> Result<Drain, NoMemory>
        ensures { IfOk result (IsDrained self) }
    {
        let Queues { lists, ran, .. } = self;
        drain_of(rt, &lists, ran)
    }
}

/// The place that takes the queue of a processor that closes: that of the lowest open one, or of the unbound list.
fn lowest_place(opened: &CpuSet) -> usize
    ensures exactly { result ≡ goes_to (lowest_from 0 (places opened.now)) }
    ensures place { result < LISTS_OF }
    ensures other { (cpu : ℕ) → cpu < MAX_CPU_SET_OF → has opened.now cpu ≡ false → cpu ≢ result }
{
    match opened.first_from(0) {
        Some(lowest) => lowest as usize,
        None => UNBOUND,
    }
}
