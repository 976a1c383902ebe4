//! What queues hold, at their end.

ghost use Rattle.std.specs.Prelude.{◌≡◌, ◌<◌, All, IfOk, map};
ghost use Rattle.hp_work.specs.Drained.{Holds, IsQueueAt, queue_in, queue_at, with_items};
ghost use Rattle.hp_states.specs.declared.limits.TheConstants.{MAX_CPU_SET as MAX_CPU_SET_OF};

use crate::chains::{Chains, UNBOUND};
use hp_event::{Items, Numbers};
use hp_states::{MAX_CPU_SET, NoMemory};
use std::alloc::{AllocError, Global};
use std::thread;
use std::thread::Threads;

/// The queue of a processor, with its items in order.
#[derive(Debug, Drop)]
pub struct Drained {
    pub cpu: u32,
    pub items: Numbers,
}

/// A list of queues.
pub type Drains = Items<Drained>;

/// What queues hold.
#[derive(Drop)]
pub struct Drain {
    /// The queues that have items, in rising processor number.
    pub queues: Drains,
    /// The unbound list.
    pub unbound: Numbers,
    /// The items that ran.
    pub ran: Numbers,
}

/// What the lists hold, with what ran.
pub(crate) fn drain_of<R: Threads + Sync>(
    rt: &R,
    lists: &Chains,
    ran: Vec<u32>,
) -> Result<Drain, NoMemory>
    ensures { IfOk result (λ drain. Holds lists.now ran.items drain) }
{
    let alloc = *ran.allocator();
    let cpus = with_items(alloc, lists)?;
    let queues = collected(rt, alloc, lists, cpus.as_slice())?;
    let unbound = Numbers::from_vec(lists.items(alloc, UNBOUND)?);
    Ok(Drain {
        queues: Drains::from_vec(queues),
        unbound,
        ran: Numbers::from_vec(ran),
    })
}

/// The processors whose queues have items, rising.
fn with_items(alloc: Global, lists: &Chains) -> Result<Vec<u32>, AllocError>
    ensures { IfOk result (λ cpus. cpus.items ≡ with_items lists.now) }
{
    let mut cpus = Vec::new(alloc);
    for cpu in 0..MAX_CPU_SET {
        if !lists.is_empty(cpu as usize) {
            cpus.push(cpu)?;
        }
    }
    Ok(cpus)
}

/// Their queues, each collected by a job of its own.
fn collected<R: Threads + Sync>(
    rt: &R,
    alloc: Global,
    lists: &Chains,
    cpus: &[u32],
) -> Result<Vec<Drained>, AllocError>
    requires { All (λ c. c < MAX_CPU_SET_OF) cpus.now }
    ensures { IfOk result (λ queues. queues.items ≡ map (queue_in lists.now) cpus.now) }
{
    let found = thread::map_indices(
        rt,
        alloc,
        cpus.len(),
        &|at|
            requires { IsQueueAt cpus.now at }
            ensures { IfOk result (λ queue. queue ≡ queue_at lists.entry.now cpus.entry.now at) }
        { drained_of(alloc, lists, cpus[at]) },
    )?;
    let mut queues = Vec::new(alloc);
    for queue in found {
        queues.push(queue?)?;
    }
    Ok(queues)
}

/// The queue of a processor.
fn drained_of(alloc: Global, lists: &Chains, cpu: u32) -> Result<Drained, AllocError>
    requires { cpu < MAX_CPU_SET_OF }
    ensures { IfOk result (λ queue. queue ≡ queue_in lists.now cpu) }
{
    let items = lists.items(alloc, cpu as usize)?;
    Ok(Drained {
        cpu,
        items: Numbers::from_vec(items),
    })
}
