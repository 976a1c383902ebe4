//! Where processors stand.

ghost use Rattle.std.specs.Prelude.{◌≡◌, ◌+◌, ◌<◌, ◌≤◌, ◌==◌, if◌then◌else◌, ℕ, [], None, true, false, IfOk, length, replicate, slice_index, slice_set, get_or};
ghost use Rattle.hp_states.specs.CpuSets.{has};
ghost use Rattle.hp_states.specs.declared.limits.TheConstants.{MAX_CPUS, MAX_CPU_SET, ONLINE};
ghost use Rattle.hp_model.specs.Heads.{IsHead};
ghost use Rattle.hp_model.specs.Processors.{is_present};
ghost use Rattle.hp_account.specs.Flags.{AreFlags};
ghost use Rattle.hp_account.specs.Places.{at_place};
ghost use Rattle.hp_account.specs.Processors.{online_flags, online_count, one_if, with_settled, with_armed, IsOnlineSet, IsStanding};

use hp_event::Head;
use hp_states::{CpuSet, MAX_CPUS, NoMemory, OFFLINE, ONLINE, TEARDOWN_CPU};
use std::alloc::Global;
use std::marker::Model;

/// The possible processors of a machine: where each was left by its last walk, at which state it is
/// armed, and whether it is present.
///
/// Contracts see the three lists (`ProcessorsView`). After `struct cpuhp_cpu_state` of `kernel/cpu.c`;
/// what a stuck walk leaves is this project's own.
#[derive(Drop)]
pub struct Processors {
    settled: Vec<u32>,
    armed: Vec<Option<u32>>,
    present: Vec<bool>,
    online: Vec<bool>,
    online_set: CpuSet,
    online_count: u32,
}

impl Model for Processors {
    ghost use Rattle.hp_account.specs.Processors.{ProcessorsView, IsSound};

    ghost Value = { ProcessorsView };

    ghost view = { λ p. record { settled = p.settled.items; armed = p.armed.items; present = p.present.items } };

    ghost invariant = { λ p. IsSound p.settled.items p.online.items p.online_set p.online_count };
}

impl Processors {
    /// The processors of a machine at its start: the first stands at 200 and all others at 0, and none
    /// is armed.
    ///
    /// The head is one that a machine can be started with. Takes memory for a place for each processor.
    pub fn new(alloc: Global, head: &Head) -> Result<Processors, NoMemory>
        requires { IsHead head.now }
        ensures { IfOk result (λ p. IsStanding head.now [] p) }
    {
        let settled = first_states(alloc, head.possible)?;
        let online = first_online(alloc, head.possible)?;
        let armed = nowhere_armed(alloc, head.possible)?;
        let mut present = Vec::with_capacity(alloc, head.possible as usize)?;
        for cpu in 0..head.possible {
            present.push(head.is_present(cpu))?;
        }
        Ok(Processors {
            settled,
            armed,
            present,
            online,
            online_set: first_alone(),
            online_count: 1,
        })
    }

    /// Where each processor stands; there are at most `MAX_CPUS`. Takes no memory.
    pub fn settled(&self) -> &[u32]
        ensures settled { result.now ≡ self.now.settled }
        ensures few { length result.now ≤ MAX_CPUS }
    {
        let _ = &self.online;
        self.settled.as_slice()
    }

    /// The state where a processor stands: 0 where it is no possible one. Takes no memory.
    pub fn state(&self, cpu: u32) -> u32
        ensures { result ≡ slice_index self.now.settled cpu }
    {
        self.settled.get(cpu as usize).copied().unwrap_or(OFFLINE)
    }

    /// The state at which a processor is armed, if it is. Takes no memory.
    pub fn armed(&self, cpu: u32) -> Option<u32>
        ensures { result ≡ at_place self.now.armed cpu }
    {
        self.armed.get(cpu as usize).copied().flatten()
    }

    /// Of each processor whether it is present. Takes no memory.
    pub fn present(&self) -> &[bool]
        ensures { result.now ≡ self.now.present }
    {
        self.present.as_slice()
    }

    /// Whether a processor is present; a number that is no processor isn't. Takes no memory.
    pub fn is_present(&self, cpu: u32) -> bool
        ensures { result ≡ get_or self.now.present cpu false }
    {
        self.present.get(cpu as usize).copied().unwrap_or(false)
    }

    /// The processors that are online. Takes no memory, and a time that doesn't grow with the processors.
    pub fn online_set(&self) -> CpuSet
        ensures { IsOnlineSet self.now.settled result }
    {
        self.online_set
    }

    /// Of each processor whether it is online. Takes no memory.
    pub fn online(&self) -> &[bool]
        ensures online { result.now ≡ online_flags self.now }
        ensures few { length result.now ≤ MAX_CPUS }
    {
        self.online.as_slice()
    }

    /// How many processors are online. Takes no memory.
    pub fn online_count(&self) -> u32
        ensures count { result ≡ online_count self.now }
        ensures few { result ≤ MAX_CPUS }
    {
        self.online_count
    }

    /// A walk left a processor at this state. Takes no memory.
    pub fn settle(&mut self, cpu: u32, state: u32)
        requires { cpu < length self.old.settled }
        ensures { self.new ≡ with_settled cpu state self.old }
    {
        let place = cpu as usize;
        let was_online = self.settled[place] >= TEARDOWN_CPU;
        let is_online = state >= TEARDOWN_CPU;
        self.settled[place] = state;
        self.online[place] = is_online;
        mark(&mut self.online_set, cpu, is_online);
        self.online_count = count_after(self.online_count, was_online, is_online);
    }

    /// A processor is armed at this state, or at none. Takes no memory.
    pub fn arm(&mut self, cpu: u32, state: Option<u32>)
        requires { cpu < length self.old.armed }
        ensures { self.new ≡ with_armed cpu state self.old }
    {
        self.armed[cpu as usize] = state;
    }
}

/// Where processors stand at the start: the first at 200, all others at 0.
fn first_states(alloc: Global, cpus: u32) -> Result<Vec<u32>, NoMemory>
    requires { 0 < cpus }
    ensures { IfOk result (λ v. v.items ≡ slice_set (replicate cpus 0) 0 200) }
{
    let mut settled = vec![in alloc; OFFLINE; cpus as usize]?;
    settled[0] = ONLINE;
    Ok(settled)
}

/// Which processors are online at the start: the first.
fn first_online(alloc: Global, cpus: u32) -> Result<Vec<bool>, NoMemory>
    requires { 0 < cpus }
    ensures { IfOk result (λ v. v.items ≡ slice_set (replicate cpus false) 0 true) }
{
    let mut online = vec![in alloc; false; cpus as usize]?;
    online[0] = true;
    Ok(online)
}

/// The processors that are online at the start, as a set: the first.
fn first_alone() -> CpuSet
    ensures { (cpu : ℕ) → has result cpu ≡ (cpu == 0) }
{
    let mut set = CpuSet::none();
    set.put(0);
    set
}

/// A processor is in a set from here on, or isn't.
fn mark(set: &mut CpuSet, cpu: u32, is_in: bool)
    requires { cpu < MAX_CPU_SET }
    ensures { (other : ℕ) → has set.new other ≡ (if other == cpu then is_in else has set.old other) }
{
    if is_in {
        set.put(cpu);
    } else {
        set.take(cpu);
    }
}

/// At which states processors are armed at the start: none.
fn nowhere_armed(alloc: Global, cpus: u32) -> Result<Vec<Option<u32>>, NoMemory>
    ensures { IfOk result (λ v. v.items ≡ replicate cpus None) }
{
    Ok(vec![in alloc; None; cpus as usize]?)
}

/// How many are online after one of them was or wasn't, and now is or isn't.
fn count_after(count: u32, was_online: bool, is_online: bool) -> u32
    requires was { one_if was_online ≤ count }
    requires few { count ≤ MAX_CPUS }
    ensures { result + one_if was_online ≡ count + one_if is_online }
{
    match (was_online, is_online) {
        (true, false) => count - 1,
        (false, true) => count + 1,
        _ => count,
    }
}
