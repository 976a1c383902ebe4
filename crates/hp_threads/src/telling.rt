//! Each pass is told what the root has seen.

ghost use Rattle.std.specs.Prelude.{◌≡◌, All, IfOk, map};
ghost use Rattle.hp_live.specs.Known.{IsOf};
ghost use Rattle.hp_threads.specs.Admitting.{HasHeard, HaveHeard, IsSeated, asks_in, pass_in};

use crate::job::Job;
use hp_hook::Hook;
use hp_live::{Hotplug, Parked, ParkedAp, Root};
use hp_states::NoMemory;
use std::alloc::Global;

/// Each of the processors' threads hears what the root has seen. Takes memory; where that is wanting: `NoMemory`.
pub(crate) fn tell_threads<H: Hook + Send>(
    alloc: Global,
    machine: &Hotplug<H>,
    root: &mut Root<H>,
    passes: Vec<ParkedAp<H>>,
) -> Result<Vec<ParkedAp<H>>, NoMemory>
    requires own { IsOf machine.now root.old.lock }
    requires passes { All (IsSeated root.old.lock root.old.head) passes.items }
    ensures root { root.new ≡ root.old }
    ensures heard { IfOk result (λ told. HaveHeard root.old.front passes.items told.items) }
{
    let mut told = Vec::new(alloc);
    for pass in passes {
        told.push(tell_thread(machine, root, pass))?;
    }
    Ok(told)
}

/// One of them does.
fn tell_thread<H: Hook + Send>(
    machine: &Hotplug<H>,
    root: &mut Root<H>,
    parked: ParkedAp<H>,
) -> ParkedAp<H>
    requires own { IsOf machine.now root.old.lock }
    requires pass { IsSeated root.old.lock root.old.head parked }
    ensures root { root.new ≡ root.old }
    ensures heard { HasHeard root.old.front parked result }
{
    let mut pass = parked.resume();
    machine.tell_ap(root, &mut pass);
    pass.park()
}

/// Each of the actors hears what the root has seen. Takes memory; where that is wanting: `NoMemory`.
pub(crate) fn tell_actors<H: Hook + Send>(
    alloc: Global,
    machine: &Hotplug<H>,
    root: &mut Root<H>,
    jobs: Vec<Job<H>>,
) -> Result<Vec<Job<H>>, NoMemory>
    requires own { IsOf machine.now root.old.lock }
    requires jobs { All (IsSeated root.old.lock root.old.head) (map pass_in jobs.items) }
    ensures root { root.new ≡ root.old }
    ensures heard { IfOk result (λ told. HaveHeard root.old.front (map pass_in jobs.items) (map pass_in told.items)) }
    ensures asks { IfOk result (λ told. map asks_in told.items ≡ map asks_in jobs.items) }
{
    let mut told = Vec::new(alloc);
    for job in jobs {
        let Job { pass, asks } = job;
        let pass = tell_client(machine, root, pass);
        told.push(Job { pass, asks })?;
    }
    Ok(told)
}

/// One of them does.
fn tell_client<H: Hook + Send>(
    machine: &Hotplug<H>,
    root: &mut Root<H>,
    parked: Parked<H>,
) -> Parked<H>
    requires own { IsOf machine.now root.old.lock }
    requires pass { IsSeated root.old.lock root.old.head parked }
    ensures root { root.new ≡ root.old }
    ensures heard { HasHeard root.old.front parked result }
{
    let mut pass = parked.resume();
    machine.tell(root, &mut pass);
    pass.park()
}
