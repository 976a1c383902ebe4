//! The start of a machine, and the seats that come in.

ghost use Rattle.std.specs.Prelude.{◌≡◌, ◌+◌, ◌≤◌, [], true, false, All, IfOk, OnOk, length, map, sum_by};
ghost use Rattle.hp_event.specs.declared.event.Role.TheVariants.{Client, Ap};
ghost use Rattle.hp_live.specs.Known.{IsOf};
ghost use Rattle.hp_model.specs.Heads.{IsHead};
ghost use Rattle.hp_model.specs.Processors.{is_present, present};
ghost use Rattle.hp_threads.specs.Admitting.{HasEntered, HaveEntered, IsAdmitted, client_of, pass_in};
ghost use Rattle.hp_threads.specs.Loaded.{IsLoaded, ops_in};
ghost use Rattle.hp_script.specs.Playable.{setups_in};

use crate::job::Job;
use crate::loading::load;
use hp_board::{CpuPlan, StartError};
use hp_event::{Head, Op};
use hp_hook::{Hook, Rack};
use hp_live::{Hotplug, Parked, ParkedAp, Root};
use hp_script::Script;
use hp_states::NoMemory;
use std::alloc::Global;
use std::sync::Wait;

/// A machine of these processors and subsystems, in which no seat is.
///
/// The head is one that a machine can be started with. Takes memory; where that is wanting: `NoMemory`.
pub(crate) fn start_machine<H: Hook + Send>(
    alloc: Global,
    head: &Head,
) -> Result<(Hotplug<H>, Root<H>), NoMemory>
    requires { IsHead head.now }
    ensures own { IfOk result (λ r. IsOf r.0 r.1.lock) }
    ensures head { IfOk result (λ r. r.1.head ≡ head.now) }
    ensures front { IfOk result (λ r. r.1.front ≡ []) }
{
    let Head {
        possible,
        absent,
        subs,
    } = head.copy()?;
    match Hotplug::start(alloc, CpuPlan { possible, absent }, subs) {
        Ok(started) => Ok(started),
        Err(StartError::NoMemory) => Err(NoMemory),
        Err(_) => unreachable!(),
    }
}

/// Lets the threads of the present processors in, in rising number.
///
/// Takes memory; where that is wanting: `NoMemory`.
pub(crate) fn admit_threads<H: Hook + Send, R: Wait>(
    rt: &R,
    alloc: Global,
    machine: &Hotplug<H>,
    root: &mut Root<H>,
    head: &Head,
) -> Result<Vec<ParkedAp<H>>, NoMemory>
    requires { IsOf machine.now root.old.lock }
    ensures entered { IfOk result (λ passes.
        HaveEntered root.old root.new (map Ap (present head.now)) passes.items) }
{
    let mut passes = Vec::new(alloc);
    for cpu in 0..head.possible {
        admit_present(rt, machine, root, head, cpu, &mut passes)?;
    }
    Ok(passes)
}

/// Lets the thread of a processor in, if that is present, and puts its pass behind others.
fn admit_present<H: Hook + Send, R: Wait>(
    rt: &R,
    machine: &Hotplug<H>,
    root: &mut Root<H>,
    head: &Head,
    cpu: u32,
    passes: &mut Vec<ParkedAp<H>>,
) -> Result<(), NoMemory>
    requires { IsOf machine.now root.old.lock }
    ensures there { OnOk result (is_present head.now cpu ≡ true →
        HasEntered (Ap cpu) root.old root.new passes.old.items passes.new.items) }
    ensures absent { OnOk result (is_present head.now cpu ≡ false →
        (root.new ≡ root.old) × (passes.new.items ≡ passes.old.items)) }
{
    if head.is_present(cpu) {
        let pass = admit_thread(rt, machine, root, cpu)?;
        passes.push(pass)?;
    }
    Ok(())
}

/// Lets the thread of a processor in.
fn admit_thread<H: Hook + Send, R: Wait>(
    rt: &R,
    machine: &Hotplug<H>,
    root: &mut Root<H>,
    cpu: u32,
) -> Result<ParkedAp<H>, NoMemory>
    requires { IsOf machine.now root.old.lock }
    ensures admitted { IfOk result (IsAdmitted (Ap cpu) root.old root.new) }
{
    match machine.admit_ap(rt, root, cpu) {
        Ok(pass) => Ok(pass.park()),
        Err(_) => Err(NoMemory),
    }
}

/// Lets a client in for each actor of a script, in their order, with its operations: each setup has a hook of its own.
///
/// The rack has at least as many hooks as the script has setups. Takes memory; where that is wanting, some hooks
/// of the rack are lost: `NoMemory`.
pub(crate) fn admit_actors<H: Hook + Send, R: Wait>(
    rt: &R,
    alloc: Global,
    machine: &Hotplug<H>,
    root: &mut Root<H>,
    script: &Script,
    rack: &mut Rack<H>,
) -> Result<Vec<Job<H>>, NoMemory>
    requires own { IsOf machine.now root.old.lock }
    requires hooks { sum_by setups_in script.now.actors ≤ length rack.old.hooks.items }
    ensures entered { IfOk result (λ jobs.
        HaveEntered root.old root.new (map client_of script.now.actors) (map pass_in jobs.items)) }
    ensures ops { IfOk result (λ jobs. map ops_in jobs.items ≡ script.now.actors) }
    ensures loaded { IfOk result (λ jobs. All IsLoaded jobs.items) }
{
    let mut jobs = Vec::new(alloc);
    for number in 0..script.actors() {
        let job = admit_actor(rt, alloc, machine, root, script.ops(number), rack)?;
        jobs.push(job)?;
    }
    Ok(jobs)
}

/// Lets a client in, with these operations.
fn admit_actor<H: Hook + Send, R: Wait>(
    rt: &R,
    alloc: Global,
    machine: &Hotplug<H>,
    root: &mut Root<H>,
    ops: &[Op],
    rack: &mut Rack<H>,
) -> Result<Job<H>, NoMemory>
    requires own { IsOf machine.now root.old.lock }
    requires hooks { setups_in ops.now ≤ length rack.old.hooks.items }
    ensures admitted { IfOk result (λ job. IsAdmitted Client root.old root.new job.pass) }
    ensures ops { IfOk result (λ job. ops_in job ≡ ops.now) }
    ensures loaded { IfOk result IsLoaded }
    ensures rack { OnOk result (length rack.old.hooks.items ≡ length rack.new.hooks.items + setups_in ops.now) }
{
    let asks = load(alloc, ops, rack)?;
    let pass = admit_client(rt, machine, root)?;
    Ok(Job { pass, asks })
}

/// Lets a client in.
fn admit_client<H: Hook + Send, R: Wait>(
    rt: &R,
    machine: &Hotplug<H>,
    root: &mut Root<H>,
) -> Result<Parked<H>, NoMemory>
    requires { IsOf machine.now root.old.lock }
    ensures admitted { IfOk result (IsAdmitted Client root.old root.new) }
{
    match machine.admit(rt, root) {
        Ok(pass) => Ok(pass.park()),
        Err(_) => Err(NoMemory),
    }
}
