//! The whole run of a script.

ghost use Rattle.std.specs.Prelude.{◌≡◌, ◌≤◌, [], IfOk, OnOk, length, sum_by};
ghost use Rattle.hp_live.specs.Known.{IsOf};
ghost use Rattle.hp_model.specs.Scripts.{IsScript};
ghost use Rattle.hp_script.specs.Playable.{setups_in};
ghost use Rattle.hp_threads.specs.Journals.{IsJournalOf};
ghost use Rattle.hp_threads.specs.Opened.{IsOpened};

use crate::admitting::{admit_actors, admit_threads, start_machine};
use crate::ending::{close, leave_all, meet_all};
use crate::job::Job;
use crate::joining::{room_for, run_threads};
use crate::telling::{tell_actors, tell_threads};
use hp_event::Journal;
use hp_hook::{Hook, Rack};
use hp_live::{Gate, Hotplug, ParkedAp, Root};
use hp_script::Script;
use hp_states::NoMemory;
use std::alloc::Global;
use std::sync::Wait;
use std::thread::Threads;

/// Runs a script on threads: one for each of its actors, and one for each present processor. Answers its journal.
///
/// The seats of the present processors' threads are let in, in rising number, and then one for each actor, in the
/// script's order; the script's schedule isn't used. An actor's thread makes its operations, one after another, and its
/// leave; memory that is wanting there is waited for. The threads' seats leave last, in rising number. A thread that
/// can't be started is run by the caller, after the others were started: then it may wait for ever.
///
/// The script is one that can be played, and the rack has at least as many hooks as it has setups: each takes one
/// of its own. The rack's hooks are lost with it.
/// - `NoMemory` where memory was wanting before a thread was started, or where a seat wasn't let in. That
///   there is a seat and room for each is so of a script that can be played, where nobody else has the machine.
///
/// Waits for its threads, and takes memory. After the clients of `kernel/cpu.c` and `smpboot_thread_fn` of
/// `kernel/smpboot.c`; scripts are this project's own.
pub fn run_script<H: Hook + Send, R: Threads + Wait + Sync, G: Gate + Sync>(
    rt: &R,
    alloc: Global,
    script: &Script,
    mut rack: Rack<H>,
    gate: &G,
) -> Result<Journal, NoMemory>
    requires script { IsScript script.now.head script.now.actors }
    requires hooks { sum_by setups_in script.now.actors ≤ length rack.hooks.items }
    ensures head { IfOk result (λ journal. journal.head ≡ script.now.head) }
    ensures journal { IfOk result (λ journal. IsJournalOf script.now journal.events) }
{
    let (machine, mut root) = start_machine(alloc, script.head())?;
    let (passes, jobs) = open(rt, alloc, &machine, &mut root, script, &mut rack)?;
    let room = room_for(alloc, jobs.len(), passes.len())?;
    let (lefts, back) = run_threads(rt, &machine, gate, jobs, passes, room);
    meet_all(&machine, &mut root, lefts);
    leave_all(rt, &machine, gate, &mut root, back);
    Ok(close(rt, machine, root))
}

/// Lets the seats of a script in, and tells each pass what the root has seen: the processors' threads, and the actors with
/// their operations.
///
/// Takes memory; where that is wanting, some hooks of the rack are lost: `NoMemory`.
fn open<H: Hook + Send, R: Wait>(
    rt: &R,
    alloc: Global,
    machine: &Hotplug<H>,
    root: &mut Root<H>,
    script: &Script,
    rack: &mut Rack<H>,
) -> Result<(Vec<ParkedAp<H>>, Vec<Job<H>>), NoMemory>
    requires script { IsScript script.now.head script.now.actors }
    requires hooks { sum_by setups_in script.now.actors ≤ length rack.old.hooks.items }
    requires own { IsOf machine.now root.old.lock }
    requires head { root.old.head ≡ script.now.head }
    requires front { root.old.front ≡ [] }
    ensures same { OnOk result ((root.new.lock ≡ root.old.lock) × (root.new.head ≡ root.old.head)) }
    ensures opened { IfOk result (λ r. IsOpened machine.now script.now root.new.front r.0.items r.1.items) }
{
    let passes = admit_threads(rt, alloc, machine, root, script.head())?;
    let jobs = admit_actors(rt, alloc, machine, root, script, rack)?;
    let told = tell_threads(alloc, machine, root, passes)?;
    let heard = tell_actors(alloc, machine, root, jobs)?;
    root.sound();
    Ok((told, heard))
}
