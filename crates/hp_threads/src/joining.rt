//! Threads are run, from their start to their join.

ghost use Rattle.std.specs.Prelude.{◌≡◌, ◌≤◌, [], All, IfOk, length, vec_capacity, vec_len};
ghost use Rattle.std.specs.Thread.{IsSend, IsSync};
ghost use Rattle.hp_threads.specs.Crews.{HasLeft, HasRoom, HasServed, HaveLeft, HaveServed};
ghost use Rattle.hp_threads.specs.Jobs.{CanAct, CanServe, HaveRun, HaveStayed};

use crate::job::Job;
use crate::starting::start_all;
use crate::threads::{ActorThread, Crew, Room, ServerThread};
use hp_hook::Hook;
use hp_live::{Gate, Hotplug, Left, ParkedAp};
use hp_states::NoMemory;
use std::alloc::Global;
use std::sync::Wait;
use std::thread;
use std::thread::{Scope, Threads};

/// Runs all actors and all threads of processors, and answers what they leave, each in its place.
///
/// There is room for all of them, and no other memory is taken here.
pub(crate) fn run_threads<H: Hook + Send, R: Threads + Wait + Sync, G: Gate + Sync>(
    rt: &R,
    machine: &Hotplug<H>,
    gate: &G,
    jobs: Vec<Job<H>>,
    passes: Vec<ParkedAp<H>>,
    room: Room<H>,
) -> (Vec<Left<H>>, Vec<ParkedAp<H>>)
    requires bounds { IsSend H.row × IsSync R.row × IsSync G.row }
    requires jobs { All (CanAct machine.now) jobs.items }
    requires passes { All (CanServe machine.now) passes.items }
    requires room { HasRoom (vec_len jobs) (vec_len passes) room }
    ensures ran { HaveRun jobs.items result.0.items }
    ensures stayed { HaveStayed passes.items result.1.items }
{
    thread::scope(
        thread::scope_env(),
        rt,
        |scope| -> (Vec<Left<H>>, Vec<ParkedAp<H>>)
            requires bounds { IsSend H.row × IsSync R.row × IsSync G.row }
            requires jobs { All (CanAct machine.now) jobs.items }
            requires passes { All (CanServe machine.now) passes.items }
            requires room { HasRoom (vec_len jobs) (vec_len passes) room }
            ensures ran { HaveRun jobs.items result.0.items }
            ensures stayed { HaveStayed passes.items result.1.items }
        { run_crew(scope, rt, machine, gate, jobs, passes, room) },
    )
}

/// Room for so many actors and threads of processors. Takes memory, the last that a run takes before its threads are
/// started.
pub(crate) fn room_for<H: Hook + Send>(
    alloc: Global,
    actors: usize,
    servers: usize,
) -> Result<Room<H>, NoMemory>
    ensures { IfOk result (HasRoom actors servers) }
{
    let crew = Crew {
        actors: Vec::with_capacity(alloc, actors)?,
        servers: Vec::with_capacity(alloc, servers)?,
    };
    let lefts = Vec::with_capacity(alloc, actors)?;
    let passes = Vec::with_capacity(alloc, servers)?;
    Ok(Room {
        crew,
        lefts,
        passes,
    })
}

/// Starts all threads in a scope, and joins them.
fn run_crew<'s, E, H: Hook + Send + 's, R: Threads + Wait + Sync, G: Gate + Sync>(
    scope: &Scope<'s, E>,
    rt: &'s R,
    machine: &'s Hotplug<H>,
    gate: &'s G,
    jobs: Vec<Job<H>>,
    passes: Vec<ParkedAp<H>>,
    room: Room<H>,
) -> (Vec<Left<H>>, Vec<ParkedAp<H>>)
    requires bounds { IsSend H.row × IsSync R.row × IsSync G.row }
    requires jobs { All (CanAct machine.now) jobs.items }
    requires passes { All (CanServe machine.now) passes.items }
    requires room { HasRoom (vec_len jobs) (vec_len passes) room }
    ensures ran { HaveRun jobs.items result.0.items }
    ensures stayed { HaveStayed passes.items result.1.items }
{
    let Room {
        crew: none,
        lefts: no_lefts,
        passes: no_passes,
    } = room;
    let crew = start_all(scope, rt, machine, gate, passes, jobs, none);
    let Crew { actors, servers } = crew;
    let lefts = join_actors(rt, actors, no_lefts);
    let back = join_servers(rt, servers, no_passes);
    (lefts, back)
}

/// Joins the threads of the actors. There is room for what each leaves.
fn join_actors<H: Hook + Send, R: Threads>(
    rt: &R,
    actors: Vec<ActorThread<H>>,
    mut lefts: Vec<Left<H>>,
) -> Vec<Left<H>>
    requires none { lefts.items ≡ [] }
    requires room { length actors.items ≤ vec_capacity lefts }
    ensures { HaveLeft actors.items result.items }
{
    for actor in actors {
        lefts.push_reserved(join_actor(rt, actor));
    }
    lefts
}

/// Joins one of them, if it is a thread.
fn join_actor<H: Hook + Send, R: Threads>(rt: &R, actor: ActorThread<H>) -> Left<H>
    ensures { HasLeft actor result }
{
    match actor {
        ActorThread::Started(thread) => thread.join(rt),
        ActorThread::Ran(left) => left,
    }
}

/// Joins the threads of the processors. There is room for the pass of each.
fn join_servers<H: Hook + Send, R: Threads>(
    rt: &R,
    servers: Vec<ServerThread<H>>,
    mut passes: Vec<ParkedAp<H>>,
) -> Vec<ParkedAp<H>>
    requires none { passes.items ≡ [] }
    requires room { length servers.items ≤ vec_capacity passes }
    ensures { HaveServed servers.items result.items }
{
    for server in servers {
        passes.push_reserved(join_server(rt, server));
    }
    passes
}

/// Joins one of them, if it is a thread.
fn join_server<H: Hook + Send, R: Threads>(rt: &R, server: ServerThread<H>) -> ParkedAp<H>
    ensures { HasServed server result }
{
    match server {
        ServerThread::Started(thread) => thread.join(rt),
        ServerThread::Ran(pass) => pass,
    }
}
