//! Threads are started, and who can't be is run here.

ghost use Rattle.std.specs.Prelude.{◌≡◌, ◌≤◌, [], All, length, vec_capacity};
ghost use Rattle.std.specs.Thread.{IsSend, IsSync};
ghost use Rattle.hp_threads.specs.Crews.{AreActing, AreServing};
ghost use Rattle.hp_threads.specs.Jobs.{CanAct, CanServe, HasRun, HasStayed};

use crate::acting::act;
use crate::job::Job;
use crate::serving::serve;
use crate::threads::{Acting, ActorThread, Crew, ServerThread, Serving};
use hp_hook::Hook;
use hp_live::{Gate, Hotplug, Left, ParkedAp};
use std::snapshot::Snapshot;
use std::sync::Wait;
use std::thread::Scope;

/// Starts the threads of the processors and then those of the actors. Those that can't be started are run here,
/// after all others were started: actors first. There is room for all.
pub(crate) fn start_all<'s, E, H: Hook + Send + 's, R: Wait + Sync, G: Gate + Sync>(
    scope: &Scope<'s, E>,
    rt: &'s R,
    machine: &'s Hotplug<H>,
    gate: &'s G,
    mut passes: Vec<ParkedAp<H>>,
    jobs: Vec<Job<H>>,
    none: Crew<H>,
) -> Crew<H>
    requires bounds { IsSend H.row × IsSync R.row × IsSync G.row }
    requires passes { All (CanServe machine.now) passes.items }
    requires jobs { All (CanAct machine.now) jobs.items }
    requires no_actors { none.actors.items ≡ [] }
    requires no_servers { none.servers.items ≡ [] }
    requires for_actors { length jobs.items ≤ vec_capacity none.actors }
    requires for_servers { length passes.items ≤ vec_capacity none.servers }
    ensures acting { AreActing jobs.items result.actors.items }
    ensures serving { AreServing passes.items result.servers.items }
    ensures places { vec_capacity result.servers ≡ vec_capacity none.servers }
{
    let Some(pass) = passes.pop() else {
        let Crew { actors, servers } = none;
        let actors = start_actors(scope, rt, machine, gate, jobs, actors);
        return Crew { actors, servers };
    };
    let promise = Serving {
        pass: Snapshot::of(&pass),
    };
    let started = scope.spawn_with(
        promise,
        move || -> ParkedAp<H>
            requires { CanServe machine.now pass }
            ensures { HasStayed pass result }
        { serve(rt, machine, gate, pass) },
    );
    let mut crew = start_all(scope, rt, machine, gate, passes, jobs, none);
    match started {
        Ok(thread) => {
            crew.servers.push_reserved(ServerThread::Started(thread));
            crew
        }
        Err(refused) => {
            let run = refused.value;
            crew.servers.push_reserved(ServerThread::Ran(run()));
            crew
        }
    }
}

/// Starts the threads of the actors. Those that can't be started are run here, after the others were started. There is
/// room for all.
fn start_actors<'s, E, H: Hook + Send + 's, R: Wait + Sync, G: Gate + Sync>(
    scope: &Scope<'s, E>,
    rt: &'s R,
    machine: &'s Hotplug<H>,
    gate: &'s G,
    mut jobs: Vec<Job<H>>,
    none: Vec<ActorThread<H>>,
) -> Vec<ActorThread<H>>
    requires bounds { IsSend H.row × IsSync R.row × IsSync G.row }
    requires jobs { All (CanAct machine.now) jobs.items }
    requires none { none.items ≡ [] }
    requires room { length jobs.items ≤ vec_capacity none }
    ensures acting { AreActing jobs.items result.items }
    ensures places { vec_capacity result ≡ vec_capacity none }
{
    let Some(job) = jobs.pop() else {
        return none;
    };
    let promise = Acting {
        job: Snapshot::of(&job),
    };
    let started = scope.spawn_with(
        promise,
        move || -> Left<H>
            requires { CanAct machine.now job }
            ensures { HasRun job result }
        { act(rt, machine, gate, job) },
    );
    let mut actors = start_actors(scope, rt, machine, gate, jobs, none);
    match started {
        Ok(thread) => {
            actors.push_reserved(ActorThread::Started(thread));
            actors
        }
        Err(refused) => {
            let run = refused.value;
            actors.push_reserved(ActorThread::Ran(run()));
            actors
        }
    }
}
