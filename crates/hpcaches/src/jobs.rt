//! The seats of a run, and their threads.

ghost use Rattle.std.specs.Prelude.{◌≡◌, true, false};
ghost use Rattle.hp_event.specs.declared.op.Op.TheVariants.{Setup};
ghost use Rattle.hp_live.specs.Forms.{unlocked};
ghost use Rattle.hp_live.specs.Known.{IsOf};
ghost use Rattle.hp_model.specs.Subsystems.{names_sub};
ghost use Rattle.hpcaches.specs.declared.admin.TheConstants.{STATE as STATE_OF};

use crate::admin::Admin;
use crate::server::Server;
use crate::shared::SharedStock;
use crate::trouble::Trouble;
use crate::worker::Worker;
use hp_caches::{CPUS, Plan};
use hp_hook::Hook;
use hp_live::{Hotplug, Root};
use std::alloc::Global;
use std::sync::{Barrier, Wait};
use std::thread;
use std::thread::Threads;

/// A seat with what it has to do.
#[derive(Drop)]
pub(crate) enum Job<'m, H: Hook + Send> {
    /// The thread of a processor.
    Server(Server<'m, H>),
    /// The client that takes processors up and down.
    Admin(Admin<'m, H>),
    /// A client that puts items.
    Worker(Worker<'m, H>),
}

/// Lets all seats of a plan in.
pub(crate) fn admit_all<'m, H: Hook + Send, R: Wait>(
    rt: &R,
    alloc: Global,
    machine: &'m Hotplug<H>,
    root: &mut Root<H>,
    plan: &Plan,
    hook: H,
) -> Result<Vec<Job<'m, H>>, Trouble>
    requires own { IsOf machine.now root.old.lock }
    requires named { names_sub root.old.head (Setup STATE_OF 1 (unlocked false)) ≡ true }
    ensures { root.new.lock ≡ root.old.lock }
{
    let mut jobs = admit_servers(rt, alloc, machine, root)?;
    let admin = admit_admin(rt, machine, root, hook)?;
    jobs.push(admin)?;
    admit_workers(rt, machine, root, plan, jobs)
}

/// Lets the threads of the processors in.
fn admit_servers<'m, H: Hook + Send, R: Wait>(
    rt: &R,
    alloc: Global,
    machine: &'m Hotplug<H>,
    root: &mut Root<H>,
) -> Result<Vec<Job<'m, H>>, Trouble>
    requires { IsOf machine.now root.old.lock }
    ensures { (root.new.lock ≡ root.old.lock) × (root.new.head ≡ root.old.head) }
{
    let mut jobs = Vec::new(alloc);
    for cpu in 0..CPUS {
        let server = admit_server(rt, machine, root, cpu)?;
        jobs.push(server)?;
    }
    Ok(jobs)
}

/// Lets the thread of a processor in.
fn admit_server<'m, H: Hook + Send, R: Wait>(
    rt: &R,
    machine: &'m Hotplug<H>,
    root: &mut Root<H>,
    cpu: u32,
) -> Result<Job<'m, H>, Trouble>
    requires { IsOf machine.now root.old.lock }
    ensures { (root.new.lock ≡ root.old.lock) × (root.new.head ≡ root.old.head) }
{
    match machine.admit_ap(rt, root, cpu) {
        Ok(pass) => Ok(Job::Server(Server {
            machine,
            pass: pass.park(),
        })),
        Err(_) => Err(Trouble::NotLetIn),
    }
}

/// Lets the client that administers in.
fn admit_admin<'m, H: Hook + Send, R: Wait>(
    rt: &R,
    machine: &'m Hotplug<H>,
    root: &mut Root<H>,
    hook: H,
) -> Result<Job<'m, H>, Trouble>
    requires own { IsOf machine.now root.old.lock }
    requires named { names_sub root.old.head (Setup STATE_OF 1 (unlocked false)) ≡ true }
    ensures { (root.new.lock ≡ root.old.lock) × (root.new.head ≡ root.old.head) }
{
    match machine.admit(rt, root) {
        Ok(pass) => Ok(Job::Admin(Admin {
            machine,
            pass: pass.park(),
            hook,
        })),
        Err(_) => Err(Trouble::NotLetIn),
    }
}

/// Lets the workers in behind these, each with its first item.
fn admit_workers<'m, H: Hook + Send, R: Wait>(
    rt: &R,
    machine: &'m Hotplug<H>,
    root: &mut Root<H>,
    plan: &Plan,
    mut jobs: Vec<Job<'m, H>>,
) -> Result<Vec<Job<'m, H>>, Trouble>
    requires { IsOf machine.now root.old.lock }
    ensures { (root.new.lock ≡ root.old.lock) × (root.new.head ≡ root.old.head) }
{
    for number in 0..plan.workers() {
        let worker = admit_worker(rt, machine, root, plan.first_item(number))?;
        jobs.push(worker)?;
    }
    Ok(jobs)
}

/// Lets a worker in.
fn admit_worker<'m, H: Hook + Send, R: Wait>(
    rt: &R,
    machine: &'m Hotplug<H>,
    root: &mut Root<H>,
    first: u32,
) -> Result<Job<'m, H>, Trouble>
    requires { IsOf machine.now root.old.lock }
    ensures { (root.new.lock ≡ root.old.lock) × (root.new.head ≡ root.old.head) }
{
    match machine.admit(rt, root) {
        Ok(pass) => Ok(Job::Worker(Worker {
            machine,
            pass: pass.park(),
            first,
        })),
        Err(_) => Err(Trouble::NotLetIn),
    }
}

impl<'m, H: Hook + Send> Job<'m, H> {
    /// Does it, and leaves. What failed first is answered.
    fn done<R: Wait>(
        self,
        rt: &R,
        plan: &Plan,
        stock: &SharedStock,
        caches_open: &Barrier,
    ) -> Result<(), Trouble> {
        match self {
            Job::Server(server) => {
                server.serves(rt);
                Ok(())
            }
            Job::Admin(admin) => admin.administers(rt, plan.rounds(), caches_open),
            Job::Worker(worker) => worker.works(rt, stock, plan.items(), caches_open),
        }
    }
}

/// Does each job on a thread of its own: the threads of the processors serve until all clients have left. What failed
/// first is answered.
pub(crate) fn all_done<H: Hook + Send, R: Threads + Wait + Sync>(
    rt: &R,
    jobs: Vec<Job<'_, H>>,
    plan: &Plan,
    stock: &SharedStock,
    caches_open: &Barrier,
) -> Result<(), Trouble> {
    match thread::map_vec(rt, jobs, &|job| job.done(rt, plan, stock, caches_open)) {
        Ok(done) => first_trouble(&done),
        Err(_) => Err(Trouble::NoMemory),
    }
}

/// The first trouble of some, if there is one.
fn first_trouble(done: &[Result<(), Trouble>]) -> Result<(), Trouble> {
    for one in done.iter() {
        (*one)?;
    }
    Ok(())
}
