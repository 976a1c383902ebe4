//! What threads are given to do.

ghost use Rattle.std.specs.Prelude.{◌≡◌, false, None};
ghost use Rattle.hp_live.specs.Known.{IsOf};
ghost use Rattle.hp_model.specs.Seats.{is_busy};

use crate::client::{Client, admitted};
use crate::sleepers::Stage;
use crate::{calls, held, many, two, wakes};
use hp_event::Head;
use hp_hook::Hook;
use hp_live::{ApPass, Gate, Hotplug, Parked, ParkedAp, Root};
use std::alloc::Global;
use std::process::Abort;
use std::sync::Wait;
use std::thread;
use std::thread::Threads;

/// What a client does.
#[derive(Clone, Copy, Debug, PartialEq, Eq)]
pub(crate) enum Part {
    /// Calls of each kind.
    Calls,
    /// Read sections, one after another.
    Reads,
    /// Brings the second processor up and takes it down, one after the other.
    Writes,
    /// The operations of a client of this number.
    Many(u32),
    /// Sets up a state, and brings the second processor up.
    SetsUp,
    /// Shows a file.
    Shows,
    /// Waits for others, by tries or by calls that sleep.
    Wakes { part: wakes::Part, by_tries: bool },
}

/// A client of a machine with this head on its way to a thread, with what it has to do, and its hook if it has one.
#[derive(Drop)]
pub(crate) struct ClientJob<'m, H: Hook + Send> {
    machine: &'m Hotplug<H>,
    head: &'m Head,
    pass: Parked<H>,
    part: Part,
    hook: Option<H>,
    ghost own: { IsOf machine.now pass.lock },
    ghost head_is: { pass.head ≡ head.now },
    ghost idle: { is_busy pass.seat pass.front ≡ false },
    ghost nothing: { pass.lent ≡ None },
}

/// The thread of a processor on its way.
#[derive(Drop)]
pub(crate) struct ApJob<'m, H: Hook + Send> {
    machine: &'m Hotplug<H>,
    pass: ParkedAp<H>,
    ghost own: { IsOf machine.now pass.lock },
}

/// A seat with what it has to do.
#[derive(Drop)]
pub(crate) enum Job<'m, H: Hook + Send> {
    Client(ClientJob<'m, H>),
    Ap(ApJob<'m, H>),
}

/// The part of a client that comes in.
pub(crate) fn of_client<'m, H: Hook + Send>(
    rt: &(impl Wait + Abort),
    machine: &'m Hotplug<H>,
    head: &'m Head,
    root: &mut Root<H>,
    part: Part,
    hook: Option<H>,
) -> Job<'m, H>
    requires own { IsOf machine.now root.old.lock }
    requires head { root.old.head ≡ head.now }
    ensures { (root.new.lock ≡ root.old.lock) × (root.new.head ≡ root.old.head) }
{
    of_admitted(admitted(rt, machine, head, root), part, hook)
}

/// The part of a client that has come in.
pub(crate) fn of_admitted<'m, H: Hook + Send>(
    client: Client<'m, H>,
    part: Part,
    hook: Option<H>,
) -> Job<'m, H> {
    let Client {
        machine,
        head,
        pass,
    } = client;
    Job::Client(ClientJob {
        machine,
        head,
        pass: pass.park(),
        part,
        hook,
    })
}

/// The thread of a processor, which comes in.
fn of_thread<'m, H: Hook + Send>(
    rt: &(impl Wait + Abort),
    machine: &'m Hotplug<H>,
    root: &mut Root<H>,
    cpu: u32,
) -> Job<'m, H>
    requires { IsOf machine.now root.old.lock }
    ensures { (root.new.lock ≡ root.old.lock) × (root.new.head ≡ root.old.head) }
{
    match machine.admit_ap(rt, root, cpu) {
        Ok(ap) => Job::Ap(ApJob {
            machine,
            pass: ap.park(),
        }),
        Err(error) => panic!(rt; "the thread of processor {cpu} comes in: {error:?}"),
    }
}

/// The threads of so many processors, which come in.
pub(crate) fn of_threads<'m, H: Hook + Send>(
    rt: &(impl Wait + Abort),
    alloc: Global,
    machine: &'m Hotplug<H>,
    root: &mut Root<H>,
    cpus: u32,
) -> Vec<Job<'m, H>>
    requires { IsOf machine.now root.old.lock }
    ensures { (root.new.lock ≡ root.old.lock) × (root.new.head ≡ root.old.head) }
{
    let mut jobs = Vec::new(alloc);
    for cpu in 0..cpus {
        let job = of_thread(rt, machine, root, cpu);
        add(rt, &mut jobs, job);
    }
    jobs
}

/// One job more.
pub(crate) fn add<'m, H: Hook + Send>(
    rt: &impl Abort,
    jobs: &mut Vec<Job<'m, H>>,
    job: Job<'m, H>,
) {
    assert!(rt; jobs.push(job).is_ok(), "memory for a job");
}

/// The entries of a processor's thread, and its leave.
pub(crate) fn serves<H: Hook + Send, R: Wait, G: Gate>(
    rt: &R,
    gate: &G,
    machine: &Hotplug<H>,
    mut ap: ApPass<H>,
)
    requires { IsOf machine.now ap.lock }
{
    machine.ap_loop(rt, gate, &mut ap);
    machine.leave_ap(rt, gate, ap);
}

/// A client's part, and its leave: whether all was answered as it should be.
fn plays<H: Hook + Send, R: Wait + Abort, G: Stage>(
    rt: &R,
    gate: &G,
    client: Client<'_, H>,
    part: Part,
    hook: Option<H>,
) -> bool {
    match part {
        Part::Calls => calls::plays(rt, gate, client, hook),
        Part::Reads => two::reads(rt, gate, client),
        Part::Writes => two::writes(rt, gate, client),
        Part::Many(number) => many::plays(rt, gate, client, number, hook),
        Part::SetsUp => held::sets_up(rt, gate, client, hook),
        Part::Shows => held::shows(rt, gate, client),
        Part::Wakes { part, by_tries } => wakes::plays(rt, gate, client, part, by_tries),
    }
}

impl<'m, H: Hook + Send> Job<'m, H> {
    /// Does it, and leaves: whether all was answered as it should be.
    fn done<R: Wait + Abort, G: Stage>(self, rt: &R, gate: &G) -> bool {
        match self {
            Job::Ap(ApJob { machine, pass }) => {
                serves(rt, gate, machine, pass.resume());
                true
            }
            Job::Client(
                ClientJob {
                    machine,
                    head,
                    pass,
                    part,
                    hook,
                },
            ) => {
                let client = Client {
                    machine,
                    head,
                    pass: pass.resume(),
                };
                plays(rt, gate, client, part, hook)
            }
        }
    }
}

/// Does each job on a thread of its own: whether all was answered as it should be.
pub(crate) fn all_done<H: Hook + Send, R: Threads + Wait + Abort + Sync, G: Stage + Sync>(
    rt: &R,
    gate: &G,
    jobs: Vec<Job<'_, H>>,
) -> bool {
    match thread::map_vec(rt, jobs, &|job| job.done(rt, gate)) {
        Ok(done) => done.as_slice().iter().all(|done| *done),
        Err(_) => false,
    }
}
