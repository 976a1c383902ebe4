//! A batch of two processors, of which one thread waits for the hook that the other has: by tries alone, on one
//! thread.

ghost use Rattle.std.specs.Prelude.{◌≡◌};
ghost use Rattle.hp_live.specs.Known.{IsOf};

use crate::asking::{Asking, begins};
use crate::client::{Client, admitted};
use crate::heads::{closed, head, started};
use crate::jobs::serves;
use hp_board::Turn;
use hp_event::{Form, Head, Op};
use hp_hook::{Hook, ScriptHook};
use hp_live::{ApPass, FreeGate, Hotplug, Root, Tried};
use hp_locks::Why;
use hp_states::CpuSet;
use std::process::Abort;
use std::sync::Wait;
use std::test::Fail;

/// The thread of a processor, which makes its entries by tries.
struct Server<'m, H: Hook + Send> {
    machine: &'m Hotplug<H>,
    ap: ApPass<H>,
    ghost own: { IsOf machine.now ap.lock },
}

/// The thread of a processor, which comes in.
fn comes_in<'m, H: Hook + Send>(
    rt: &(impl Wait + Abort),
    machine: &'m Hotplug<H>,
    root: &mut Root<H>,
    cpu: u32,
) -> Server<'m, H>
    requires { IsOf machine.now root.old.lock }
    ensures { (root.new.lock ≡ root.old.lock) × (root.new.head ≡ root.old.head) }
{
    match machine.admit_ap(rt, root, cpu) {
        Ok(ap) => Server { machine, ap },
        Err(error) => panic!(rt; "the thread of processor {cpu} comes in: {error:?}"),
    }
}

impl<'m, H: Hook + Send> Server<'m, H> {
    /// A try that does this.
    fn tries(&mut self, rt: &impl Abort, wanted: Tried) {
        let tried = self.machine.try_serve(&FreeGate, &mut self.ap);
        assert!(rt; tried == wanted, "{tried:?} and not {wanted:?}");
    }

    /// Its seat leaves, once no client is in.
    fn leaves(self, rt: &impl Wait) {
        let Server { machine, ap } = self;
        serves(rt, &FreeGate, machine, ap);
    }
}

/// A try that makes the event at this place.
const fn made(at: u32) -> Tried {
    Tried::Turned(Turn::Made { at })
}

/// A try that waits.
const fn not_yet(why: Why) -> Tried {
    Tried::Turned(Turn::NotYet(why))
}

/// A try that is lent the hook of a state.
const fn lent(state: u32) -> Tried {
    Tried::Lent { state }
}

/// A setup of a state for a subsystem.
const fn setup(state: u32, sub: u32) -> Op {
    let form = Form {
        nocalls: false,
        locked: false,
    };
    Op::Setup { state, sub, form }
}

/// The second and the third processor together.
fn both() -> Op {
    let mut cpus = CpuSet::none();
    cpus.put(1);
    cpus.put(2);
    Op::UpMany(cpus)
}

/// The first client sets up a state whose entries it makes itself.
fn sets_up_first<'m>(rt: &impl Abort, client: Client<'m, ScriptHook>) -> Client<'m, ScriptHook> {
    begins(rt, client, setup(20, 1), Some(ScriptHook::new()))
        .goes_on(rt, made(5))
        .goes_on(rt, lent(20))
        .goes_on(rt, made(6))
        .ends(rt)
}

/// And one whose entry the thread of the first processor makes.
fn sets_up_second<'m>(
    rt: &impl Abort,
    client: Client<'m, ScriptHook>,
    first: &mut Server<'m, ScriptHook>,
) -> Client<'m, ScriptHook> {
    let asking = begins(rt, client, setup(150, 2), Some(ScriptHook::new()))
        .goes_on(rt, made(8))
        .goes_on(rt, not_yet(Why::ApTurn(0)));
    first.tries(rt, lent(150));
    first.tries(rt, made(9));
    asking.ends(rt)
}

/// Then it brings up both processors, up to the entries of their threads.
fn comes_to_threads<'m>(rt: &impl Abort, client: Client<'m, ScriptHook>) -> Asking<'m, ScriptHook> {
    begins(rt, client, both(), None)
        .goes_on(rt, made(11))
        .goes_on(rt, made(12))
        .goes_on(rt, made(13))
        .goes_on(rt, lent(20))
        .goes_on(rt, made(14))
        .goes_on(rt, lent(20))
        .goes_on(rt, made(15))
}

/// While the hook is lent to the thread of the second processor that of the third waits for it.
fn threads_wait<'m>(
    rt: &impl Abort,
    second: &mut Server<'m, ScriptHook>,
    third: &mut Server<'m, ScriptHook>,
) {
    second.tries(rt, lent(150));
    third.tries(rt, not_yet(Why::HookOut(150)));
}

/// Then both make their entries.
fn threads_go_on<'m>(
    rt: &impl Abort,
    second: &mut Server<'m, ScriptHook>,
    third: &mut Server<'m, ScriptHook>,
) {
    second.tries(rt, made(16));
    third.tries(rt, lent(150));
    third.tries(rt, made(17));
}

/// The batch ends, and what the other client asked for is done.
fn ends<'m>(
    rt: &(impl Wait + Abort),
    asking: Asking<'m, ScriptHook>,
    other: Asking<'m, ScriptHook>,
) {
    let client = asking.goes_on(rt, made(18)).goes_on(rt, made(19)).ends(rt);
    let second = other.goes_on(rt, made(21)).ends(rt);
    client.leaves(rt, &FreeGate);
    second.leaves(rt, &FreeGate);
}

/// The whole of it.
fn goes<'m>(
    rt: &(impl Wait + Abort),
    machine: &'m Hotplug<ScriptHook>,
    head: &'m Head,
    root: &mut Root<ScriptHook>,
)
    requires own { IsOf machine.now root.old.lock }
    requires head { root.old.head ≡ head.now }
    ensures { root.new.lock ≡ root.old.lock }
{
    let mut first = comes_in(rt, machine, root, 0);
    let mut second = comes_in(rt, machine, root, 1);
    let mut third = comes_in(rt, machine, root, 2);
    let client = admitted(rt, machine, head, root);
    let other = admitted(rt, machine, head, root);
    let client = sets_up_first(rt, client);
    let client = sets_up_second(rt, client, &mut first);
    let asking = comes_to_threads(rt, client);
    threads_wait(rt, &mut second, &mut third);
    // the batch waits for the hook too, and another client for the batch
    let asking = asking.goes_on(rt, not_yet(Why::HookOut(150)));
    let other = begins(rt, other, Op::Disable, None).goes_on(rt, not_yet(Why::MapsHeld(3)));
    threads_go_on(rt, &mut second, &mut third);
    ends(rt, asking, other);
    first.leaves(rt);
    second.leaves(rt);
    third.leaves(rt);
}

#[test]
fn a_batch_waits_for_a_hook_that_is_lent(rt: HostRuntime) -> Result<(), Fail> {
    let head = head(rt.alloc(), 3, 2)?;
    let (machine, mut root) = started::<ScriptHook>(rt.alloc(), &head)?;
    goes(&rt, &machine, &head, &mut root);
    let journal = closed(&rt, machine, root);
    // up to the batch's end 21 events, then 2 of the other client, and five seats leave
    assert!(rt; journal.len() == 28);
    Ok(())
}
