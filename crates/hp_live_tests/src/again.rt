//! Calls that are made again where memory was wanting for them.

ghost use Rattle.std.specs.Prelude.{◌≡◌, ◌≢◌, false, None, is_some, IfOk};
ghost use Rattle.hp_event.specs.declared.op.Op.TheVariants.{Lock as ALock};
ghost use Rattle.hp_live.specs.Known.{IsOf, IsSamePass};
ghost use Rattle.hp_live.specs.Sections.{CanAsk};
ghost use Rattle.hp_model.specs.Seats.{is_busy};

use crate::client::{Answered, Client, admitted, run_to_end};
use hp_board::{AdmitError, Ask, CpuPlan, StartError};
use hp_event::{Answer, File, Form, Head, Name, Numbers, Op, Sub, Subs};
use hp_hook::{Hook, ScriptHook};
use hp_law::is_head;
use hp_live::{Done, FreeGate, HookBack, Hotplug, Pass, ReadPass, ReadRefusal, Root};
use hp_machine::names_sub;
use hp_states::{HookPlan, NoMemory};
use std::alloc::Global;
use std::process::Abort;
use std::sync::Wait;

/// How often memory was wanting.
#[derive(Drop)]
pub(crate) struct Wants {
    pub(crate) times: u32,
}

impl Wants {
    /// Once more. It is refused once in a run at most.
    fn once_more(&mut self, rt: &impl Abort) {
        assert!(rt; self.times == 0, "memory is wanting again");
        self.times = 1;
    }
}

/// Two processors and a subsystem with both callbacks, which never fail.
fn head(alloc: Global) -> Result<Head, NoMemory> {
    let mut subs = Subs::new(alloc);
    subs.push(Sub {
        name: Name::from_vec(Vec::from_slice(alloc, b"net:a")?),
        up: true,
        down: true,
        multi: false,
        plan: HookPlan::none(),
    })?;
    Ok(Head {
        possible: 2,
        absent: Numbers::new(alloc),
        subs,
    })
}

/// A head, which takes memory.
pub(crate) fn head_again(rt: &impl Abort, alloc: Global, wants: &mut Wants) -> Head {
    if let Ok(head) = head(alloc) {
        return head;
    }
    wants.once_more(rt);
    match head(alloc) {
        Ok(head) => head,
        Err(NoMemory) => panic!(rt; "memory for a head"),
    }
}

/// A machine with this head, and its root.
fn machine_of(
    rt: &impl Abort,
    alloc: Global,
    head: &Head,
) -> Result<(Hotplug<ScriptHook>, Root<ScriptHook>), NoMemory>
    ensures own { IfOk result (λ r. IsOf r.0 r.1.lock) }
    ensures head { IfOk result (λ r. r.1.head ≡ head.now) }
{
    assert!(rt; is_head(head), "no machine is started with this head");
    let Head {
        possible,
        absent,
        subs,
    } = head.copy()?;
    let plan = CpuPlan { possible, absent };
    match Hotplug::start(alloc, plan, subs) {
        Ok(started) => Ok(started),
        Err(StartError::NoMemory) => Err(NoMemory),
        Err(error) => panic!(rt; "a machine starts: {error:?}"),
    }
}

/// A machine with this head, and its root.
pub(crate) fn machine_again(
    rt: &impl Abort,
    alloc: Global,
    head: &Head,
    wants: &mut Wants,
) -> (Hotplug<ScriptHook>, Root<ScriptHook>)
    ensures own { IsOf result.0 result.1.lock }
    ensures head { result.1.head ≡ head.now }
{
    if let Ok(started) = machine_of(rt, alloc, head) {
        return started;
    }
    wants.once_more(rt);
    match machine_of(rt, alloc, head) {
        Ok(started) => started,
        Err(NoMemory) => panic!(rt; "memory for a machine"),
    }
}

/// A client that comes in.
pub(crate) fn admitted_again<'m>(
    rt: &(impl Wait + Abort),
    machine: &'m Hotplug<ScriptHook>,
    head: &'m Head,
    root: &mut Root<ScriptHook>,
    wants: &mut Wants,
) -> Client<'m, ScriptHook>
    requires own { IsOf machine.now root.old.lock }
    requires head { root.old.head ≡ head.now }
    ensures { (root.new.lock ≡ root.old.lock) × (root.new.head ≡ root.old.head) }
{
    match machine.admit(rt, root) {
        Ok(pass) => Client {
            machine,
            head,
            pass,
        },
        Err(AdmitError::NoMemory) => {
            wants.once_more(rt);
            admitted(rt, machine, head, root)
        }
        Err(error) => panic!(rt; "a client comes in: {error:?}"),
    }
}

/// One operation, to its answer, by the same ask.
fn run_again<R: Wait + Abort>(
    rt: &R,
    machine: &Hotplug<ScriptHook>,
    pass: &mut Pass<ScriptHook>,
    ask: &mut Ask<ScriptHook>,
    wants: &mut Wants,
) -> Answer
    requires own { IsOf machine.now pass.old.lock }
    requires op { ask.old.op ≢ ALock }
    requires asked { CanAsk pass.old.head pass.old.front pass.old.seat ask.old.op (is_some ask.old.hook) }
    ensures same { IsSamePass pass.old pass.new }
    ensures idle { is_busy pass.new.seat pass.new.front ≡ false }
    ensures nothing { pass.new.lent ≡ None }
{
    match machine.run(rt, &FreeGate, pass, ask) {
        Ok(answer) => answer,
        Err(NoMemory) => {
            wants.once_more(rt);
            run_to_end(rt, machine, &FreeGate, pass, ask)
        }
    }
}

/// One operation of a client, to its answer. A setup brings a hook, and no other operation does.
pub(crate) fn answered_again<R: Wait + Abort>(
    rt: &R,
    client: &mut Client<'_, ScriptHook>,
    op: Op,
    hook: Option<ScriptHook>,
    wants: &mut Wants,
) -> Answered<ScriptHook> {
    assert!(rt; names_sub(client.head, &op), "{op:?} names a subsystem");
    assert!(rt; hook.is_some() == op.is_setup(), "{op:?} has its hook");
    if let Op::Lock = op {
        panic!(rt; "a lock is another call")
    }
    client.pass.sound();
    let mut ask = Ask { op, hook };
    let answer = run_again(rt, client.machine, &mut client.pass, &mut ask, wants);
    let Ask { hook, .. } = ask;
    Answered { answer, hook }
}

/// Brings a processor up, by name.
pub(crate) fn up_again<R: Wait + Abort>(
    rt: &R,
    client: &mut Client<'_, ScriptHook>,
    cpu: u32,
    wants: &mut Wants,
) -> Answer {
    match client.machine.cpu_up(rt, &FreeGate, &mut client.pass, cpu) {
        Ok(answer) => answer,
        Err(NoMemory) => {
            wants.once_more(rt);
            client.comes_up(rt, &FreeGate, cpu)
        }
    }
}

/// Takes a processor down, by name.
pub(crate) fn down_again<R: Wait + Abort>(
    rt: &R,
    client: &mut Client<'_, ScriptHook>,
    cpu: u32,
    wants: &mut Wants,
) -> Answer {
    let machine = client.machine;
    if let Ok(answer) = machine.cpu_down(rt, &FreeGate, &mut client.pass, cpu) {
        return answer;
    }
    wants.once_more(rt);
    match machine.cpu_down(rt, &FreeGate, &mut client.pass, cpu) {
        Ok(answer) => answer,
        Err(NoMemory) => panic!(rt; "memory for a down"),
    }
}

/// Shows the state of a processor, by name.
pub(crate) fn state_again<R: Wait + Abort>(
    rt: &R,
    client: &mut Client<'_, ScriptHook>,
    cpu: u32,
    wants: &mut Wants,
) -> Answer {
    let machine = client.machine;
    if let Ok(answer) = machine.read_file(rt, &FreeGate, &mut client.pass, cpu, File::State) {
        return answer;
    }
    wants.once_more(rt);
    match machine.read_file(rt, &FreeGate, &mut client.pass, cpu, File::State) {
        Ok(answer) => answer,
        Err(NoMemory) => panic!(rt; "memory for a file"),
    }
}

/// Sets up a state for a subsystem, by name, with the hook that came back.
pub(crate) fn set_up_again<R: Wait + Abort>(
    rt: &R,
    client: &mut Client<'_, ScriptHook>,
    (state, sub): (u32, u32),
    wants: &mut Wants,
) -> Done<ScriptHook> {
    let form = Form {
        nocalls: false,
        locked: false,
    };
    let setup = Op::Setup { state, sub, form };
    assert!(rt;
        names_sub(client.head, &setup),
        "{setup:?} names a subsystem"
    );
    let machine = client.machine;
    let hook = ScriptHook::new();
    match machine.setup_state(rt, &FreeGate, &mut client.pass, state, sub, hook) {
        Ok(done) => done,
        Err(HookBack { hook }) => {
            wants.once_more(rt);
            client.sets_up(rt, &FreeGate, false, (state, sub), hook)
        }
    }
}

/// Removes a state, by name.
pub(crate) fn removed_again<R: Wait + Abort>(
    rt: &R,
    client: &mut Client<'_, ScriptHook>,
    state: u32,
    wants: &mut Wants,
) -> Done<ScriptHook> {
    let machine = client.machine;
    if let Ok(done) = machine.remove_state(rt, &FreeGate, &mut client.pass, state) {
        return done;
    }
    wants.once_more(rt);
    match machine.remove_state(rt, &FreeGate, &mut client.pass, state) {
        Ok(done) => done,
        Err(_) => panic!(rt; "memory for a remove"),
    }
}

/// A read section.
fn lock_again<R: Wait + Abort>(
    rt: &R,
    machine: &Hotplug<ScriptHook>,
    pass: Pass<ScriptHook>,
    wants: &mut Wants,
) -> ReadPass<ScriptHook>
    requires own { IsOf machine.now pass.lock }
    requires idle { is_busy pass.seat pass.front ≡ false }
    ensures { IsSamePass pass result.pass }
{
    match machine.read_lock(rt, &FreeGate, pass) {
        Ok(read) => read,
        Err((ReadRefusal::NoMemory, pass)) => {
            wants.once_more(rt);
            match machine.read_lock(rt, &FreeGate, pass) {
                Ok(read) => read,
                Err((refusal, _)) => panic!(rt; "a read section: {refusal:?}"),
            }
        }
        Err((refusal, _)) => panic!(rt; "a read section: {refusal:?}"),
    }
}

/// The state of a processor, in a read section, by the same ask.
fn state_in_section<R: Wait + Abort>(
    rt: &R,
    machine: &Hotplug<ScriptHook>,
    read: &mut ReadPass<ScriptHook>,
    cpu: u32,
    wants: &mut Wants,
) -> Answer
    requires own { IsOf machine.now read.old.pass.lock }
    ensures same { IsSamePass read.old.pass read.new.pass }
    ensures online { read.new.online ≡ read.old.online }
{
    read.sound();
    let mut ask = Ask {
        op: Op::ShowState(cpu),
        hook: None,
    };
    if let Ok(answer) = machine.run_reading(rt, &FreeGate, read, &mut ask) {
        return answer;
    }
    wants.once_more(rt);
    match machine.run_reading(rt, &FreeGate, read, &mut ask) {
        Ok(answer) => answer,
        Err(NoMemory) => panic!(rt; "memory for a file in a section"),
    }
}

/// A read section, in which the state of a processor is shown.
pub(crate) fn reads_again<'m, R: Wait + Abort>(
    rt: &R,
    client: Client<'m, ScriptHook>,
    cpu: u32,
    wants: &mut Wants,
) -> (Client<'m, ScriptHook>, Answer) {
    let Client {
        machine,
        head,
        pass,
    } = client;
    let mut read = lock_again(rt, machine, pass, wants);
    let shown = state_in_section(rt, machine, &mut read, cpu, wants);
    let pass = machine.read_unlock(rt, &FreeGate, read);
    (
        Client {
            machine,
            head,
            pass,
        },
        shown,
    )
}
