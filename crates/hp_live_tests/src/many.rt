//! Four clients and the threads of eight processors: what they made together.

ghost use Rattle.std.specs.Prelude.{◌≡◌};
ghost use Rattle.hp_live.specs.Known.{IsOf};

use crate::client::Client;
use crate::heads::{closed, head, started};
use crate::jobs::{Job, Part, add, all_done, of_client, of_threads};
use hp_event::{Answer, Event, File, Form, Head, Op};
use hp_hook::{Hook, ScriptHook};
use hp_law::{Law, is_head};
use hp_live::{FreeGate, Gate, Hotplug, Root};
use std::alloc::Global;
use std::process::Abort;
use std::sync::Wait;
use std::test::Fail;

/// How many processors, clients, and operations of each client there are.
const CPUS: u32 = 8;

const CLIENTS: u32 = 4;

const OPERATIONS: u32 = 500;

/// The registration of the first client.
const FORM: Form = Form {
    nocalls: false,
    locked: false,
};

const SETUP: Op = Op::Setup {
    state: 150,
    sub: 1,
    form: FORM,
};

const REMOVE: Op = Op::Remove {
    state: 150,
    form: FORM,
};

/// The operation of a client at this place. The first client sets a state up first, and removes it last.
fn operation(number: u32, at: u32) -> Op {
    if number == 0 && at == 0 {
        return SETUP;
    }
    if number == 0 && at == OPERATIONS - 1 {
        return REMOVE;
    }
    let cpu = number % CLIENTS + 1;
    let other = at.wrapping_add(CPUS);
    match at % 5 {
        0 => Op::Up(cpu),
        1 => Op::ShowState(cpu),
        2 => Op::ShowTarget(other),
        3 => Op::Down(cpu),
        _ => Op::Wakeup,
    }
}

/// All operations of a client: whether the first client's registration comes and goes, with its hook.
pub(crate) fn plays<H: Hook + Send, R: Wait + Abort, G: Gate>(
    rt: &R,
    gate: &G,
    mut client: Client<'_, H>,
    number: u32,
    hook: Option<H>,
) -> bool {
    let mut hook = hook;
    let mut last = Answer::LogFull;
    for at in 0..OPERATIONS {
        let op = operation(number, at);
        let given = if op.is_setup() { hook.take() } else { None };
        let answered = client.run(rt, gate, op, given);
        last = answered.answer;
        if answered.hook.is_some() {
            hook = answered.hook;
        }
    }
    client.leaves(rt, gate);
    number != 0 || last == Answer::Ok(0) && hook.is_some()
}

/// The operation whose first event it is, or none.
fn begun(event: &Event) -> Option<Op> {
    match *event {
        Event::Enter { op, .. } | Event::Refused { op, .. } | Event::RegBegin { op, .. } => {
            Some(op)
        }
        Event::Shown {
            file: File::State,
            cpu,
            ..
        } => Some(Op::ShowState(cpu)),
        Event::Wakeup { .. } => Some(Op::Wakeup),
        _ => None,
    }
}

/// Whether the operations of a client's seat are those of its number, each once and in order.
fn has_each_once(events: &[Event], number: u32) -> bool {
    let mut at = 0u32;
    for event in events.iter() {
        if event.seat() == number.wrapping_add(CPUS) {
            if let Some(op) = begun(event) {
                if op != operation(number, at) {
                    return false;
                }
                at = at.wrapping_add(1);
            }
        }
    }
    at == OPERATIONS
}

/// The place of the first event that can't stand, or none.
fn first_refused(alloc: Global, head: &Head, events: &[Event]) -> Result<Option<usize>, Fail> {
    if !is_head(head) {
        return Ok(Some(0));
    }
    refused_by(&mut Law::start(alloc, head)?, events)
}

/// The place of the first event that a law doesn't take, or none.
fn refused_by(law: &mut Law, events: &[Event]) -> Result<Option<usize>, Fail> {
    for (place, event) in events.iter().enumerate() {
        if !law.offer(event)? {
            return Ok(Some(place));
        }
    }
    Ok(None)
}

/// The clients come in, the first of them with a hook.
fn come_in<'m>(
    rt: &(impl Wait + Abort),
    machine: &'m Hotplug<ScriptHook>,
    head: &'m Head,
    root: &mut Root<ScriptHook>,
    jobs: &mut Vec<Job<'m, ScriptHook>>,
)
    requires own { IsOf machine.now root.old.lock }
    requires head { root.old.head ≡ head.now }
    ensures { (root.new.lock ≡ root.old.lock) × (root.new.head ≡ root.old.head) }
{
    for number in 0..CLIENTS {
        let hook = (number == 0).then_some(ScriptHook::new());
        let job = of_client(rt, machine, head, root, Part::Many(number), hook);
        add(rt, jobs, job);
    }
}

#[test]
fn twelve_threads_make_a_lawful_journal(rt: HostRuntime) -> Result<(), Fail> {
    let head = head(rt.alloc(), CPUS, 1)?;
    let (machine, mut root) = started::<ScriptHook>(rt.alloc(), &head)?;
    let mut jobs = of_threads(&rt, rt.alloc(), &machine, &mut root, CPUS);
    come_in(&rt, &machine, &head, &mut root, &mut jobs);
    assert!(rt; all_done(&rt, &FreeGate, jobs));
    let journal = closed(&rt, machine, root);
    let events = journal.events();
    let refused = first_refused(rt.alloc(), &head, events)?;
    assert!(rt; refused.is_none(), "event {refused:?} can't stand");
    for number in 0..CLIENTS {
        assert!(rt; has_each_once(events, number), "client {number}");
    }
    Ok(())
}
