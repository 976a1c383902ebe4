//! A client, and what it does.

ghost use Rattle.std.specs.Prelude.{◌≡◌, ◌≢◌, false, true, None, is_some};
ghost use Rattle.hp_account.specs.TableChanges.{is_setup};
ghost use Rattle.hp_event.specs.declared.op.Op.TheVariants.{Lock as ALock, Unlock as AnUnlock};
ghost use Rattle.hp_live.specs.Known.{IsOf, IsSamePass};
ghost use Rattle.hp_live.specs.Sections.{CanAsk};
ghost use Rattle.hp_model.specs.Seats.{is_busy};
ghost use Rattle.hp_model.specs.Subsystems.{names_sub};

use hp_board::Ask;
use hp_event::{Answer, Form, Head, Op};
use hp_hook::Hook;
use hp_live::{Done, Gate, Hotplug, Pass, ReadPass, Root};
use hp_machine::names_sub;
use hp_states::NoMemory;
use std::process::Abort;
use std::sync::Wait;

/// A client of a machine with this head. It has no operation in flight, and carries no hook.
pub(crate) struct Client<'m, H: Hook + Send> {
    pub(crate) machine: &'m Hotplug<H>,
    pub(crate) head: &'m Head,
    pub(crate) pass: Pass<H>,
    ghost own: { IsOf machine.now pass.lock },
    ghost head_is: { pass.head ≡ head.now },
    ghost idle: { is_busy pass.seat pass.front ≡ false },
    ghost nothing: { pass.lent ≡ None },
}

/// What an operation was answered, and the hook that came back.
#[derive(Drop)]
pub(crate) struct Answered<H> {
    pub(crate) answer: Answer,
    pub(crate) hook: Option<H>,
}

/// Lets a client in.
pub(crate) fn admitted<'m, H: Hook + Send>(
    rt: &(impl Wait + Abort),
    machine: &'m Hotplug<H>,
    head: &'m Head,
    root: &mut Root<H>,
) -> Client<'m, H>
    requires own { IsOf machine.now root.old.lock }
    requires head { root.old.head ≡ head.now }
    ensures { (root.new.lock ≡ root.old.lock) × (root.new.head ≡ root.old.head) }
{
    match machine.admit(rt, root) {
        Ok(pass) => Client {
            machine,
            head,
            pass,
        },
        Err(error) => panic!(rt; "a client comes in: {error:?}"),
    }
}

impl<'m, H: Hook + Send> Client<'m, H> {
    /// One operation, to its answer. A setup brings a hook, and no other operation does.
    pub(crate) fn run<R: Wait + Abort, G: Gate>(
        &mut self,
        rt: &R,
        gate: &G,
        op: Op,
        hook: Option<H>,
    ) -> Answered<H> {
        assert!(rt; names_sub(self.head, &op), "{op:?} names a subsystem");
        assert!(rt; hook.is_some() == op.is_setup(), "{op:?} has its hook");
        if let Op::Lock = op {
            panic!(rt; "a lock is another call")
        }
        self.pass.sound();
        let mut ask = Ask { op, hook };
        let answer = run_to_end(rt, self.machine, gate, &mut self.pass, &mut ask);
        let Ask { hook, .. } = ask;
        Answered { answer, hook }
    }

    /// What an operation is answered that brings no hook and gets none.
    pub(crate) fn asks<R: Wait + Abort, G: Gate>(&mut self, rt: &R, gate: &G, op: Op) -> Answer {
        self.run(rt, gate, op, None).answer
    }

    /// Brings a processor up.
    pub(crate) fn comes_up<R: Wait + Abort, G: Gate>(
        &mut self,
        rt: &R,
        gate: &G,
        cpu: u32,
    ) -> Answer {
        match self.machine.cpu_up(rt, gate, &mut self.pass, cpu) {
            Ok(answer) => answer,
            Err(NoMemory) => panic!(rt; "memory for an up"),
        }
    }

    /// Sets up a state for a subsystem, without calls or with them.
    pub(crate) fn sets_up<R: Wait + Abort, G: Gate>(
        &mut self,
        rt: &R,
        gate: &G,
        nocalls: bool,
        (state, sub): (u32, u32),
        hook: Option<H>,
    ) -> Done<H> {
        let Some(hook) = hook else {
            panic!(rt; "a hook")
        };
        let form = Form {
            nocalls,
            locked: false,
        };
        let setup = Op::Setup { state, sub, form };
        assert!(rt; names_sub(self.head, &setup), "{setup:?} names a subsystem");
        let machine = self.machine;
        let pass = &mut self.pass;
        let set_up = if nocalls {
            machine.setup_state_nocalls(rt, gate, pass, state, sub, hook)
        } else {
            machine.setup_state(rt, gate, pass, state, sub, hook)
        };
        match set_up {
            Ok(done) => done,
            Err(_) => panic!(rt; "memory for {setup:?}"),
        }
    }

    /// Its seat leaves.
    pub(crate) fn leaves<R: Wait, G: Gate>(self, rt: &R, gate: &G) {
        let Client {
            machine,
            head: _,
            pass,
        } = self;
        machine.leave(rt, gate, pass);
    }

    /// A read section with just these of two processors online, or with one or both, where nothing is said of the
    /// second: whether it shows the second so, and what is asked in it is refused.
    pub(crate) fn reads<R: Wait + Abort, G: Gate>(
        self,
        rt: &R,
        gate: &G,
        second: Option<bool>,
    ) -> (Client<'m, H>, bool) {
        let Client {
            machine,
            head,
            pass,
        } = self;
        match machine.read_lock(rt, gate, pass) {
            Ok(mut read) => {
                let reads = reads_so(rt, machine, gate, &mut read, second);
                let pass = machine.read_unlock(rt, gate, read);
                (
                    Client {
                        machine,
                        head,
                        pass,
                    },
                    reads,
                )
            }
            Err((refusal, _)) => panic!(rt; "a read section: {refusal:?}"),
        }
    }
}

/// One operation, to its answer.
pub(crate) fn run_to_end<H: Hook + Send, R: Wait + Abort, G: Gate>(
    rt: &R,
    machine: &Hotplug<H>,
    gate: &G,
    pass: &mut Pass<H>,
    ask: &mut Ask<H>,
) -> Answer
    requires own { IsOf machine.now pass.old.lock }
    requires op { ask.old.op ≢ ALock }
    requires asked { CanAsk pass.old.head pass.old.front pass.old.seat ask.old.op (is_some ask.old.hook) }
    ensures same { IsSamePass pass.old pass.new }
    ensures idle { is_busy pass.new.seat pass.new.front ≡ false }
    ensures nothing { pass.new.lent ≡ None }
{
    match machine.run(rt, gate, pass, ask) {
        Ok(answer) => answer,
        Err(NoMemory) => panic!(rt; "memory for {:?}", ask.op),
    }
}

/// One operation in a read section.
fn ask_in<H: Hook + Send, R: Wait + Abort, G: Gate>(
    rt: &R,
    machine: &Hotplug<H>,
    gate: &G,
    read: &mut ReadPass<H>,
    op: Op,
) -> Answer
    requires own { IsOf machine.now read.old.pass.lock }
    requires op { op ≢ AnUnlock }
    requires named { names_sub read.old.pass.head op ≡ true }
    requires plain { is_setup op ≡ false }
    ensures same { IsSamePass read.old.pass read.new.pass }
    ensures online { read.new.online ≡ read.old.online }
{
    read.sound();
    match machine.run_reading(rt, gate, read, &mut Ask { op, hook: None }) {
        Ok(answer) => answer,
        Err(NoMemory) => panic!(rt; "memory for {op:?}"),
    }
}

/// Whether a section has the first of two processors online, and the second as is said or as the section has it; shows the second
/// so; and isn't begun again, nor the second brought up or taken down in it.
pub(crate) fn reads_so<H: Hook + Send, R: Wait + Abort, G: Gate>(
    rt: &R,
    machine: &Hotplug<H>,
    gate: &G,
    read: &mut ReadPass<H>,
    second: Option<bool>,
) -> bool
    requires { IsOf machine.now read.old.pass.lock }
    ensures { IsSamePass read.old.pass read.new.pass }
{
    let online = read.online();
    let second = second.unwrap_or(online.has(1));
    let state = if second { 200 } else { 0 };
    let shown = ask_in(rt, machine, gate, read, Op::ShowState(1));
    let up = ask_in(rt, machine, gate, read, Op::Up(1));
    let down = ask_in(rt, machine, gate, read, Op::Down(1));
    let again = ask_in(rt, machine, gate, read, Op::Lock);
    let refused = Answer::Refused(35);
    online.has(0)
        && online.has(1) == second
        && online.first_from(2).is_none()
        && read.online() == online
        && shown == Answer::Ok(state)
        && up == refused
        && down == refused
        && again == refused
}
