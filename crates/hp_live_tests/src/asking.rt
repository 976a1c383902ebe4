//! A client that asks by tries.

ghost use Rattle.std.specs.Prelude.{◌≡◌, ◌≢◌, false, Ok as AnOk, is_some, IfSome, IfNone};
ghost use Rattle.hp_board.specs.declared.turn.Turn.TheVariants.{Answered as AnAnswered};
ghost use Rattle.hp_event.specs.declared.op.Op.TheVariants.{Lock as ALock};
ghost use Rattle.hp_live.specs.declared.tried.Tried.TheVariants.{Turned as ATurn};
ghost use Rattle.hp_live.specs.Known.{IsOf};
ghost use Rattle.hp_live.specs.Sections.{CanAsk};
ghost use Rattle.hp_live.specs.Tries.{is_answered};

use crate::client::Client;
use hp_board::{Ask, Turn};
use hp_event::{Answer, Head, Op};
use hp_hook::Hook;
use hp_live::{FreeGate, Gate, Hotplug, Pass, Tried};
use hp_machine::names_sub;
use hp_states::NoMemory;
use std::process::Abort;
use std::sync::Wait;
use std::thread::yield_now;

/// A client of a machine with this head, that asks for an operation by tries.
pub(crate) struct Asking<'m, H: Hook + Send> {
    machine: &'m Hotplug<H>,
    head: &'m Head,
    pass: Pass<H>,
    ask: Ask<H>,
    ghost own: { IsOf machine.now pass.lock },
    ghost head_is: { pass.head ≡ head.now },
    ghost other: { ask.op ≢ ALock },
    ghost asked: { CanAsk pass.head pass.front pass.seat ask.op (is_some ask.hook) },
}

/// What a try leaves: the operation goes on; or it is answered, by the event at this place if one was made.
enum Trial<'m, H: Hook + Send> {
    GoesOn(Asking<'m, H>, Tried),
    Ends(Client<'m, H>, Option<u32>, Answer),
}

/// A client that begins to ask for an operation. A setup brings a hook, and no other operation does.
pub(crate) fn begins<'m, H: Hook + Send>(
    rt: &impl Abort,
    client: Client<'m, H>,
    op: Op,
    hook: Option<H>,
) -> Asking<'m, H> {
    assert!(rt; names_sub(client.head, &op), "{op:?} names a subsystem");
    assert!(rt; hook.is_some() == op.is_setup(), "{op:?} has its hook");
    if let Op::Lock = op {
        panic!(rt; "a lock is another call")
    }
    let Client {
        machine,
        head,
        pass,
    } = client;
    pass.sound();
    Asking {
        machine,
        head,
        pass,
        ask: Ask { op, hook },
    }
}

/// The answer that a try gave, if it gave one.
fn answer_of(tried: Tried) -> Option<(Option<u32>, Answer)>
    ensures some { IfSome result (λ r. tried ≡ ATurn (AnAnswered r.0 r.1)) }
    ensures none { IfNone result (is_answered (AnOk tried) ≡ false) }
{
    match tried {
        Tried::Turned(Turn::Answered { at, answer }) => Some((at, answer)),
        Tried::Turned(Turn::Made { .. } | Turn::NotYet(_)) | Tried::Busy | Tried::Lent { .. } => {
            None
        }
    }
}

impl<'m, H: Hook + Send> Asking<'m, H> {
    /// One try.
    fn tried<G: Gate>(self, rt: &impl Abort, gate: &G) -> Trial<'m, H> {
        let Asking {
            machine,
            head,
            mut pass,
            mut ask,
        } = self;
        let tried = match machine.try_turn(gate, &mut pass, &mut ask) {
            Ok(tried) => tried,
            Err(NoMemory) => panic!(rt; "memory for {:?}", ask.op),
        };
        match answer_of(tried) {
            Some((at, answer)) => Trial::Ends(
                Client {
                    machine,
                    head,
                    pass,
                },
                at,
                answer,
            ),
            None => Trial::GoesOn(
                Asking {
                    machine,
                    head,
                    pass,
                    ask,
                },
                tried,
            ),
        }
    }

    /// A try that does this and answers nothing.
    pub(crate) fn goes_on(self, rt: &impl Abort, wanted: Tried) -> Asking<'m, H> {
        match self.tried(rt, &FreeGate) {
            Trial::GoesOn(asking, tried) => {
                assert!(rt; tried == wanted, "{tried:?} and not {wanted:?}");
                asking
            }
            Trial::Ends(_client, _, answer) => panic!(rt; "{answer:?} and not {wanted:?}"),
        }
    }

    /// A try that answers the operation with Ok.
    pub(crate) fn ends(self, rt: &impl Abort) -> Client<'m, H> {
        match self.tried(rt, &FreeGate) {
            Trial::GoesOn(_asking, tried) => panic!(rt; "{tried:?} and no answer"),
            Trial::Ends(client, _, answer) => {
                assert!(rt; answer == Answer::Ok(0), "{answer:?}");
                client
            }
        }
    }

    /// Tries until one answers: the place of its event, and the answer. Lets others have the lock between two.
    pub(crate) fn to_the_end<R: Wait + Abort, G: Gate>(
        self,
        rt: &R,
        gate: &G,
    ) -> (Client<'m, H>, Option<u32>, Answer) {
        let mut asking = self;
        for _ in rt.forever() {
            match asking.tried(rt, gate) {
                Trial::GoesOn(next, _) => asking = next,
                Trial::Ends(client, at, answer) => return (client, at, answer),
            }
            yield_now();
        }
        unreachable!()
    }
}
