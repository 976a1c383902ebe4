//! Each operation by its name, of one client alone.

use crate::client::{Client, admitted};
use crate::heads::{closed, head, started, sub};
use hp_event::{Answer, File};
use hp_hook::{Hook, ScriptHook};
use hp_live::{Done, FreeGate, HookBack};
use hp_states::NoMemory;
use std::process::Abort;
use std::sync::Wait;
use std::test::Fail;

/// What an operation is answered by its name.
type Ran = Result<Answer, NoMemory>;

/// And a setup or a remove.
type RanWith = Result<Done<ScriptHook>, HookBack<ScriptHook>>;

/// Ok with 0.
const DONE: Ran = Ok(Answer::Ok(0));

/// Refused as busy, and as no such thing.
const BUSY: Ran = Ok(Answer::Refused(16));

const INVALID: Ran = Ok(Answer::Refused(22));

/// Two processors come up and go down.
fn walks<R: Wait>(rt: &R, client: &mut Client<'_, ScriptHook>) -> [Ran; 8] {
    let machine = client.machine;
    let pass = &mut client.pass;
    let boot = machine.boot(rt, &FreeGate, pass, 2);
    let target = machine.write_target(rt, &FreeGate, pass, 1, 0);
    let fail = machine.write_fail(rt, &FreeGate, pass, 1, -1);
    let disable = machine.disable(rt, &FreeGate, pass);
    let up = machine.cpu_up(rt, &FreeGate, pass, 1);
    let enable = machine.enable(rt, &FreeGate, pass);
    let again = machine.enable(rt, &FreeGate, pass);
    let last = machine.cpu_up(rt, &FreeGate, pass, 1);
    [boot, target, fail, disable, up, enable, again, last]
}

/// What that is answered. Up is refused by the disabled count, and enable where that is 0.
const WALKS: [Ran; 8] = [DONE, DONE, DONE, DONE, BUSY, DONE, INVALID, DONE];

/// A freeze that a wakeup stops, one that doesn't, and the files of the second processor at last.
fn suspends<R: Wait>(rt: &R, client: &mut Client<'_, ScriptHook>) -> [Ran; 9] {
    let machine = client.machine;
    let pass = &mut client.pass;
    let wakeup = machine.wakeup(rt, &FreeGate, pass);
    let stopped = machine.freeze(rt, &FreeGate, pass, 0);
    let none = machine.thaw(rt, &FreeGate, pass);
    let freeze = machine.freeze(rt, &FreeGate, pass, 0);
    let thaw = machine.thaw(rt, &FreeGate, pass);
    let state = machine.read_file(rt, &FreeGate, pass, 1, File::State);
    let down = machine.cpu_down(rt, &FreeGate, pass, 1);
    let target = machine.read_file(rt, &FreeGate, pass, 1, File::Target);
    let fail = machine.read_file(rt, &FreeGate, pass, 1, File::Fail);
    [
        wakeup, stopped, none, freeze, thaw, state, down, target, fail,
    ]
}

/// What that is answered.
const SUSPENDS: [Ran; 9] = [
    DONE,
    BUSY,
    DONE,
    DONE,
    DONE,
    Ok(Answer::Ok(200)),
    DONE,
    DONE,
    Ok(Answer::Ok(-1)),
];

/// Whether a setup or a remove is answered so, and a hook comes back that was called so often; none where none does.
fn ran(with: &RanWith, answer: Answer, made: Option<u64>) -> bool {
    match with {
        Ok(done) => done.answer == answer && done.hook.as_ref().map(|hook| hook.made()) == made,
        Err(_) => false,
    }
}

/// Whether a single state is set up, and not once more while it is.
fn sets_up<R: Wait + Abort>(rt: &R, client: &mut Client<'_, ScriptHook>) -> bool {
    let first = client.sets_up(rt, &FreeGate, false, (20, 1), Some(ScriptHook::new()));
    let again = client.sets_up(rt, &FreeGate, false, (20, 1), Some(ScriptHook::new()));
    let other = client.sets_up(rt, &FreeGate, true, (21, 2), Some(ScriptHook::new()));
    ran(&Ok(first), Answer::Ok(0), None)
        && ran(&Ok(again), Answer::Refused(16), Some(0))
        && ran(&Ok(other), Answer::Ok(0), None)
}

/// Whether an instance comes and goes, and with it the state that it is of.
fn has_instance<R: Wait>(rt: &R, client: &mut Client<'_, ScriptHook>) -> bool {
    let machine = client.machine;
    let pass = &mut client.pass;
    let add = machine.add_instance(rt, &FreeGate, pass, 21, 7);
    let busy = machine.remove_state(rt, &FreeGate, pass, 21);
    let del = machine.remove_instance(rt, &FreeGate, pass, 21, 7);
    let gone = machine.remove_state_nocalls(rt, &FreeGate, pass, 21);
    add == DONE
        && ran(&busy, Answer::Refused(16), None)
        && del == DONE
        && ran(&gone, Answer::Ok(0), Some(2))
}

/// Whether a state is removed by its calls, with the hook that its setup took.
fn removes<R: Wait>(rt: &R, client: &mut Client<'_, ScriptHook>) -> bool {
    let gone = client
        .machine
        .remove_state(rt, &FreeGate, &mut client.pass, 20);
    ran(&gone, Answer::Ok(0), Some(2))
}

#[test]
fn each_form_is_answered(rt: HostRuntime) -> Result<(), Fail> {
    let mut head = head(rt.alloc(), 2, 1)?;
    head.subs.push(sub(rt.alloc(), true)?)?;
    let (machine, mut root) = started::<ScriptHook>(rt.alloc(), &head)?;
    let mut client = admitted(&rt, &machine, &head, &mut root);
    assert!(rt; walks(&rt, &mut client) == WALKS);
    assert!(rt; suspends(&rt, &mut client) == SUSPENDS);
    assert!(rt; sets_up(&rt, &mut client));
    assert!(rt; has_instance(&rt, &mut client));
    assert!(rt; removes(&rt, &mut client));
    client.leaves(&rt, &FreeGate);
    closed(&rt, machine, root);
    Ok(())
}
