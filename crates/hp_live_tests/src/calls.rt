//! The calls of a client, on two processors with a thread each.

use crate::asking::begins;
use crate::client::Client;
use crate::heads::{closed, head, started};
use crate::jobs::{Part, add, all_done, of_client, of_threads};
use hp_event::{Answer, Op};
use hp_hook::{Hook, ScriptHook};
use hp_live::{FreeGate, Gate};
use std::process::Abort;
use std::sync::Wait;
use std::test::Fail;

/// What the client does: it reads while the second processor is offline; brings it up; reads again; asks for a setup of
/// state 0, which no subsystem may have, and gets its hook back; and tries to show a file until it is shown.
pub(crate) fn plays<H: Hook + Send, R: Wait + Abort, G: Gate>(
    rt: &R,
    gate: &G,
    client: Client<'_, H>,
    hook: Option<H>,
) -> bool {
    let (mut client, before) = client.reads(rt, gate, Some(false));
    let up = client.comes_up(rt, gate, 1);
    let (mut client, after) = client.reads(rt, gate, Some(true));
    let refused = client.sets_up(rt, gate, false, (0, 1), hook);
    let (client, at, shown) = begins(rt, client, Op::ShowState(1), None).to_the_end(rt, gate);
    client.leaves(rt, gate);
    assert!(rt; up == Answer::Ok(0), "up: {up:?}");
    assert!(rt; before, "a read section before the up");
    assert!(rt; after, "a read section after it");
    assert!(rt; refused.answer == Answer::Refused(22) && refused.hook.is_some());
    at.is_some() && shown == Answer::Ok(200)
}

#[test]
fn calls_are_answered_over_threads(rt: HostRuntime) -> Result<(), Fail> {
    let head = head(rt.alloc(), 2, 1)?;
    let (machine, mut root) = started::<ScriptHook>(rt.alloc(), &head)?;
    let mut jobs = of_threads(&rt, rt.alloc(), &machine, &mut root, 2);
    let hook = Some(ScriptHook::new());
    let calls = of_client(&rt, &machine, &head, &mut root, Part::Calls, hook);
    add(&rt, &mut jobs, calls);
    assert!(rt; all_done(&rt, &FreeGate, jobs));
    let journal = closed(&rt, machine, root);
    // three seats come in and leave; an up has 4 events, each section 6, the refusal and the file one each
    assert!(rt; journal.len() == 24);
    Ok(())
}
