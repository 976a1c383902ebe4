//! A hook is called outside the lock: while it waits in its call another client is answered.

use crate::client::Client;
use crate::heads::{closed, head, started};
use crate::hooks::{Marks, Waiting, Watch};
use crate::jobs::{Part, add, all_done, of_client, of_threads};
use hp_event::{Answer, Form, Op};
use hp_hook::{Hook, ScriptHook};
use hp_live::Gate;
use std::process::Abort;
use std::sync::atomic::Ordering;
use std::sync::{Arc, Wait};
use std::test::Fail;

/// The state that is set up, of a processor's thread.
const STATE: u32 = 120;

/// The first client: it sets up a state, and brings the second processor up.
pub(crate) fn sets_up<H: Hook + Send, R: Wait + Abort, G: Gate>(
    rt: &R,
    gate: &G,
    mut client: Client<'_, H>,
    hook: Option<H>,
) -> bool {
    let done = client.sets_up(rt, gate, false, (STATE, 1), hook);
    let up = client.asks(rt, gate, Op::Up(1));
    client.leaves(rt, gate);
    assert!(rt; done.answer == Answer::Ok(0) && done.hook.is_none());
    up == Answer::Ok(0)
}

/// The second: it shows a file.
pub(crate) fn shows<H: Hook + Send, R: Wait + Abort, G: Gate>(
    rt: &R,
    gate: &G,
    mut client: Client<'_, H>,
) -> bool {
    let shown = client.asks(rt, gate, Op::ShowState(0));
    client.leaves(rt, gate);
    shown == Answer::Ok(200)
}

#[test]
fn a_file_is_shown_while_a_hook_is_called(rt: HostRuntime) -> Result<(), Fail> {
    let marks = Arc::new(rt.alloc(), Marks::none())?;
    let hook = Waiting {
        script: ScriptHook::new(),
        marks: Arc::try_clone(&marks)?,
    };
    let gate = Watch {
        seat: 3,
        marks: Arc::try_clone(&marks)?,
    };
    let head = head(rt.alloc(), 2, 1)?;
    let (machine, mut root) = started::<Waiting>(rt.alloc(), &head)?;
    let mut jobs = of_threads(&rt, rt.alloc(), &machine, &mut root, 2);
    let sets_up = of_client(&rt, &machine, &head, &mut root, Part::SetsUp, Some(hook));
    add(&rt, &mut jobs, sets_up);
    let shows = of_client(&rt, &machine, &head, &mut root, Part::Shows, None);
    add(&rt, &mut jobs, shows);
    assert!(rt; all_done(&rt, &gate, jobs));
    assert!(rt; marks.begun.load(Ordering::SeqCst) == 1);
    assert!(rt;
        marks.gave_up.load(Ordering::SeqCst) == 0,
        "one of them gave up"
    );
    closed(&rt, machine, root);
    Ok(())
}
