//! Two clients on two threads, of which one reads and one brings a processor up and down.

use crate::asking::begins;
use crate::client::Client;
use crate::heads::{closed, head, started};
use crate::jobs::{Part, add, all_done, of_client};
use hp_event::{Answer, Op};
use hp_hook::{Hook, ScriptHook};
use hp_live::{FreeGate, Gate};
use std::process::Abort;
use std::sync::Wait;
use std::test::Fail;

/// How often each client does what it does.
const TIMES: u32 = 50;

/// Read sections, one after another: whether each has the second processor as it shows it, and refuses to bring it
/// up or down.
pub(crate) fn reads<H: Hook + Send, R: Wait + Abort, G: Gate>(
    rt: &R,
    gate: &G,
    client: Client<'_, H>,
) -> bool {
    let mut client = client;
    let mut all = true;
    for _ in 0..TIMES {
        let (next, reads) = client.reads(rt, gate, None);
        client = next;
        all = all && reads;
    }
    client.leaves(rt, gate);
    all
}

/// The second processor up and down, one after the other, with its state by tries in between, and refusals: whether
/// each is answered as it should be.
pub(crate) fn writes<H: Hook + Send, R: Wait + Abort, G: Gate>(
    rt: &R,
    gate: &G,
    client: Client<'_, H>,
) -> bool {
    let mut client = client;
    let mut all = true;
    for _ in 0..TIMES {
        let (next, writes) = writes_once(rt, gate, client);
        client = next;
        all = all && writes;
    }
    client.leaves(rt, gate);
    all
}

/// What a client asks for by whole calls, and what it is answered: up or down first, and then refusals.
const UP: [(Op, Answer); 2] = [(Op::Up(1), Answer::Ok(0)), (Op::Up(2), Answer::Refused(22))];

const DOWN: [(Op, Answer); 3] = [
    (Op::Unlock, Answer::Refused(1)),
    (Op::Down(1), Answer::Ok(0)),
    (Op::Down(0), Answer::Refused(16)),
];

/// One time.
fn writes_once<'m, H: Hook + Send, R: Wait + Abort, G: Gate>(
    rt: &R,
    gate: &G,
    client: Client<'m, H>,
) -> (Client<'m, H>, bool) {
    let mut client = client;
    let up = asks_all(rt, gate, &mut client, &UP);
    let (mut client, high) = shows_second(rt, gate, client);
    let down = asks_all(rt, gate, &mut client, &DOWN);
    let (client, low) = shows_second(rt, gate, client);
    let all = up && down && high == Answer::Ok(200) && low == Answer::Ok(0);
    (client, all)
}

/// Shows the state of the second processor by tries.
fn shows_second<'m, H: Hook + Send, R: Wait + Abort, G: Gate>(
    rt: &R,
    gate: &G,
    client: Client<'m, H>,
) -> (Client<'m, H>, Answer) {
    let (client, _, shown) = begins(rt, client, Op::ShowState(1), None).to_the_end(rt, gate);
    (client, shown)
}

/// Whether operations are answered so.
fn asks_all<H: Hook + Send, R: Wait + Abort, G: Gate>(
    rt: &R,
    gate: &G,
    client: &mut Client<'_, H>,
    rows: &[(Op, Answer)],
) -> bool {
    for (op, answer) in rows.iter() {
        if client.asks(rt, gate, *op) != *answer {
            return false;
        }
    }
    true
}

#[test]
fn a_reader_and_a_writer_are_answered(rt: HostRuntime) -> Result<(), Fail> {
    let head = head(rt.alloc(), 2, 0)?;
    let (machine, mut root) = started::<ScriptHook>(rt.alloc(), &head)?;
    let mut jobs = Vec::new(rt.alloc());
    let reads = of_client(&rt, &machine, &head, &mut root, Part::Reads, None);
    add(&rt, &mut jobs, reads);
    let writes = of_client(&rt, &machine, &head, &mut root, Part::Writes, None);
    add(&rt, &mut jobs, writes);
    assert!(rt; all_done(&rt, &FreeGate, jobs));
    let journal = closed(&rt, machine, root);
    // each time 6 events of a section, and of the other client 8 of two walks, 2 files and 3 refusals
    assert!(rt; journal.len() == 4 + TIMES * (6 + 13));
    Ok(())
}
