//! The program `hpcaches`: a caller of the machine of CPU hotplug, whose hook keeps a cache of items for each processor.
//!
//! `hpcaches WORKERS ITEMS ROUNDS [--journal]`. Each worker puts so many items, each in a read section, into the cache of a
//! processor that is online, and takes one now and then. A startup of the state opens the cache of its processor, and a
//! teardown moves what is in it to a shared list. A client takes processors down and up meanwhile in so many rounds, and
//! freezes and thaws once. At the end the items are counted, where each stands exactly once in what was taken, the list and
//! the caches; and the journal's events, of which there are as many as the plan says, in whatever order the threads came.
//! With `--journal` the text of the journal is written in place of that line.
//!
//! It uses the public calls of `hp_live` alone; `docs/LIBRARY.md` goes through them. What is proved: the hook answers as each
//! has to (`hook.rt`); an item comes into the cache of a processor that is online from the begin of a read section to its
//! end (`worker.rt`); the journal is lawful, and the hook was called as often as it says (`run.rt`); and of the stock, that
//! in what was taken, the list and the caches each item stands as often as it was put (`hp_caches`). That all items were put
//! is looked at, at the end of each run; so is that no processor that is online has a closed cache.
//!
//! Its status is 0; 1 where the words are others, with the usage on standard error; and 2 for each trouble, which is told there.
#![tactic(auto)]

ghost use Rattle.std.specs.Prelude.{◌*◌, OnOk};
ghost use Rattle.hp_caches.specs.Contents.{IsEachOnce};

mod admin;
mod hook;
mod jobs;
mod run;
mod server;
mod shared;
mod trouble;
mod words;
mod worker;

use crate::hook::CacheHook;
use crate::run::run;
use crate::shared::SharedStock;
use crate::trouble::Trouble;
use crate::words::{Asked, asked_by};
use hp_caches::{CPUS, Plan, Stock, is_each_once, sum_of};
use hp_event::Journal;
use hp_hook::Hook;
use hp_print::journal_text;
use hp_states::NoMemory;
use std::alloc::Global;
use std::io;
use std::io::Write;
use std::process::ExitCode;
use std::sync::{Arc, Wait};
use std::thread::Threads;

/// The words after the program's name.
fn words_of(rt: &HostRuntime) -> io::Result<Vec<String>> {
    let mut words = Vec::new(rt.alloc());
    for word in std::env::args(rt)?.skip(1) {
        words.push(word)?;
    }
    Ok(words)
}

/// The sum of the items, of which each that was to be put stands there exactly once.
fn sum_of_all(alloc: Global, plan: &Plan, items: &[u32]) -> Result<u64, Trouble>
    ensures { OnOk result (IsEachOnce (plan.now.workers * plan.now.items) items.now) }
{
    if is_each_once(alloc, items, plan.count())? {
        Ok(sum_of(items))
    } else {
        Err(Trouble::Lost)
    }
}

/// How often hooks were called.
fn calls_of<H: Hook>(hooks: &[H]) -> u64 {
    let mut calls: u64 = 0;
    for hook in hooks.iter() {
        calls = calls.saturating_add(hook.made());
    }
    calls
}

/// A line of what came of a run, or the text of its journal.
fn answer<R: Threads + Wait + Send + Sync + Copy + Drop>(
    rt: &R,
    alloc: Global,
    asked: &Asked,
) -> Result<Vec<u8>, Trouble> {
    let stock = Arc::new(alloc, SharedStock::new(Stock::new(alloc, CPUS)?))?;
    let hook = CacheHook::new(*rt, Arc::try_clone(&stock)?);
    let ran = run(rt, alloc, &asked.plan, &*stock, hook)?;
    let items = stock.all(rt, alloc)?;
    let sum = sum_of_all(alloc, &asked.plan, &items)?;
    let events = ran.journal.len();
    if events != asked.plan.events() {
        return Err(Trouble::OtherEvents(events));
    }
    if asked.writes_journal {
        return Ok(journal_text(alloc, &ran.journal)?);
    }
    let count = items.len();
    let calls = calls_of(&ran.rack.hooks);
    let line = format!(in alloc; "items {count} sum {sum} calls {calls} events {events}\n")?;
    Ok(line.into_bytes())
}

fn main(rt: HostRuntime) -> ExitCode {
    let Ok(words) = words_of(&rt) else {
        return ExitCode::from(1);
    };
    let Some(asked) = asked_by(&words) else {
        let _ = eprintln!(rt; "usage: hpcaches WORKERS ITEMS ROUNDS [--journal]");
        return ExitCode::from(1);
    };
    match answer(&rt, rt.alloc(), &asked) {
        Ok(text) => match io::writer(&rt).write_all(&text) {
            Ok(()) => ExitCode::from(0),
            Err(_) => ExitCode::from(2),
        },
        Err(trouble) => {
            let _ = eprintln!(rt; "hpcaches: {trouble:?}");
            ExitCode::from(2)
        }
    }
}
