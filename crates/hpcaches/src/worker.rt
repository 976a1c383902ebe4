//! What the threads of the workers do.

ghost use Rattle.std.specs.Prelude.{◌≡◌, true, false, None, IfOk, IfSome};
ghost use Rattle.hp_live.specs.Known.{IsOf};
ghost use Rattle.hp_model.specs.Seats.{is_busy};
ghost use Rattle.hp_states.specs.CpuSets.{has};
ghost use Rattle.hpcaches.specs.Passes.{IsNext, IsReady, WasOnline};

use crate::shared::SharedStock;
use crate::trouble::Trouble;
use hp_caches::CPUS;
use hp_hook::Hook;
use hp_live::{FreeGate, Hotplug, Parked, Pass, ReadPass};
use hp_states::CpuSet;
use std::sync::{Barrier, Wait};

/// So many items are put for one that is taken.
const PUTS: u32 = 4;

/// A worker on its way to its thread, with the first of its items.
#[derive(Drop)]
pub(crate) struct Worker<'m, H: Hook + Send> {
    pub(crate) machine: &'m Hotplug<H>,
    pub(crate) pass: Parked<H>,
    pub(crate) first: u32,
    ghost own: { IsOf machine.now pass.lock },
    ghost idle: { is_busy pass.seat pass.front ≡ false },
    ghost nothing: { pass.lent ≡ None },
}

impl<'m, H: Hook + Send> Worker<'m, H> {
    /// Once the caches are open puts so many items from its first on, each in a read section of its own, and leaves. What
    /// failed last is answered.
    pub(crate) fn works<R: Wait>(
        self,
        rt: &R,
        stock: &SharedStock,
        items: u32,
        caches_open: &Barrier,
    ) -> Result<(), Trouble> {
        let Worker {
            machine,
            pass,
            first,
        } = self;
        caches_open.wait(rt);
        let (pass, done) = put_all(rt, machine, stock, pass.resume(), first, items);
        machine.leave(rt, &FreeGate, pass);
        done
    }
}

/// Puts so many items from the first on, each in a read section of its own.
fn put_all<H: Hook + Send, R: Wait>(
    rt: &R,
    machine: &Hotplug<H>,
    stock: &SharedStock,
    pass: Pass<H>,
    first: u32,
    items: u32,
) -> (Pass<H>, Result<(), Trouble>)
    requires { IsReady machine.now pass }
    ensures { IsNext pass result.0 }
{
    let mut next = pass;
    let mut done = Ok(());
    for item in first..first.saturating_add(items) {
        let (after, put) = put_once(rt, machine, stock, next, item);
        next = after;
        if put.is_err() {
            done = put;
        }
    }
    (next, done)
}

/// Puts an item in a read section.
fn put_once<H: Hook + Send, R: Wait>(
    rt: &R,
    machine: &Hotplug<H>,
    stock: &SharedStock,
    pass: Pass<H>,
    item: u32,
) -> (Pass<H>, Result<(), Trouble>)
    requires { IsReady machine.now pass }
    ensures { IsNext pass result.0 }
{
    match machine.read_lock(rt, &FreeGate, pass) {
        Ok(read) => {
            let (pass, put) = put_reading(rt, machine, stock, read, item);
            match put {
                Ok(_) => (pass, Ok(())),
                Err(trouble) => (pass, Err(trouble)),
            }
        }
        Err((refusal, pass)) => (pass, Err(Trouble::NoSection(refusal))),
    }
}

/// Puts an item, and ends the read section: the processor whose cache it came into, which is online from the section's begin
/// to its end.
fn put_reading<H: Hook + Send, R: Wait>(
    rt: &R,
    machine: &Hotplug<H>,
    stock: &SharedStock,
    read: ReadPass<H>,
    item: u32,
) -> (Pass<H>, Result<u32, Trouble>)
    requires { IsOf machine.now read.pass.lock }
    ensures next { IsNext read.pass result.0 }
    ensures online { IfOk result.1 (WasOnline read result.0.front) }
{
    let put = put_in(rt, stock, &read, item);
    (machine.read_unlock(rt, &FreeGate, read), put)
}

/// Puts an item into the cache of a processor that is online in the section, and takes one from there now and then.
fn put_in<H: Hook + Send, R: Wait>(
    rt: &R,
    stock: &SharedStock,
    read: &ReadPass<H>,
    item: u32,
) -> Result<u32, Trouble>
    ensures { IfOk result (λ cpu. has read.now.online cpu ≡ true) }
{
    let Some(cpu) = one_of(read.online(), item % CPUS) else {
        return Err(Trouble::NoneOnline);
    };
    stock.put(rt, read, cpu, item)?;
    if item % PUTS == 0 {
        stock.take(rt, read, cpu)?;
    }
    Ok(cpu)
}

/// A processor of a set: the first from this one on, or else the first of all.
fn one_of(online: CpuSet, from: u32) -> Option<u32>
    ensures { IfSome result (λ cpu. has online cpu ≡ true) }
{
    match online.first_from(from) {
        Some(cpu) => Some(cpu),
        None => online.first_from(0),
    }
}
