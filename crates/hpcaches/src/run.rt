//! A whole run, from the start of the machine to its journal.

ghost use Rattle.std.specs.Prelude.{◌≡◌, true, false, IfOk};
ghost use Rattle.hp_event.specs.declared.op.Op.TheVariants.{Setup};
ghost use Rattle.hp_live.specs.Forms.{unlocked};
ghost use Rattle.hp_live.specs.Known.{IsOf};
ghost use Rattle.hp_model.specs.Subsystems.{names_sub};
ghost use Rattle.hpcaches.specs.Runs.{IsRun};
ghost use Rattle.hpcaches.specs.declared.admin.TheConstants.{STATE as STATE_OF};

use crate::admin::STATE;
use crate::jobs::{admit_all, all_done};
use crate::shared::SharedStock;
use crate::trouble::Trouble;
use hp_board::{Board, CpuPlan};
use hp_caches::{CPUS, Plan};
use hp_event::{Form, Head, Journal, Name, Numbers, Op, Sub, Subs};
use hp_hook::{Hook, Rack};
use hp_law::is_head;
use hp_live::{Hotplug, Root};
use hp_machine::names_sub;
use hp_states::{HookPlan, NoMemory};
use std::alloc::Global;
use std::sync::{Barrier, Wait};
use std::thread::Threads;

/// What comes of a run: its journal, and the hooks that were registered at its end.
#[derive(Drop)]
pub(crate) struct Ran<H> {
    pub(crate) journal: Journal,
    pub(crate) rack: Rack<H>,
}

/// Runs a plan over this stock, with the hook of its caches.
pub(crate) fn run<H: Hook + Send, R: Threads + Wait + Sync>(
    rt: &R,
    alloc: Global,
    plan: &Plan,
    stock: &SharedStock,
    hook: H,
) -> Result<Ran<H>, Trouble>
    ensures { IfOk result (IsRun H.counts) }
{
    let (machine, mut root) = start(alloc)?;
    let jobs = admit_all(rt, alloc, &machine, &mut root, plan, hook)?;
    let caches_open = Barrier::new((plan.workers() as usize).saturating_add(1));
    let done = all_done(rt, jobs, plan, stock, &caches_open);
    let board = machine.close(rt, root);
    done?;
    retire(alloc, board)
}

/// The machine, which has a subsystem for the caches, and its root.
fn start<H: Hook + Send>(alloc: Global) -> Result<(Hotplug<H>, Root<H>), Trouble>
    ensures own { IfOk result (λ r. IsOf r.0 r.1.lock) }
    ensures named { IfOk result (λ r. names_sub r.1.head (Setup STATE_OF 1 (unlocked false)) ≡ true) }
{
    let head = head(alloc)?;
    if !is_head(&head) {
        return Err(Trouble::NoHead);
    }
    if !names_sub(&head, &setup()) {
        return Err(Trouble::NoHead);
    }
    let Head {
        possible,
        absent,
        subs,
    } = head;
    match Hotplug::start(alloc, CpuPlan { possible, absent }, subs) {
        Ok(started) => Ok(started),
        Err(error) => Err(Trouble::NotStarted(error)),
    }
}

/// The setup of the state of the caches.
fn setup() -> Op
    ensures { result ≡ Setup STATE_OF 1 (unlocked false) }
{
    let form = Form {
        nocalls: false,
        locked: false,
    };
    Op::Setup {
        state: STATE,
        sub: 1,
        form,
    }
}

/// The processors, and one subsystem with both callbacks.
fn head(alloc: Global) -> Result<Head, NoMemory> {
    let mut subs = Subs::new(alloc);
    subs.push(Sub {
        name: Name::from_vec(Vec::from_slice(alloc, b"caches")?),
        up: true,
        down: true,
        multi: false,
        plan: HookPlan::none(),
    })?;
    Ok(Head {
        possible: CPUS,
        absent: Numbers::new(alloc),
        subs,
    })
}

/// The journal of a board that is given up, and its hooks.
fn retire<H: Hook + Send>(alloc: Global, board: Board<H>) -> Result<Ran<H>, Trouble>
    ensures { IfOk result (IsRun H.counts) }
{
    if !board.is_home() {
        return Err(Trouble::InFlight);
    }
    if board.registrar().is_some() {
        return Err(Trouble::InFlight);
    }
    board.sound();
    let mut rack = Rack {
        hooks: Vec::new(alloc),
    };
    match board.retire(&mut rack) {
        Ok(journal) => Ok(Ran { journal, rack }),
        Err(_) => Err(Trouble::NoMemory),
    }
}
