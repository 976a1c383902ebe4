//! The machines of the tests.

ghost use Rattle.std.specs.Prelude.{◌≡◌, IfOk};
ghost use Rattle.hp_live.specs.Known.{IsOf};

use hp_board::CpuPlan;
use hp_event::{Head, Journal, Name, Numbers, Sub, Subs};
use hp_hook::Hook;
use hp_law::is_head;
use hp_live::{Hotplug, Root};
use hp_states::HookPlan;
use std::alloc::Global;
use std::process::Abort;
use std::sync::Wait;
use std::test::Fail;

/// So many processors, and this many subsystems with both callbacks and single states.
pub(crate) fn head(alloc: Global, possible: u32, subs: u32) -> Result<Head, Fail> {
    let mut head = Head {
        possible,
        absent: Numbers::new(alloc),
        subs: Subs::new(alloc),
    };
    for _ in 0..subs {
        head.subs.push(sub(alloc, false)?)?;
    }
    Ok(head)
}

/// A subsystem with both callbacks, which never fail. Its states have instances, or are single ones.
pub(crate) fn sub(alloc: Global, multi: bool) -> Result<Sub, Fail> {
    Ok(Sub {
        name: Name::from_vec(Vec::from_slice(alloc, b"net:a")?),
        up: true,
        down: true,
        multi,
        plan: HookPlan::none(),
    })
}

/// A machine with this head, and its root.
pub(crate) fn started<H: Hook + Send>(
    alloc: Global,
    head: &Head,
) -> Result<(Hotplug<H>, Root<H>), Fail>
    ensures own { IfOk result (λ r. IsOf r.0 r.1.lock) }
    ensures head { IfOk result (λ r. r.1.head ≡ head.now) }
{
    if !is_head(head) {
        return Err(Fail::from("no machine is started with this head"));
    }
    let Head {
        possible,
        absent,
        subs,
    } = head.copy()?;
    let plan = CpuPlan { possible, absent };
    Ok(Hotplug::start(alloc, plan, subs)?)
}

/// The journal of a machine that ends: all clients have left, and nothing is lent.
pub(crate) fn closed<H: Hook + Send>(
    rt: &(impl Wait + Abort),
    machine: Hotplug<H>,
    root: Root<H>,
) -> Journal
    requires { IsOf machine root.lock }
{
    let board = machine.close(rt, root);
    assert!(rt; board.clients() == 0);
    assert!(rt; board.is_home(), "nothing is lent");
    board.into_journal()
}
