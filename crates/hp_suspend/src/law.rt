//! Laws of what a sequence of walks keeps of the journal, as functions with empty bodies.

ghost use Rattle.std.specs.Prelude.{◌≡◌, true, false, ◌≤◌, length};
ghost use Rattle.hp_model.specs.Suspend.{frozen};
ghost use Rattle.hp_model.specs.Lawful.{IsLawful};
ghost use Rattle.hp_suspend.specs.declared.thaw.Thaw.{Thaw as AThaw};
ghost use Rattle.hp_suspend.specs.Quiet.{is_quiet, is_walk_begin};
ghost use Rattle.hp_suspend.specs.Freezing.{LeavesFreeze, ArePossibleRising};
ghost use Rattle.hp_suspend.specs.Thawing.{IsThawing, LeavesThaw};
ghost use Rattle.hp_suspend.specs.Booting.{LeavesBoot, FewFailuresOfBoot};
ghost use Rattle.hp_suspend.specs.Batching.{LeavesBatch, FewFailuresOfBatch};

use hp_event::{Event, Head};

/// Every other event than an Enter and the end of a walk leaves a freeze, a thaw and a boot as they
/// are, and but for the begin of a walk an upmany too.
pub fn others_change_nothing(event: &Event)
    requires { is_quiet event.now ≡ true }
    ensures freeze { LeavesFreeze event.now }
    ensures thaw { LeavesThaw event.now }
    ensures boot { LeavesBoot event.now }
    ensures batch { is_walk_begin event.now ≡ false → LeavesBatch event.now }
{}

/// After a lawful journal the record of the last freeze is in rising number, and of possible
/// processors: it is those of their numbers that are in it.
pub fn record_rises(head: &Head, events: &[Event])
    ensures { IsLawful head.now events.now → ArePossibleRising head.now (frozen events.now) }
{}

/// After any journal no more walks of a thaw, a boot or an upmany have failed than there are
/// events.
pub fn failures_are_few(events: &[Event])
    ensures thaw { (t : AThaw) → IsThawing events.now t → t.failed ≤ length events.now }
    ensures boot { FewFailuresOfBoot events.now }
    ensures batch { FewFailuresOfBatch events.now }
{}
