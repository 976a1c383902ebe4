//! A registration in flight.

ghost use Rattle.std.specs.Prelude.{◌≡◌, ℕ, ◌-◌, ◌*◌, ◌<◌, ◌≤◌, true, Option, IfSome, IfNone, List, [], length};
ghost use Rattle.hp_model.specs.Events.{is_registration_op};
ghost use Rattle.hp_model.specs.Lists.{among};
ghost use Rattle.hp_model.specs.Entries.{fault_of};
ghost use Rattle.hp_event.specs.Ops.{is_adding};
ghost use Rattle.hp_model.specs.RegistrationShape.{ok_value};
ghost use Rattle.hp_reg.specs.Concerned.{key_at, cpus_at, IsConcernedWithin, NoneConcerned, IsFirstLeft};
ghost use Rattle.hp_reg.specs.Progress.{cpus_left, past};
ghost use Rattle.hp_reg.specs.Asked.{direction, place, answer, IfCall};
ghost use Rattle.hp_reg.specs.After.{HasBegun, WentOn};
ghost use Rattle.hp_reg.specs.ByTable.{asked_by, GoesOnWith, ConcernsItsState};
ghost use Rattle.hp_reg.specs.CallsLeft.{calls_left, LessIsLeft};

use crate::phase::Phase;
use crate::step::RegStep;
use hp_event::{Answer, How, Key, Op};
use hp_hook::Hook;
use hp_states::{Dir, MAX_CPUS, ONLINE, Place, Range};
use hp_table::Table;
use std::marker::Model;

/// A setup, remove, add or del on its way over the processors.
///
/// Contracts see its operation, its state, and where its entries stand (`Progress`). It is plain
/// data: it holds no table, takes no memory and refuses nothing. The caller asks `next`, makes the
/// entry, and tells `took`, until `next` has ended; less is left after each entry (`calls_left`).
#[derive(Clone, Copy)]
pub struct Reg {
    op: Op,
    state: u32,
    phase: Phase,
}

impl Model for Reg {
    ghost use Rattle.std.specs.Prelude.{◌≤◌};
    ghost use Rattle.hp_states.specs.declared.limits.TheConstants.{ONLINE};
    ghost use Rattle.hp_reg.specs.Progress.{Progress};

    ghost Value = { Progress };

    ghost view = { λ r. record { op = r.op; state = r.state; phase = r.phase } };

    ghost invariant = { λ r. r.state ≤ ONLINE };

    ghost inverse = { λ p. record { op = p.op; state = p.state; phase = p.phase } };
}

impl Reg {
    /// The registration of an operation at its state, before its first entry.
    ///
    /// The operation is a setup, a remove, an add or a del. `state` is the state that it registers
    /// or changes, at most 200: the slot that was found where a setup is dynamic. Takes no memory.
    /// That a registration is made one entry at a time is this project's own.
    pub fn begin(op: Op, state: u32) -> Reg
        requires op { is_registration_op op ≡ true }
        requires state { state ≤ ONLINE }
        ensures op { result.op ≡ op }
        ensures state { result.state ≡ state }
        ensures after { HasBegun result }
        ensures few { (key : Option ℕ) (cpus : List ℕ) → calls_left key cpus result ≤ 2 * length cpus - 1 }
    {
        Reg {
            op,
            state,
            phase: Phase::Making { from: 0 },
        }
    }

    /// The operation that registers. Takes no memory. That a registration is made one entry at a
    /// time is this project's own.
    pub fn op(&self) -> Op
        ensures { result ≡ self.now.op }
    {
        self.op
    }

    /// The state that the operation registers or changes, at most 200. Takes no memory. Of a
    /// dynamic setup it is the slot that was found, as in `cpuhp_reserve_state` of `kernel/cpu.c`.
    pub fn state(&self) -> u32
        ensures state { result ≡ self.now.state }
        ensures within { result ≤ ONLINE }
    {
        self.state
    }

    /// What comes next: an entry, or the end.
    ///
    /// `settled` has the state at which each possible processor stands, of at most `MAX_CPUS`, and
    /// `absent` the processors that aren't present. The state is registered in the table, with the
    /// instance of an add or a del in its list. From the first call on, both lists and the table's
    /// keys stay. Takes no memory and changes nothing; looks at no more processors than are left.
    ///
    /// - `Call`: the entry on the lowest processor that is left. A setup and an add go upwards over
    ///   the present processors that stand at the state or above it, in rising number (`Add`);
    ///   after a fault they are rolled back, downwards over those of them below the one that
    ///   failed, in rising number (`Undo`). A remove and a del go downwards over all of them
    ///   (`Remove`). The key has the instance of an add or a del, else 0. A setup or a remove of a
    ///   state with an instance list has no key and makes no entry.
    /// - `Ended(Fault)`, with the code of the fault, where an entry faulted and the others are
    ///   rolled back.
    /// - `Ended(Ok)` where no entry faulted: the state for a setup of 41 or 141, else 0.
    ///
    /// After `__cpuhp_setup_state_cpuslocked`, `__cpuhp_state_add_instance_cpuslocked`,
    /// `cpuhp_rollback_install` and `__cpuhp_remove_state_cpuslocked` of `kernel/cpu.c`; that undoing
    /// and removing never fail, where a fault is a `BUG_ON` in `cpuhp_issue_call`, is this project's
    /// own.
    #[inline(always)]
    pub fn next<H: Hook>(&self, table: &Table<H>, settled: &[u32], absent: &[u32]) -> RegStep
        requires { length settled.now ≤ MAX_CPUS }
        ensures asks { result ≡ asked_by table.now settled.now absent.now self.now }
        ensures goes_on { GoesOnWith table.now settled.now absent.now self.now result }
        ensures on { IfCall result (ConcernsItsState settled.now absent.now self.now) }
    {
        let Some(inst) = self.key(table) else {
            return RegStep::Ended(self.answer());
        };
        match self.next_cpu(settled, absent) {
            Some(cpu) => RegStep::Call {
                cpu,
                key: Key {
                    state: self.state,
                    inst,
                },
                dir: self.dir(),
                place: self.place(),
            },
            None => RegStep::Ended(self.answer()),
        }
    }

    /// Goes on after the entry on a processor: `how` says how it was made.
    ///
    /// `cpu` is below `MAX_CPUS`. `next` asked for this entry, and `how` fits its place: the entry
    /// is done, or it is a fault and `may_fail` of hp_states holds. Otherwise nothing is promised
    /// but that the operation and the state stay. After a fault the processors before this one are
    /// to be rolled back, and the fault's code is kept: 11 where it was injected. Takes no memory.
    /// That an entry which must not fail goes on whatever it answers is this project's own.
    pub fn took(&mut self, cpu: u32, how: How)
        requires { cpu < MAX_CPUS }
        ensures op { self.new.op ≡ self.old.op }
        ensures state { self.new.state ≡ self.old.state }
        ensures after { WentOn self.old cpu how self.new }
        ensures less { LessIsLeft self.old cpu how self.new }
    {
        self.phase = past(self.phase, cpu, how);
    }

    /// The instance of the key, if there is one.
    fn key<H: Hook>(&self, table: &Table<H>) -> Option<u32>
        ensures { result ≡ key_at table.now self.now }
    {
        match self.op {
            Op::Setup { .. } | Op::Remove { .. } => match table.step(self.state) {
                Some(record) if !record.multi => Some(0),
                _ => None,
            },
            Op::Add { inst, .. } | Op::Del { inst, .. } => Some(inst),
            _ => None,
        }
    }

    /// The lowest processor whose entry is still to come, if there is one.
    fn next_cpu(&self, settled: &[u32], absent: &[u32]) -> Option<u32>
        requires { length settled.now ≤ MAX_CPUS }
        ensures none { IfNone result (cpus_left self.now.phase (cpus_at settled.now absent.now self.now) ≡ []) }
        ensures lowest { IfSome result (IsFirstLeft self.now.phase self.now.state settled.now absent.now) }
    {
        let cpus = settled.len() as u32;
        match self.phase {
            Phase::Making { from } => lowest(self.state, settled, absent, from, cpus),
            Phase::Undoing { from, failed, .. } => {
                lowest(self.state, settled, absent, from, failed.min(cpus))
            }
        }
    }

    /// The direction of the entry that comes next.
    fn dir(&self) -> Dir
        ensures { result ≡ direction self.now.phase (is_adding self.now.op) }
    {
        match self.phase {
            Phase::Making { .. } if self.op.is_adding() => Dir::Up,
            _ => Dir::Down,
        }
    }

    /// What the entry that comes next is made for.
    fn place(&self) -> Place
        ensures { result ≡ place self.now.phase (is_adding self.now.op) }
    {
        match self.phase {
            Phase::Making { .. } if self.op.is_adding() => Place::Add,
            Phase::Making { .. } => Place::Remove,
            Phase::Undoing { .. } => Place::Undo,
        }
    }

    /// What the registration answers where nothing is left.
    fn answer(&self) -> Answer
        ensures { result ≡ answer self.now }
    {
        match self.phase {
            Phase::Making { .. } => Answer::Ok(self.value() as i32),
            Phase::Undoing { code, .. } => Answer::Fault(code),
        }
    }

    /// The number that an Ok answers.
    fn value(&self) -> u32
        ensures value { result ≡ ok_value self.now.op self.now.state }
        ensures within { result ≤ ONLINE }
    {
        match self.op {
            Op::Setup { state, .. } if Range::asked_by(state).is_some() => self.state,
            _ => 0,
        }
    }
}

/// The phase once the entry on a processor was made so.
fn past(phase: Phase, cpu: u32, how: How) -> Phase
    requires { cpu < MAX_CPUS }
    ensures { result ≡ past phase cpu (fault_of how) }
{
    if let Some(code) = how.fault() {
        return Phase::Undoing {
            from: 0,
            failed: cpu,
            code,
        };
    }
    let from = cpu + 1;
    match phase {
        Phase::Making { .. } => Phase::Making { from },
        Phase::Undoing { failed, code, .. } => Phase::Undoing { from, failed, code },
    }
}

/// Whether a processor isn't present.
fn is_absent(absent: &[u32], cpu: u32) -> bool
    ensures { result ≡ among cpu absent.now }
{
    absent.contains(&cpu)
}

/// The lowest processor between two numbers that is present and stands at a state or above it.
fn lowest(state: u32, settled: &[u32], absent: &[u32], from: u32, to: u32) -> Option<u32>
    requires { to ≤ length settled.now }
    ensures found { IfSome result (IsConcernedWithin state settled.now absent.now from to) }
    ensures first { IfSome result (NoneConcerned state settled.now absent.now from) }
    ensures none { IfNone result (NoneConcerned state settled.now absent.now from to) }
{
    for cpu in from..to {
        if settled[cpu as usize] >= state && !is_absent(absent, cpu) {
            return Some(cpu);
        }
    }
    None
}
