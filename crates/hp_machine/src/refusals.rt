//! What keeps an operation from beginning: refusals, at once and after the waits.

ghost use Rattle.std.specs.Prelude.{◌≡◌, ◌||◌, ◌==◌, ◌<◌, nat_le, ℕ, true, false, None, [], ◌∷◌, OnOk, IfErr};
ghost use Rattle.hp_states.specs.declared.limits.TheConstants.{EBUSY as EBUSY_OF, EDEADLK as EDEADLK_OF, EINVAL as EINVAL_OF, ONLINE as ONLINE_OF};
ghost use Rattle.hp_event.specs.declared.op.Form.{Form};
ghost use Rattle.hp_event.specs.declared.op.Op.TheVariants.{Setup, Remove, Add, Del};
ghost use Rattle.hp_machine.specs.Blocked.{IsBlockedBy};
ghost use Rattle.hp_model.specs.Readers.{is_reading};
ghost use Rattle.hp_model.specs.Refusals.{Passes, one_online, refusals_of_arm};
ghost use Rattle.hp_model.specs.RefusalsAtOnce.{first_that_holds, if_form, if_so, is_state};
ghost use Rattle.hp_model.specs.Registrations.{registration};
ghost use Rattle.hp_model.specs.Seats.{is_busy};
ghost use Rattle.hp_model.specs.Sequence.{target_of};
ghost use Rattle.hp_model.specs.Subsystems.{sub_numbered, has_no_name};
ghost use Rattle.hp_model.specs.Waits.{is_waiting};
ghost use Rattle.hp_machine.specs.Refused.{refusal_at_once, refusal_after_waits, refusal_of_target, refusal_of_way, lists_absent};

use crate::machine::Machine;
use hp_event::{Form, Head, Op};
use hp_files::{check_fail, check_target};
use hp_hook::Hook;
use hp_locks::Why;
use hp_states::{
    CpuSet, EBUSY, EDEADLK, EINVAL, ENOSPC, EPERM, MAX_CPU_SET, OFFLINE, ONLINE, Range,
};
use std::cmp::Ordering;

/// What keeps an operation from beginning.
#[derive(Clone, Copy)]
pub(crate) enum Blocked {
    /// It is refused with this error number.
    Refused(u32),
    /// It isn't refused, and waits for this.
    Waits(Why),
}

impl<H: Hook> Machine<H> {
    /// Whether an operation of a seat that has nothing in flight can begin.
    ///
    /// - `Refused` where it is refused: at once, or where nothing keeps it waiting after the waits.
    /// - `Waits` where it isn't refused at once, and something keeps it waiting.
    ///
    /// Takes no memory, and time for the state's instances or the range, and for the absent processors where an
    /// upmany is asked for. After the calls of `kernel/cpu.c`; that what is refused at once doesn't wait first is
    /// this project's own.
    pub(crate) fn can_begin(&self, seat: u32, op: &Op) -> Result<(), Blocked>
        requires { is_busy seat self.now.events ≡ false }
        ensures passes { OnOk result (Passes self.now.head self.now.events seat op.now) }
        ensures blocked { IfErr result (IsBlockedBy self.now.head self.now.events seat op.now) }
    {
        if let Some(errno) = self.refusal_at_once(seat, op) {
            return Err(Blocked::Refused(errno));
        }
        if let Some(why) = self.wait_to_begin(op) {
            return Err(Blocked::Waits(why));
        }
        match self.refusal_after_waits(op) {
            Some(errno) => Err(Blocked::Refused(errno)),
            None => Ok(()),
        }
    }

    /// The error number by which an operation of a seat is refused at once, before any wait, if it is.
    ///
    /// The first of these that holds decides:
    /// - `EDEADLK` where the seat reads, and asks for the map lock, for another read section, or for a
    ///   registration that isn't of the locked form;
    /// - `EPERM` where it doesn't read, and ends a read section or registers in the locked form;
    /// - `EINVAL` where the processor, or one that an upmany lists, isn't possible, the target no state, the
    ///   state of a setup 0 or 200 or above or its subsystem without a name, or the instance of an add 0.
    ///
    /// There is no condition. Takes no memory. After the calls of `kernel/cpu.c`; each condition, its
    /// number and its place are this project's own.
    fn refusal_at_once(&self, seat: u32, op: &Op) -> Option<u32>
        ensures { result ≡ refusal_at_once self.now seat op.now }
    {
        let head = self.journal.head();
        let reading = self.is_reading(seat);
        match *op {
            Op::Up(cpu) | Op::Down(cpu) => refused_reader(reading, cpu >= head.possible),
            Op::Target(cpu, to) => refused_reader(reading, cpu >= head.possible || !is_state(to)),
            Op::Boot(_) | Op::Disable | Op::Enable | Op::Freeze(_) | Op::Thaw | Op::Lock => {
                refused_reader(reading, false)
            }
            Op::UpMany(ref set) => refused_reader(reading, set.first_from(head.possible).is_some()),
            Op::Unlock => (!reading).then_some(EPERM),
            Op::Arm(cpu, _) | Op::ShowState(cpu) | Op::ShowTarget(cpu) | Op::ShowFail(cpu) => {
                invalid(cpu >= head.possible)
            }
            Op::Setup { state, sub, form } => {
                refused_form(reading, form, cannot_be_set_up(head, state, sub))
            }
            Op::Add { inst, form, .. } => refused_form(reading, form, inst == 0),
            Op::Remove { form, .. } | Op::Del { form, .. } => refused_form(reading, form, false),
            Op::Wakeup | Op::ShowStates => None,
        }
    }

    /// The error number by which an operation of a seat is refused after the waits, if it is: nothing keeps it
    /// waiting, and it isn't refused at once.
    ///
    /// The first of these that holds decides:
    /// - an up, a down, a boot and an upmany: `EBUSY` where hotplug is disabled, and for a down where one
    ///   processor alone is online; `EINVAL` where the processor, or one that an upmany lists, isn't
    ///   present. An enable: `EINVAL` where hotplug isn't disabled.
    /// - a target: `EINVAL` where the state has no name or a walk can't be aimed at it; then as an up where
    ///   it is above the processor's state, and as a down, of any processor, where it is below.
    /// - an arming, but for -1: `EINVAL` where the state is none, is atomic, is a PREPARE state that the
    ///   processor has left behind, or has no callback.
    /// - a setup: `EBUSY` where its state has a name, `ENOSPC` where each state of the range has one.
    /// - a remove: `EINVAL` where the state isn't registered, `EBUSY` where it has instances.
    /// - an add: `EINVAL` where the state has no instance list, `EBUSY` where the instance is there,
    ///   `ENOSPC` where the state has 256 instances or the table 4,096. A del: `EINVAL` where the state has
    ///   no instance list or not the instance.
    ///
    /// Takes no memory, and time for the state's instances or the range, and of an upmany for the absent
    /// processors. After `cpu_up`, `cpu_down`, `target_store`, `fail_store` and the registration calls of
    /// `kernel/cpu.c`; each condition, its number and its place are this project's own.
    fn refusal_after_waits(&self, op: &Op) -> Option<u32>
        requires no_wait { is_waiting self.now.events op.now ≡ false }
        requires not_at_once { (seat : ℕ) × (refusal_at_once self.now seat op.now ≡ None) }
        ensures { result ≡ refusal_after_waits self.now op.now }
    {
        let head = self.journal.head();
        let disabled = self.disabled() > 0;
        match *op {
            Op::Up(cpu) => busy_or_invalid(disabled, !self.is_present(cpu)),
            Op::Down(cpu) => {
                busy_or_invalid(disabled || self.is_one_online(), !self.is_present(cpu))
            }
            Op::Boot(_) => busy_or_invalid(disabled, false),
            Op::UpMany(ref set) => busy_or_invalid(disabled, lists_absent(head, set)),
            Op::Enable => invalid(!disabled),
            Op::Target(cpu, to) => self.refused_target(cpu, to),
            Op::Arm(_, -1) => None,
            Op::Arm(cpu, value) => self.refused_arm(cpu, value),
            Op::Setup { state, .. } => self.refused_setup(state),
            Op::Remove { state, .. } => self.refused_remove(state),
            Op::Add { state, inst, .. } => self.refused_add(state, inst),
            Op::Del { state, inst, .. } => self.refused_del(state, inst),
            _ => None,
        }
    }

    /// Whether one processor alone is online.
    fn is_one_online(&self) -> bool
        ensures { result ≡ one_online self.now.head self.now.events }
    {
        self.account.processors.online_count() == 1
    }

    /// The number by which a target is refused that is a state.
    fn refused_target(&self, cpu: u32, value: i32) -> Option<u32>
        requires idle { registration self.now.events ≡ None }
        requires possible { cpu < self.now.head.possible }
        requires state { is_state value ≡ true }
        ensures { result ≡ refusal_of_target self.now cpu (target_of value) }
    {
        match check_target(&self.table, value) {
            Ok(state) => self.refused_way(cpu, state),
            Err(errno) => Some(errno),
        }
    }

    /// The number by which a processor's way to a state is refused at which a walk can be aimed.
    fn refused_way(&self, cpu: u32, to: u32) -> Option<u32>
        requires { cpu < self.now.head.possible }
        ensures { result ≡ refusal_of_way self.now cpu to }
    {
        let disabled = self.disabled() > 0;
        let alone = self.is_one_online();
        match self.state(cpu).cmp(&to) {
            Ordering::Less => busy_or_invalid(disabled, !self.is_present(cpu)),
            Ordering::Equal => None,
            Ordering::Greater => busy_or_invalid(disabled || alone, false),
        }
    }

    /// The number by which an arming is refused, other than of -1.
    fn refused_arm(&self, cpu: u32, value: i32) -> Option<u32>
        requires idle { registration self.now.events ≡ None }
        requires possible { cpu < self.now.head.possible }
        ensures { result ≡ first_that_holds (refusals_of_arm self.now.head self.now.events cpu value) }
    {
        check_fail(&self.table, value, self.shown(cpu)).err()
    }

    /// The number by which a setup is refused.
    fn refused_setup(&self, asked: u32) -> Option<u32>
        requires { registration self.now.events ≡ None }
        ensures { (sub : ℕ) (form : Form) → result ≡ refusal_after_waits self.now (Setup asked sub form) }
    {
        match Range::asked_by(asked) {
            Some(range) => match self.table.slot(range) {
                Ok(_) => None,
                Err(_) => Some(ENOSPC),
            },
            None => self.table.is_named(asked).then_some(EBUSY),
        }
    }

    /// The number by which a remove is refused.
    fn refused_remove(&self, state: u32) -> Option<u32>
        requires { registration self.now.events ≡ None }
        ensures { (form : Form) → result ≡ refusal_after_waits self.now (Remove state form) }
    {
        if self.table.step(state).is_none() {
            return Some(EINVAL);
        }
        (!self.table.instances(state).is_empty()).then_some(EBUSY)
    }

    /// The number by which an add is refused.
    fn refused_add(&self, state: u32, inst: u32) -> Option<u32>
        requires { registration self.now.events ≡ None }
        ensures { (form : Form) → result ≡ refusal_after_waits self.now (Add state inst form) }
    {
        if !self.table.is_multi(state) {
            return Some(EINVAL);
        }
        if self.table.instances(state).contains(&inst) {
            return Some(EBUSY);
        }
        self.table.has_no_room(state).then_some(ENOSPC)
    }

    /// The number by which a del is refused.
    fn refused_del(&self, state: u32, inst: u32) -> Option<u32>
        requires { registration self.now.events ≡ None }
        ensures { (form : Form) → result ≡ refusal_after_waits self.now (Del state inst form) }
    {
        invalid(!self.table.is_multi(state) || !self.table.has_instance(state, inst))
    }
}

/// `EDEADLK` where the seat reads, else `EINVAL` where a condition holds.
fn refused_reader(reading: bool, condition: bool) -> Option<u32>
    ensures { result ≡ first_that_holds (if_so reading EDEADLK_OF ∷ if_so condition EINVAL_OF ∷ []) }
{
    if reading {
        Some(EDEADLK)
    } else {
        invalid(condition)
    }
}

/// The number of a form that isn't for the seat, else `EINVAL` where a condition holds.
fn refused_form(reading: bool, form: Form, condition: bool) -> Option<u32>
    ensures { result ≡ first_that_holds (if_form reading form (if_so condition EINVAL_OF ∷ [])) }
{
    match (reading, form.locked) {
        (true, false) => Some(EDEADLK),
        (false, true) => Some(EPERM),
        _ => invalid(condition),
    }
}

/// `EINVAL` where a condition holds.
fn invalid(condition: bool) -> Option<u32>
    ensures { result ≡ first_that_holds (if_so condition EINVAL_OF ∷ []) }
{
    condition.then_some(EINVAL)
}

/// Whether a number is a state.
fn is_state(value: i32) -> bool
    ensures { result ≡ is_state value }
{
    0 <= value && value <= ONLINE as i32
}

/// Whether a setup is refused whatever is registered: nothing is registered at the lowest state, nor at
/// 200 and above, nor of a subsystem without a name.
fn cannot_be_set_up(head: &Head, state: u32, sub: u32) -> bool
    ensures { result ≡ (state == 0 || (nat_le ONLINE_OF state || has_no_name (sub_numbered head.now sub))) }
{
    let nameless = match head.sub(sub) {
        Some(found) => found.name.as_slice().is_empty(),
        None => true,
    };
    state == OFFLINE || state >= ONLINE || nameless
}

/// Whether a set has a possible processor that isn't present.
///
/// There is no condition. Takes no memory, and time for the absent processors. After `cpu_up` of
/// `kernel/cpu.c`, which refuses a processor that isn't present.
fn lists_absent(head: &Head, set: &CpuSet) -> bool
    ensures { result ≡ lists_absent head.now set.now }
{
    // its words are read here, so that they are known to be four
    let listed = CpuSet { words: set.words };
    let absent = head.absent.as_slice();
    for at in 0..absent.len() {
        let cpu = absent[at];
        if cpu < head.possible && cpu < MAX_CPU_SET && listed.has(cpu) {
            return true;
        }
    }
    false
}

/// `EBUSY` where a condition holds, else `EINVAL` where another does.
fn busy_or_invalid(busy: bool, bad: bool) -> Option<u32>
    ensures { result ≡ first_that_holds (if_so busy EBUSY_OF ∷ if_so bad EINVAL_OF ∷ []) }
{
    if busy { Some(EBUSY) } else { invalid(bad) }
}
