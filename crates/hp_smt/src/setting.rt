//! What SMT control keeps beside the machine: its mode, the siblings that it took down, and the write in flight.

ghost use Rattle.std.specs.Prelude.{◌≡◌, ◌<◌, is_some, [], ◌∷◌, ◌++◌};
ghost use Rattle.hp_states.specs.declared.limits.TheConstants.{MAX_CPU_SET};
ghost use Rattle.hp_model.specs.Listed.{listed};
ghost use Rattle.hp_model.specs.Lists.{without as without_of};
ghost use Rattle.hp_model.specs.SetOf.{set_of};
ghost use Rattle.hp_smt.specs.Siblings.{lowest_of as lowest_of_set};
ghost use Rattle.hp_smt.specs.Writes.{write_by as write_by_seat, decided as decided_of, begun as begun_of, under as under_of, at_rest, mode_before as mode_before_of, taking_of, recorded_after as recorded_after_of, is_done as is_done_of, flying_op as flying_op_of};
ghost use Rattle.hp_smt.specs.Gone.{gone_by as gone_by_of};

use crate::mode::{Control, Mode};
use hp_board::Turn;
use hp_event::{Answer, Op};
use hp_model::set_is_of_its_numbers;
use hp_states::{CpuSet, EBUSY, EPERM};

/// A write of control in flight.
#[derive(Clone, Copy, Debug, PartialEq, Eq)]
pub struct Write {
    /// Whose it is.
    pub seat: u32,
    pub want: Control,
    /// The mode before it.
    pub was: Mode,
    /// The processor that an operation of its own is in flight for.
    pub taking: Option<u32>,
    /// How many events there were as it began.
    pub since: u32,
    /// What was recorded then.
    pub first: CpuSet,
}

/// The mode, the processors that writes of Off and ForceOff took down, and the write in flight.
#[derive(Clone, Copy, Debug, PartialEq, Eq)]
pub struct Setting {
    pub mode: Mode,
    pub recorded: CpuSet,
    pub write: Option<Write>,
}

/// What a turn of a write makes of the setting, and what it answers.
#[derive(Clone, Copy)]
pub(crate) struct Gone {
    pub setting: Setting,
    pub turn: Turn,
}

impl Write {
    /// The write as it begins. Takes no memory.
    pub(crate) fn begin(setting: &Setting, seat: u32, want: Control, since: u32) -> Write
        ensures { result ≡ begun_of setting.now seat want since }
    {
        Write {
            seat,
            want,
            was: setting.mode,
            taking: None,
            since,
            first: setting.recorded,
        }
    }

    /// The write while an operation of its own is in flight for a processor, or between two of them. Takes no memory.
    pub(crate) fn taking(self, cpu: Option<u32>) -> Write
        ensures { result ≡ taking_of self cpu }
    {
        Write {
            taking: cpu,
            ..self
        }
    }

    /// The mode that there is again where the write isn't answered Ok(0). Takes no memory.
    pub(crate) fn mode_before(&self) -> Mode
        ensures { result ≡ mode_before_of self.now }
    {
        match self.want {
            Control::On => Mode::On,
            Control::Off | Control::ForceOff => self.was,
        }
    }

    /// What is recorded after an operation of its own for a processor has answered Ok(0). Takes no memory.
    pub(crate) fn recorded_after(&self, recorded: CpuSet, cpu: u32) -> CpuSet
        requires { cpu < MAX_CPU_SET }
        ensures { result ≡ recorded_after_of self.now.want recorded cpu }
    {
        if self.want.wants_on() {
            without(recorded, cpu)
        } else {
            with(recorded, cpu)
        }
    }
}

impl Setting {
    /// Every processor may be brought up, and nothing is recorded. Takes no memory.
    pub(crate) fn start() -> Setting
        ensures rest { result ≡ at_rest Mode.On result.recorded }
        ensures none { lowest_of_set result.recorded ≡ None }
    {
        Setting::rest(Mode::On, CpuSet::none())
    }

    /// No write is in flight. Takes no memory.
    pub(crate) fn rest(mode: Mode, recorded: CpuSet) -> Setting
        ensures { result ≡ at_rest mode recorded }
    {
        Setting {
            mode,
            recorded,
            write: None,
        }
    }

    /// A write is in flight, which gives the mode. Takes no memory.
    pub(crate) fn under(recorded: CpuSet, write: Write) -> Setting
        ensures { result ≡ under_of recorded write }
    {
        Setting {
            mode: write.want.begun(),
            recorded,
            write: Some(write),
        }
    }

    /// The write of a seat that is in flight. Takes no memory.
    pub fn write_by(&self, seat: u32) -> Option<Write>
        ensures { result ≡ write_by_seat seat self.now.write }
    {
        match self.write {
            Some(write) if write.seat == seat => Some(write),
            _ => None,
        }
    }

    /// The operation that a seat has in flight by its write, or a wakeup where it has none. Takes no memory.
    pub(crate) fn flying_op(&self, seat: u32) -> Op
        ensures { result ≡ flying_op_of seat self.now.write }
    {
        match self.write_by(seat) {
            Some(
                Write {
                    want,
                    taking: Some(cpu),
                    ..
                },
            ) => want.own_op(cpu),
            _ => Op::Wakeup,
        }
    }

    /// What a write of a seat that has none in flight is answered at once, if it is: Refused(16) while another seat's is
    /// in flight, Refused(1) in the mode ForceOff, and Ok(0) where it is of the mode that there is, but for a write of On
    /// while some processor is recorded. Takes no memory.
    pub(crate) fn decided(&self, seat: u32, want: Control) -> Option<Answer>
        ensures { result ≡ decided_of self.now seat want }
    {
        match self.write {
            Some(write) if write.seat != seat => return Some(Answer::Refused(EBUSY)),
            _ => {}
        }
        if self.mode.is_force_off() {
            return Some(Answer::Refused(EPERM));
        }
        if want.is_mode_of(self.mode) && !(want.wants_on() && self.has_recorded()) {
            return Some(Answer::Ok(0));
        }
        None
    }

    /// Whether some processor is recorded. Takes no memory.
    fn has_recorded(&self) -> bool
        ensures { result ≡ is_some (lowest_of_set self.now.recorded) }
    {
        lowest_of(&self.recorded).is_some()
    }
}

/// The lowest processor of a set, if it has one. Takes no memory.
pub(crate) fn lowest_of(set: &CpuSet) -> Option<u32>
    ensures { result ≡ lowest_of_set set.now }
{
    set.first_from(0)
}

/// A set with a processor more. Takes no memory.
fn with(set: CpuSet, cpu: u32) -> CpuSet
    requires { cpu < MAX_CPU_SET }
    ensures { result ≡ set_of (listed set ++ cpu ∷ []) }
{
    set_is_of_its_numbers(set);
    let mut after = set;
    after.put(cpu);
    set_is_of_its_numbers(after);
    after
}

/// A set without a processor. Takes no memory.
fn without(set: CpuSet, cpu: u32) -> CpuSet
    requires { cpu < MAX_CPU_SET }
    ensures { result ≡ set_of (without_of cpu (listed set)) }
{
    set_is_of_its_numbers(set);
    let mut after = set;
    after.take(cpu);
    set_is_of_its_numbers(after);
    after
}

/// Whether an operation did what a write wants of it. Takes no memory.
fn is_done(answer: Answer) -> bool
    ensures { result ≡ is_done_of answer }
{
    match answer {
        Answer::Ok(value) => value == 0,
        _ => false,
    }
}

/// What a write makes of a turn for its own operation on a processor. Takes no memory.
pub(crate) fn gone_by(recorded: CpuSet, write: Write, cpu: u32, turn: Turn) -> Gone
    requires { cpu < MAX_CPU_SET }
    ensures { result ≡ gone_by_of recorded write cpu turn }
{
    match turn {
        Turn::Made { .. } => Gone {
            setting: Setting::under(recorded, write.taking(Some(cpu))),
            turn,
        },
        Turn::NotYet(_) => Gone {
            setting: Setting::under(recorded, write),
            turn,
        },
        Turn::Answered {
            at: Some(at),
            answer,
        } if is_done(answer) => Gone {
            setting: Setting::under(write.recorded_after(recorded, cpu), write.taking(None)),
            turn: Turn::Made { at },
        },
        Turn::Answered { .. } => Gone {
            setting: Setting::rest(write.mode_before(), recorded),
            turn,
        },
    }
}
