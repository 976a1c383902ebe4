//! The sections of the state table.

ghost use Rattle.std.specs.Prelude.{◌≡◌, is_some};
ghost use Rattle.std.specs.Option.{option_copied};
ghost use Rattle.hp_states.specs.Sections.{section_at, is_ap_state, is_atomic_state, is_stop, name_of_builtin, is_builtin as is_builtin_of, first_state as first_state_of, is_dynamic, range_asked_by, first_slot, last_slot, can_fail};

use crate::dir::Dir;
use crate::limits::{
    AP_ONLINE, BRINGUP_CPU, OFFLINE, ONLINE, ONLINE_DYN, ONLINE_DYN_END, PREPARE_DYN,
    PREPARE_DYN_END, TEARDOWN_CPU,
};
use crate::place::Place;

/// The three sections of the state table, lowest first, after `cpuhotplug.h`.
#[derive(Clone, Copy, Debug, PartialEq, Eq)]
pub enum Section {
    /// States 0 to 62: callbacks run on the client's seat, before the processor runs.
    Prepare,
    /// States 63 to 100: callbacks run on the starting processor and must not fail.
    Starting,
    /// States 101 to 200: callbacks run on the processor.
    Online,
}

/// The two ranges whose states a setup may ask for without naming one, after `cpuhotplug.h`.
#[derive(Clone, Copy, Debug, PartialEq, Eq)]
pub enum Range {
    /// States 41 to 61.
    Prepare,
    /// States 141 to 171.
    Online,
}

impl Range {
    /// The range that a setup of a state asks for: a setup of 41 or of 141 asks for any free state
    /// of the range that begins there, one of another state for that state alone.
    ///
    /// `state` may be any number. Takes no memory. After `CPUHP_BP_PREPARE_DYN` and
    /// `CPUHP_AP_ONLINE_DYN` of `cpuhotplug.h`.
    pub fn asked_by(state: u32) -> Option<Range>
        ensures range { result ≡ range_asked_by state }
        ensures dynamic { is_some result ≡ is_dynamic state }
    {
        match state {
            PREPARE_DYN => Some(Range::Prepare),
            ONLINE_DYN => Some(Range::Online),
            _ => None,
        }
    }

    /// The first state of the range: 41 or 141.
    ///
    /// Takes no memory. After `CPUHP_BP_PREPARE_DYN` and `CPUHP_AP_ONLINE_DYN` of `cpuhotplug.h`.
    pub fn first(self) -> u32
        ensures { result ≡ first_slot self }
    {
        match self {
            Range::Prepare => PREPARE_DYN,
            Range::Online => ONLINE_DYN,
        }
    }

    /// The last state of the range: 61 or 171.
    ///
    /// Takes no memory. After `CPUHP_BP_PREPARE_DYN_END` and `CPUHP_AP_ONLINE_DYN_END` of
    /// `cpuhotplug.h`.
    pub fn last(self) -> u32
        ensures { result ≡ last_slot self }
    {
        match self {
            Range::Prepare => PREPARE_DYN_END,
            Range::Online => ONLINE_DYN_END,
        }
    }
}

/// The section of a state.
///
/// `s` may be any number; above 200 it is that of 200. Takes no memory. The sections are those of `cpuhotplug.h`, their numbers
/// this project's own.
pub fn section_of(s: u32) -> Section
    ensures { result ≡ section_at s }
{
    if s <= BRINGUP_CPU {
        Section::Prepare
    } else if s <= AP_ONLINE {
        Section::Starting
    } else {
        Section::Online
    }
}

/// Whether entries at a state are made by the processor itself: above 62, other than 101.
///
/// `s` may be any number. Takes no memory. After `cpuhp_is_ap_state` of `kernel/cpu.c`.
pub fn is_ap(s: u32) -> bool
    ensures { result ≡ is_ap_state s }
{
    s > BRINGUP_CPU && s != TEARDOWN_CPU
}

/// Whether a state is atomic: 63 to 99. No fault can be armed there.
///
/// `s` may be any number. Takes no memory. After `cpuhp_is_atomic_state` of `kernel/cpu.c`.
pub fn is_atomic(s: u32) -> bool
    ensures { result ≡ is_atomic_state s }
{
    s > BRINGUP_CPU && s < AP_ONLINE
}

/// Whether a walk may be aimed at a state: all but 62 to 102.
///
/// `s` may be any number; that no state is above 200 isn't looked at. Takes no memory. This project's own, after `cant_stop` of `kernel/cpu.c`.
pub fn can_stop(s: u32) -> bool
    ensures { result ≡ is_stop s }
{
    s < BRINGUP_CPU || s > TEARDOWN_CPU + 1
}

/// The name of a built-in state, or none for any other state.
///
/// `s` may be any number. Takes no memory. The names are this project's own.
pub fn builtin_name(s: u32) -> Option<&'static str>
    ensures { option_copied result ≡ name_of_builtin s }
{
    match s {
        OFFLINE => Some("offline"),
        BRINGUP_CPU => Some("cpu:bringup"),
        63 => Some("idle:dead"),
        64 => Some("ap:offline"),
        AP_ONLINE => Some("ap:online"),
        TEARDOWN_CPU => Some("cpu:teardown"),
        102 => Some("online:idle"),
        199 => Some("sched:active"),
        ONLINE => Some("online"),
        _ => None,
    }
}

/// Whether a state is built in: it is one of the nine that have a name from the start, and nothing
/// can be registered there.
///
/// `s` may be any number. Takes no memory. The names are this project's own.
pub fn is_builtin(s: u32) -> bool
    ensures { result ≡ is_builtin_of s }
{
    builtin_name(s).is_some()
}

/// The state at which a processor stands before its first walk: 200 for processor 0, which a
/// machine boots on, and 0 for any other.
///
/// `cpu` may be any number. Takes no memory. After `boot_cpu_hotplug_init` of `kernel/cpu.c`.
pub fn first_state(cpu: u32) -> u32
    ensures { result ≡ first_state_of cpu }
{
    if cpu == 0 { ONLINE } else { OFFLINE }
}

/// Whether an entry may fail: a fault of any other entry is overruled.
///
/// `s` may be any number; above 200 the answer is that of 200. Takes no memory. This project's own: a STARTING entry never may fail, a
/// PREPARE entry upwards in a walk and in adding, an ONLINE entry both ways in a walk and upwards
/// in adding; no entry that removes or undoes a part or a registration may fail.
pub fn may_fail(dir: Dir, s: u32, place: Place) -> bool
    ensures { result ≡ can_fail dir s place }
{
    let upwards = matches!(dir, Dir::Up);
    match place {
        Place::Forward | Place::Back => match section_of(s) {
            Section::Prepare => upwards,
            Section::Starting => false,
            Section::Online => true,
        },
        Place::Add => upwards && section_of(s) != Section::Starting,
        Place::Part | Place::Undo | Place::Remove => false,
    }
}
