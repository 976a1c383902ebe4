//! Operations, and how a registration is asked for.
//!
//! This project's own; the operations are named after those of `core-api/cpu_hotplug.rst`, and
//! their files after the files of `/sys/devices/system/cpu`.

ghost use Rattle.std.specs.Prelude.{◌≡◌};
ghost use Rattle.hp_event.specs.Ops.{form_of, is_adding as is_adding_of, is_setup as is_setup_of, is_map_op};

use hp_states::CpuSet;

/// How a registration is asked for. Which calls of `cpuhp_setup_state` and its kin of
/// `cpu_hotplug.rst` a form stands for: those without calls, and those that hold the read lock.
#[derive(Clone, Copy, Debug, PartialEq, Eq)]
pub struct Form {
    /// No callback is called: the entries are presumed.
    pub nocalls: bool,
    /// The caller is in a read section of its own.
    pub locked: bool,
}

/// An operation of a client.
///
/// Processors are numbers below `MAX_CPUS`, states 0 to 200, subsystems the numbers of the head's
/// list from 1, instances 1 to `MAX_INSTANCE`. An operation may hold other numbers: then the
/// machine refuses it.
#[derive(Clone, Copy, Debug, PartialEq, Eq)]
pub enum Op {
    /// Brings this processor up.
    Up(u32),
    /// Takes this processor down.
    Down(u32),
    /// Writes the `target` file of this processor: the state to walk to.
    Target(u32, i32),
    /// Writes the `fail` file of this processor: the state whose next callback is to fail, or -1
    /// for none.
    Arm(u32, i32),
    /// Shows the `state` file of this processor.
    ShowState(u32),
    /// Shows the `target` file of this processor.
    ShowTarget(u32),
    /// Shows the `fail` file of this processor.
    ShowFail(u32),
    /// Shows the `states` file.
    ShowStates,
    /// Registers the subsystem of number `sub` at a state; 41 and 141 ask for a free state of that
    /// range.
    Setup { state: u32, sub: u32, form: Form },
    /// Takes a state's registration away.
    Remove { state: u32, form: Form },
    /// Adds an instance, 1 to `MAX_INSTANCE`, to a state.
    Add { state: u32, inst: u32, form: Form },
    /// Takes an instance from a state.
    Del { state: u32, inst: u32, form: Form },
    /// Enters a read section.
    Lock,
    /// Leaves it.
    Unlock,
    /// Brings processors up, in rising number, until so many are online.
    Boot(u32),
    /// Disables hotplug once more.
    Disable,
    /// Enables it once more.
    Enable,
    /// Takes all processors down but one: this one, or the lowest that is online where it is not.
    Freeze(i32),
    /// Brings up again what a freeze took down.
    Thaw,
    /// Makes a wakeup pending.
    Wakeup,
    /// Brings these processors up together, at least one: their walks are in flight at once.
    UpMany(CpuSet),
}

impl Op {
    /// How the registration is asked for that a setup, a remove, an add or a del makes. None where
    /// the operation is another.
    ///
    /// Takes no memory. After the calls of the form `__cpuhp_setup_state` of `kernel/cpu.c`.
    pub fn form(self) -> Option<Form>
        ensures { result ≡ form_of self }
    {
        match self {
            Op::Setup { form, .. }
            | Op::Remove { form, .. }
            | Op::Add { form, .. }
            | Op::Del { form, .. } => Some(form),
            _ => None,
        }
    }

    /// Whether the operation is a setup, the one that brings a hook.
    ///
    /// Takes no memory. After `__cpuhp_setup_state` of `kernel/cpu.c`.
    pub fn is_setup(self) -> bool
        ensures { result ≡ is_setup_of self }
    {
        matches!(self, Op::Setup { .. })
    }

    /// Whether the operation adds: a setup or an add, whose entries go upwards. A remove and a del
    /// take away, and the others register nothing.
    ///
    /// Takes no memory. After `__cpuhp_setup_state_cpuslocked` and
    /// `__cpuhp_state_add_instance_cpuslocked` of `kernel/cpu.c`.
    pub fn is_adding(self) -> bool
        ensures { result ≡ is_adding_of self }
    {
        matches!(self, Op::Setup { .. } | Op::Add { .. })
    }

    /// Whether the operation takes the map lock: up, down, target, boot, disable, enable, freeze, thaw
    /// or upmany.
    ///
    /// Takes no memory. After `cpu_maps_update_begin` of `kernel/cpu.c`.
    pub fn takes_map(self) -> bool
        ensures { result ≡ is_map_op self }
    {
        match self {
            Op::Up(_)
            | Op::Down(_)
            | Op::Target(..)
            | Op::Boot(_)
            | Op::Disable
            | Op::Enable
            | Op::Freeze(_)
            | Op::Thaw
            | Op::UpMany(_) => true,
            _ => false,
        }
    }
}
