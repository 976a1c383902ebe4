//! The modes of SMT control, and what can be written to it.
//!
//! After `enum cpuhp_smt_control` of `linux/cpuhotplug.h`; that a write goes on by turns, and the mode meanwhile, are
//! this project's own.

ghost use Rattle.std.specs.Prelude.{◌≡◌};
ghost use Rattle.hp_smt.specs.Modes.{begun_mode, ended_mode, is_on as is_on_of, is_force_off as is_force_off_of, is_mode_of as is_mode_of_of, wants_on as wants_on_of, own_op};

use hp_event::Op;

/// Which processors may be brought up.
#[derive(Clone, Copy, Debug, PartialEq, Eq)]
pub enum Mode {
    /// All.
    On,
    /// Primaries alone, while a write takes the siblings down: on its way to ForceOff where this is true, else to Off.
    Closing(bool),
    /// Primaries alone: no sibling is online.
    Off,
    /// So too, and no write changes it any more.
    ForceOff,
}

/// What is written to the `control` file.
#[derive(Clone, Copy, Debug, PartialEq, Eq)]
pub enum Control {
    /// Brings the recorded siblings up.
    On,
    /// Takes the siblings down.
    Off,
    /// Takes the siblings down for good.
    ForceOff,
}

impl Mode {
    /// Whether every processor may be brought up. Takes no memory.
    pub fn is_on(self) -> bool
        ensures { result ≡ is_on_of self }
    {
        matches!(self, Mode::On)
    }

    /// Whether no write changes it any more. Takes no memory.
    pub fn is_force_off(self) -> bool
        ensures { result ≡ is_force_off_of self }
    {
        matches!(self, Mode::ForceOff)
    }
}

impl Control {
    /// Whether it is a write of On. Takes no memory.
    pub fn wants_on(self) -> bool
        ensures { result ≡ wants_on_of self }
    {
        matches!(self, Control::On)
    }

    /// Whether it is the write of this mode. Takes no memory.
    pub fn is_mode_of(self, mode: Mode) -> bool
        ensures { result ≡ is_mode_of_of self mode }
    {
        match (self, mode) {
            (Control::On, Mode::On) => true,
            (Control::Off, Mode::Off) => true,
            (Control::ForceOff, Mode::ForceOff) => true,
            _ => false,
        }
    }

    /// The mode from the turn on at which its write begins. Takes no memory.
    pub(crate) fn begun(self) -> Mode
        ensures { result ≡ begun_mode self }
    {
        match self {
            Control::On => Mode::On,
            Control::Off => Mode::Closing(false),
            Control::ForceOff => Mode::Closing(true),
        }
    }

    /// The mode once its write has answered Ok(0). Takes no memory.
    pub(crate) fn ended(self) -> Mode
        ensures { result ≡ ended_mode self }
    {
        match self {
            Control::On => Mode::On,
            Control::Off => Mode::Off,
            Control::ForceOff => Mode::ForceOff,
        }
    }

    /// What its write does with a processor. Takes no memory.
    pub(crate) fn own_op(self, cpu: u32) -> Op
        ensures { result ≡ own_op self cpu }
    {
        match self {
            Control::On => Op::Up(cpu),
            Control::Off | Control::ForceOff => Op::Down(cpu),
        }
    }
}
