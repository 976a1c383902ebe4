//! How an entry was made.

ghost use Rattle.std.specs.Prelude.{◌≡◌};
ghost use Rattle.hp_states.specs.Sections.{can_fail};
ghost use Rattle.hp_event.specs.Hows.{is_done as is_done_of, is_called as is_called_of, is_hook_fault as is_hook_fault_of, fault_of, how_answered};

use hp_states::{Dir, EAGAIN, Place, may_fail};

/// How an entry was made. Codes are 1 to `MAX_CODE`.
#[derive(Clone, Copy, Debug, PartialEq, Eq)]
pub enum How {
    /// The callback was called and answered 0.
    RanOk,
    /// The callback was called and answered this code, and the entry may fail.
    RanFault(u32),
    /// An armed fault was taken, and nothing called; its code is 11.
    Injected,
    /// The subsystem has no callback of that direction.
    Empty,
    /// An entry of a form without calls.
    Presumed,
    /// The callback was called and answered this code, where an entry must not fail.
    Overruled(u32),
}

impl How {
    /// How an entry was made whose callback was called and answered a code: `RanOk` where that is 0;
    /// else `RanFault` where an entry of this direction, state and place may fail (`may_fail` of
    /// hp_states), and `Overruled` where it must not.
    ///
    /// Any numbers will do. Takes no memory. After `cpuhp_invoke_callback` of `kernel/cpu.c`; which
    /// faults are overruled is this project's own.
    pub fn of_answer(code: u32, dir: Dir, state: u32, place: Place) -> How
        ensures { result ≡ how_answered (can_fail dir state place) code }
    {
        match code {
            0 => How::RanOk,
            code if may_fail(dir, state, place) => How::RanFault(code),
            code => How::Overruled(code),
        }
    }

    /// Whether the entry is done: what was called answered 0, nothing was called, or a fault was
    /// overruled. An entry that was a fault, real or injected, isn't.
    ///
    /// Takes no memory. This project's own.
    pub fn is_done(self) -> bool
        ensures { result ≡ is_done_of self }
    {
        match self {
            How::RanOk | How::Empty | How::Presumed | How::Overruled(_) => true,
            How::RanFault(_) | How::Injected => false,
        }
    }

    /// Whether a callback was called, whatever it answered.
    ///
    /// Takes no memory. This project's own.
    pub fn is_called(self) -> bool
        ensures { result ≡ is_called_of self }
    {
        match self {
            How::RanOk | How::RanFault(_) | How::Overruled(_) => true,
            How::Injected | How::Empty | How::Presumed => false,
        }
    }

    /// Whether a callback was called and answered a code, whatever became of it.
    ///
    /// Takes no memory. This project's own.
    pub fn is_hook_fault(self) -> bool
        ensures { result ≡ is_hook_fault_of self }
    {
        match self {
            How::RanFault(_) | How::Overruled(_) => true,
            How::RanOk | How::Injected | How::Empty | How::Presumed => false,
        }
    }

    /// The code of a fault: what the callback answered, or 11 where the fault was injected. None
    /// where the entry is done.
    ///
    /// Takes no memory. The code of an injected fault is that of `cpuhp_invoke_callback` of
    /// `kernel/cpu.c`.
    pub fn fault(self) -> Option<u32>
        ensures { result ≡ fault_of self }
    {
        match self {
            How::RanFault(code) => Some(code),
            How::Injected => Some(EAGAIN),
            How::RanOk | How::Empty | How::Presumed | How::Overruled(_) => None,
        }
    }
}
