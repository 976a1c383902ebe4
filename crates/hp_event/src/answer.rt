//! Answers of operations, walks and registrations.

ghost use Rattle.std.specs.Prelude.{◌≡◌};
ghost use Rattle.hp_event.specs.Answers.{is_ok as is_ok_of};
ghost use Rattle.hp_event.specs.Leaves.{leaves_at as leaves_at_of};

/// The answer of an operation, a walk or a registration. Codes are 1 to `MAX_CODE`.
#[derive(Clone, Copy, Debug, PartialEq, Eq)]
pub enum Answer {
    /// It was done; the number is 0, a file's value, a dynamic setup's state or a count.
    Ok(i32),
    /// It was refused, with this error number of `hp_states`.
    Refused(u32),
    /// A callback's fault stopped it, with this code, and what was done was undone.
    Fault(u32),
    /// The code `first` stopped it and the code `second` its rollback, and the processor stays at
    /// the state `at`.
    Stuck { first: u32, second: u32, at: u32 },
    /// The journal had no room for it.
    LogFull,
}

impl Answer {
    /// Whether it was done.
    ///
    /// Takes no memory. This project's own.
    pub fn is_ok(self) -> bool
        ensures { result ≡ is_ok_of self }
    {
        matches!(self, Answer::Ok(_))
    }

    /// Where a walk to a state leaves its processor, which stood at the state `stood`: at `to` where
    /// the answer is Ok, at the state where it is stuck, and else where it stood.
    ///
    /// The states may be any numbers. Takes no memory. After `st->state` of `kernel/cpu.c`; what a
    /// stuck walk leaves is this project's own.
    pub fn leaves_at(self, to: u32, stood: u32) -> u32
        ensures { result ≡ leaves_at_of self to stood }
    {
        match self {
            Answer::Ok(_) => to,
            Answer::Stuck { at, .. } => at,
            Answer::Refused(_) | Answer::Fault(_) | Answer::LogFull => stood,
        }
    }
}
