//! The head of a journal: the processors and the subsystems.
//!
//! It stands before the first event, and no event changes it. What a head is, is this project's
//! own.

ghost use Rattle.std.specs.Prelude.{◌≡◌, ◌++◌, ◌∷◌, [], IfOk, OnOk, OnErr, option_map};
ghost use Rattle.hp_event.specs.Heads.{is_present as is_present_of, sub_numbered};

use crate::lists::{Name, Numbers, Subs};
use hp_states::{HookPlan, NoMemory};
use std::alloc::Global;
use std::marker::Model;

/// A subsystem, which registers its callbacks at states.
#[derive(Debug, Drop)]
pub struct Sub {
    /// Its name; an empty one is no name.
    pub name: Name,
    /// Whether it has a startup.
    pub up: bool,
    /// Whether it has a teardown.
    pub down: bool,
    /// Whether its states have instance lists.
    pub multi: bool,
    /// The rules by which its callbacks answer.
    pub plan: HookPlan,
}

impl Sub {
    /// A subsystem equal to this one. Takes memory for its name; where there is none: `NoMemory`.
    pub fn copy(&self) -> Result<Sub, NoMemory>
        ensures { IfOk result (λ s. s ≡ self.now) }
    {
        let name = self.name.copy()?;
        Ok(Sub {
            name,
            up: self.up,
            down: self.down,
            multi: self.multi,
            plan: self.plan,
        })
    }
}

/// What decides whether a journal is lawful, beside its events.
#[derive(Debug, Drop)]
pub struct Head {
    /// How many processors are possible: those below this number.
    pub possible: u32,
    /// Those of them that are absent, in rising number.
    pub absent: Numbers,
    /// The subsystems, numbered from 1.
    pub subs: Subs,
}

impl Head {
    /// Whether a processor is present: it is possible and isn't absent.
    ///
    /// `cpu` may be any number. Takes no memory, and time for the absent processors. After
    /// `cpu_present_mask` of `kernel/cpu.c`.
    pub fn is_present(&self, cpu: u32) -> bool
        ensures { result ≡ is_present_of self.now cpu }
    {
        cpu < self.possible && !self.absent.as_slice().contains(&cpu)
    }

    /// The subsystem of a number, counted from 1 in the order of the head. None where the number is
    /// 0 or above the count of subsystems.
    ///
    /// Takes no memory. That subsystems have numbers is this project's own.
    pub fn sub(&self, number: u32) -> Option<&Sub>
        ensures { option_map (λ s. s.now) result ≡ sub_numbered self.now number }
    {
        if number == 0 {
            return None;
        }
        self.subs.as_slice().get(number as usize - 1)
    }

    /// A head equal to this one.
    ///
    /// Takes memory for the absent processors, the subsystems and their names; where there is none:
    /// `NoMemory`.
    pub fn copy(&self) -> Result<Head, NoMemory>
        ensures { IfOk result (λ h. h ≡ self.now) }
    {
        let absent = self.absent.copy()?;
        let subs = self.subs.copy()?;
        Ok(Head {
            possible: self.possible,
            absent,
            subs,
        })
    }
}
