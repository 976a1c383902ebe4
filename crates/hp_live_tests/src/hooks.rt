//! A hook that waits in its call, and a gate that waits for the call.

use crate::sleepers::{self, Stage};
use hp_hook::{Hook, ScriptHook};
use hp_live::Gate;
use hp_states::{Dir, HookPlan};
use std::alloc::Global;
use std::sync::Arc;
use std::sync::atomic::{AtomicU64, Ordering};

/// After how many turns of its loop a wait gives up.
const TURNS: u64 = 1_000_000_000;

/// What a hook and a gate tell each other: 0 for no, 1 for yes.
#[derive(Drop)]
pub(crate) struct Marks {
    /// The hook has begun its call on the second processor.
    pub(crate) begun: AtomicU64,
    /// The client whose seat is watched has nothing more to ask.
    pub(crate) shown: AtomicU64,
    /// One of them gave up.
    pub(crate) gave_up: AtomicU64,
}

impl Marks {
    pub(crate) fn none() -> Marks {
        Marks {
            begun: AtomicU64::new(0),
            shown: AtomicU64::new(0),
            gave_up: AtomicU64::new(0),
        }
    }

    /// Waits until a mark is set, or gives up.
    fn awaits(&self, mark: &AtomicU64) {
        for _ in 0..TURNS {
            if mark.load(Ordering::SeqCst) == 1 {
                return;
            }
        }
        self.gave_up.store(1, Ordering::SeqCst);
    }
}

/// A hook that waits in its call on the second processor until a file was shown.
#[derive(Drop)]
pub(crate) struct Waiting {
    pub(crate) script: ScriptHook,
    pub(crate) marks: Arc<Marks, Global>,
}

impl Hook for Waiting {
    ghost counts = { λ h. h.script };

    fn load(&mut self, rules: HookPlan) {
        self.script.load(rules);
    }

    fn call(&mut self, cpu: u32, inst: u32, dir: Dir) -> u32 {
        if cpu == 1 {
            self.marks.begun.store(1, Ordering::SeqCst);
            self.marks.awaits(&self.marks.shown);
        }
        self.script.call(cpu, inst, dir)
    }

    fn made(&self) -> u64 {
        self.script.made()
    }

    fn faults(&self) -> u64 {
        self.script.faults()
    }
}

/// A gate that holds a seat at its first section until the hook has begun its call, and marks when the seat leaves.
#[derive(Drop)]
pub(crate) struct Watch {
    pub(crate) seat: u32,
    pub(crate) marks: Arc<Marks, Global>,
}

impl Stage for Watch {
    fn marks(&self) -> Option<&sleepers::Marks> {
        None
    }
}

impl Gate for Watch {
    fn pass(&self, seat: u32, section: u64, last: bool) {
        if seat != self.seat {
            return;
        }
        if section == 0 {
            self.marks.awaits(&self.marks.begun);
        }
        if last {
            self.marks.shown.store(1, Ordering::SeqCst);
        }
    }
}
