//! Hooks that wait in their calls until another seat sleeps or was answered, and a gate that sees it come to its sleep.

use hp_hook::{Hook, ScriptHook};
use hp_live::{FreeGate, Gate};
use hp_states::{Dir, HookPlan};
use std::alloc::Global;
use std::sync::Arc;
use std::sync::atomic::{AtomicU64, Ordering};
use std::test::Fail;
use std::thread::yield_now;

/// After how many turns a wait gives up: a second or more, and longer where processors are busy.
const TURNS: u64 = 100_000;

/// How many turns a seat is given that has come to the section after which it sleeps.
const REST: u64 = 50;

/// How often a turn looks at a mark before it yields.
const LOOKS: u64 = 4_000;

/// What hooks, gates and clients tell each other: 0 for no, 1 for yes.
#[derive(Drop)]
pub(crate) struct Marks {
    /// Whoever is to be first has begun.
    pub(crate) first: AtomicU64,
    /// So has the second.
    pub(crate) second: AtomicU64,
    /// The seat that is watched has come to the section after which it sleeps.
    asleep: AtomicU64,
    /// What was waited for was answered.
    pub(crate) answered: AtomicU64,
    /// One of them gave up.
    gave_up: AtomicU64,
}

impl Marks {
    pub(crate) fn none() -> Marks {
        Marks {
            first: AtomicU64::new(0),
            second: AtomicU64::new(0),
            asleep: AtomicU64::new(0),
            answered: AtomicU64::new(0),
            gave_up: AtomicU64::new(0),
        }
    }

    /// Waits until a mark is set, or gives up.
    pub(crate) fn awaits(&self, mark: &AtomicU64) {
        for _ in 0..TURNS {
            if is_set(mark) || self.gave_up() {
                return;
            }
        }
        self.gave_up.store(1, Ordering::SeqCst);
    }

    /// Waits until the seat that is watched sleeps, as far as that can be seen.
    pub(crate) fn awaits_sleep(&self) {
        self.awaits(&self.asleep);
        self.rests();
    }

    /// Lets others go on.
    pub(crate) fn rests(&self) {
        for _ in 0..REST {
            let _ = is_set(&self.gave_up);
        }
    }

    /// Whether one of them gave up.
    pub(crate) fn gave_up(&self) -> bool {
        self.gave_up.load(Ordering::SeqCst) == 1
    }
}

/// A turn of a wait: whether a mark is set, which is looked at for a while, and then once more after others went on.
fn is_set(mark: &AtomicU64) -> bool {
    for _ in 0..LOOKS {
        if mark.load(Ordering::SeqCst) == 1 {
            return true;
        }
    }
    yield_now();
    mark.load(Ordering::SeqCst) == 1
}

/// A gate that may know marks.
pub(crate) trait Stage: Gate {
    /// What hooks, gates and clients tell each other, where they do.
    fn marks(&self) -> Option<&Marks>;
}

impl Stage for FreeGate {
    fn marks(&self) -> Option<&Marks> {
        None
    }
}

/// A gate that marks when a seat comes to a section.
#[derive(Drop)]
pub(crate) struct Comes {
    pub(crate) marks: Arc<Marks, Global>,
    pub(crate) seat: u32,
    pub(crate) section: u64,
}

impl Gate for Comes {
    fn pass(&self, seat: u32, section: u64, _last: bool) {
        if seat == self.seat && section == self.section {
            self.marks.asleep.store(1, Ordering::SeqCst);
        }
    }
}

impl Stage for Comes {
    fn marks(&self) -> Option<&Marks> {
        Some(&self.marks)
    }
}

/// What a hook does in its calls on one processor.
#[derive(Clone, Copy, Debug, PartialEq, Eq)]
pub(crate) enum How {
    /// Nothing more.
    Plain,
    /// It waits for the answer.
    UntilAnswered,
    /// It is the first, and waits for the answer.
    FirstUntilAnswered,
    /// It waits for the first, and gives others time.
    AfterFirst,
    /// It is the second, and waits until the seat that is watched sleeps.
    SecondUntilAsleep,
    /// So it does after the first.
    AfterFirstUntilAsleep,
}

/// A hook that holds its calls on one processor.
#[derive(Drop)]
pub(crate) struct Holds {
    script: ScriptHook,
    marks: Arc<Marks, Global>,
    cpu: u32,
    how: How,
}

impl Holds {
    /// A hook that does this on a processor.
    pub(crate) fn on(marks: &Arc<Marks, Global>, cpu: u32, how: How) -> Result<Holds, Fail> {
        Ok(Holds {
            script: ScriptHook::new(),
            marks: Arc::try_clone(marks)?,
            cpu,
            how,
        })
    }

    /// Waits as it is told to.
    fn holds(&self) {
        let marks = &self.marks;
        match self.how {
            How::Plain => {}
            How::UntilAnswered => marks.awaits(&marks.answered),
            How::FirstUntilAnswered => {
                marks.first.store(1, Ordering::SeqCst);
                marks.awaits(&marks.answered);
            }
            How::AfterFirst => {
                marks.awaits(&marks.first);
                marks.rests();
            }
            How::SecondUntilAsleep => {
                marks.second.store(1, Ordering::SeqCst);
                marks.awaits_sleep();
            }
            How::AfterFirstUntilAsleep => {
                marks.awaits(&marks.first);
                marks.second.store(1, Ordering::SeqCst);
                marks.awaits_sleep();
            }
        }
    }
}

impl Hook for Holds {
    ghost counts = { λ h. h.script };

    fn load(&mut self, rules: HookPlan) {
        self.script.load(rules);
    }

    fn call(&mut self, cpu: u32, inst: u32, dir: Dir) -> u32 {
        if cpu == self.cpu {
            self.holds();
        }
        self.script.call(cpu, inst, dir)
    }

    fn made(&self) -> u64 {
        self.script.made()
    }

    fn faults(&self) -> u64 {
        self.script.faults()
    }
}
