//! Gates and a hook that hold one thread until another has come, and a gate that only keeps account.

use hp_hook::{Hook, ScriptHook};
use hp_live::Gate;
use hp_states::{Dir, HookPlan};
use std::alloc::Global;
use std::sync::Arc;
use std::sync::atomic::{AtomicU64, Ordering};

/// After so many turns of its own loop a hold gives up.
const TURNS: u64 = 1_000_000_000;

/// Holds until the flag is set, or gives up, which is counted.
fn hold(flag: &AtomicU64, given_up: &AtomicU64) {
    for _ in 0..TURNS {
        if flag.load(Ordering::SeqCst) != 0 {
            return;
        }
    }
    given_up.fetch_add(1, Ordering::SeqCst);
}

/// A gate that holds a seat before its first section until another seat has come: to its first section, or to its
/// leave.
#[derive(Drop)]
pub struct HoldingGate {
    held: u32,
    other: u32,
    to_leave: bool,
    come: AtomicU64,
    held_once: AtomicU64,
    given_up: AtomicU64,
}

impl HoldingGate {
    /// Holds a seat until the other leaves, or until it begins.
    pub fn new(held: u32, other: u32, to_leave: bool) -> HoldingGate {
        HoldingGate {
            held,
            other,
            to_leave,
            come: AtomicU64::new(0),
            held_once: AtomicU64::new(0),
            given_up: AtomicU64::new(0),
        }
    }

    /// Whether the seat came to its first section, and was let go because the other had come.
    pub fn has_held(&self) -> bool {
        let held = self.held_once.load(Ordering::SeqCst) == 1;
        let come = self.come.load(Ordering::SeqCst) == 1;
        held && come && self.given_up.load(Ordering::SeqCst) == 0
    }
}

impl Gate for HoldingGate {
    fn pass(&self, seat: u32, section: u64, last: bool) {
        if seat == self.other && (last || !self.to_leave) {
            self.come.store(1, Ordering::SeqCst);
        }
        if seat == self.held && section == 0 {
            hold(&self.come, &self.given_up);
            self.held_once.fetch_add(1, Ordering::SeqCst);
        }
    }
}

/// What a gate and a hook tell each other.
#[derive(Drop)]
pub struct Signals {
    begun: AtomicU64,
    left: AtomicU64,
    ended: AtomicU64,
    given_up: AtomicU64,
}

impl Signals {
    /// Nothing is told yet.
    pub fn new() -> Signals {
        Signals {
            begun: AtomicU64::new(0),
            left: AtomicU64::new(0),
            ended: AtomicU64::new(0),
            given_up: AtomicU64::new(0),
        }
    }

    /// Whether a call of the hook began and ended once on processor 1, the gate's seat left meanwhile, and no hold gave up.
    pub fn has_left_meanwhile(&self) -> bool {
        let begun = self.begun.load(Ordering::SeqCst) == 1;
        let left = self.left.load(Ordering::SeqCst) == 1;
        let ended = self.ended.load(Ordering::SeqCst) == 1;
        begun && left && ended && self.given_up.load(Ordering::SeqCst) == 0
    }
}

/// A gate that holds a seat before its first section until the hook's call has begun, and tells when the seat leaves.
#[derive(Drop)]
pub struct CallGate {
    pub seat: u32,
    pub signals: Arc<Signals, Global>,
}

impl Gate for CallGate {
    fn pass(&self, seat: u32, section: u64, last: bool) {
        if seat != self.seat {
            return;
        }
        if last {
            self.signals.left.store(1, Ordering::SeqCst);
        }
        if section == 0 {
            hold(&self.signals.begun, &self.signals.given_up);
        }
    }
}

/// A hook that holds its calls on processor 1 until the gate's seat leaves, and answers as a script's hook does.
#[derive(Drop)]
pub struct HoldingHook {
    pub hook: ScriptHook,
    pub signals: Arc<Signals, Global>,
}

impl Hook for HoldingHook {
    ghost counts = { λ h. h.hook };

    fn load(&mut self, rules: HookPlan) {
        self.hook.load(rules);
    }

    fn call(&mut self, cpu: u32, inst: u32, dir: Dir) -> u32 {
        if cpu == 1 {
            self.signals.begun.fetch_add(1, Ordering::SeqCst);
            hold(&self.signals.left, &self.signals.given_up);
            self.signals.ended.fetch_add(1, Ordering::SeqCst);
        }
        self.hook.call(cpu, inst, dir)
    }

    fn made(&self) -> u64 {
        self.hook.made()
    }

    fn faults(&self) -> u64 {
        self.hook.faults()
    }
}

/// What a seat passed.
#[derive(Drop)]
struct Passes {
    count: AtomicU64,
    /// Whether the last pass was said to be one.
    last: AtomicU64,
    /// How many passes had a number out of their order, or weren't the last ones behind one that was.
    wrong: AtomicU64,
}

impl Passes {
    fn none() -> Passes {
        Passes {
            count: AtomicU64::new(0),
            last: AtomicU64::new(0),
            wrong: AtomicU64::new(0),
        }
    }

    /// One pass more, of the seat's own thread or of who joined that.
    fn add(&self, section: u64, last: bool) {
        let before = self.count.fetch_add(1, Ordering::SeqCst);
        let was_last = self.last.swap(if last { 1 } else { 0 }, Ordering::SeqCst) == 1;
        if before != section || (was_last && !last) {
            self.wrong.fetch_add(1, Ordering::SeqCst);
        }
    }
}

/// A gate that keeps account of what three seats pass, and holds nobody.
#[derive(Drop)]
pub struct CountingGate {
    seats: [Passes; 3],
}

impl CountingGate {
    /// Nobody has passed yet.
    pub fn new() -> CountingGate {
        CountingGate {
            seats: [Passes::none(), Passes::none(), Passes::none()],
        }
    }

    /// How many sections a seat took, if they were numbered 0, 1, 2, and so on, and it left in the last of them and said so
    /// in none before its leave's.
    pub fn sections_of(&self, seat: u32) -> Option<u64> {
        let passes = self.seats.get(seat as usize)?;
        let left = passes.last.load(Ordering::SeqCst) == 1;
        if passes.wrong.load(Ordering::SeqCst) != 0 || !left {
            return None;
        }
        Some(passes.count.load(Ordering::SeqCst))
    }
}

impl Gate for CountingGate {
    fn pass(&self, seat: u32, section: u64, last: bool) {
        if let Some(passes) = self.seats.get(seat as usize) {
            passes.add(section, last);
        }
    }
}
