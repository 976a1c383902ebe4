//! Counters with a part for each processor.

ghost use Rattle.std.specs.Prelude.{◌≡◌, ◌↔◌, ◌-◌, ◌*◌, ◌^◌, ◌<◌, ◌≤◌, pos, ◌+ℤ◌, ◌-ℤ◌, true, false, [], IsErr, OnOk, OnErr, IfSome, IfNone};
ghost use Rattle.hp_states.specs.declared.limits.TheConstants.{MAX_CPU_SET as MAX_CPU_SET_OF};
ghost use Rattle.hp_pcount.specs.Tally.{IsTally, part, is_open, total, none_added};
ghost use Rattle.hp_pcount.specs.Changes.{is_followed, moved, followed, raised, batched, added};
ghost use Rattle.hp_pcount.specs.Stands.{IsWithin, StandsAt, FollowsLawful, Rises};
ghost use Rattle.hp_pcount.specs.Places.{HasPart, IsFirstOpen, HasNoneOpen};

use crate::limits::{LAST_FOLLOWED, MAX_BATCH};
use hp_event::{Event, How};
use hp_states::{CpuSet, Dir, MAX_CPU_SET};
use std::marker::Model;

/// How many parts there are.
const PARTS: usize = MAX_CPU_SET as usize;

/// Nothing was added, since the processor isn't open.
#[derive(Clone, Copy, Debug, PartialEq, Eq)]
pub struct Offline;

/// Counters with a base and a part for each processor, which follow a state.
///
/// Contracts see them as a `Tally`. A processor is open while the state is in force on it. After
/// `struct percpu_counter` of `linux/percpu_counter.h`; that it follows a state's entries is this
/// project's own.
#[derive(Drop)]
pub struct Counters {
    state: u32,
    batch: u32,
    base: i128,
    parts: [i64; PARTS],
    opened: CpuSet,
    adds: u64,
}

impl Model for Counters {
    ghost use Rattle.hp_pcount.specs.Tally.{Tally, IsTally};

    ghost Value = { Tally };

    ghost use Rattle.hp_pcount.specs.Inside.{tally};

    ghost view = { tally };

    ghost invariant = { λ c. IsTally (tally c) };
}

impl Counters {
    /// Counters that follow the callbacks of a state without instances: nothing was added, and no
    /// processor is open.
    ///
    /// The state is 1 to `LAST_FOLLOWED`. A part holds less than the batch, which is 1 to `MAX_BATCH`.
    /// Takes no memory. After `percpu_counter_init` of `linux/percpu_counter.h`.
    pub fn new(state: u32, batch: u32) -> Counters
        requires state { (1 ≤ state) × (state ≤ LAST_FOLLOWED) }
        requires batch { (1 ≤ batch) × (batch ≤ MAX_BATCH) }
        ensures none { result ≡ none_added state batch }
        ensures stands { StandsAt [] (pos 0) result }
    {
        Counters {
            state,
            batch,
            base: 0,
            parts: [0; PARTS],
            opened: CpuSet::none(),
            adds: 0,
        }
    }

    /// Follows one event: a done upward entry of the state opens its processor; a done downward entry
    /// adds the processor's part to the base, sets the part to 0 and closes the processor; every other
    /// event changes nothing.
    ///
    /// The processor of an entry is at most 255. The total stays. Takes no memory, and a constant time.
    /// After `percpu_counter_cpu_dead` of `lib/percpu_counter.c`.
    pub fn follow(&mut self, event: &Event)
        requires { HasPart event.now }
        ensures exactly { self.new ≡ followed event.now self.old }
        ensures total { total self.new ≡ total self.old }
        ensures lawful { FollowsLawful self.old event.now self.new }
    {
        if let Event::Call {
            cpu,
            state,
            inst,
            dir,
            how,
            ..
        } = *event
        {
            if self.is_followed(state, inst, how) {
                match dir {
                    Dir::Up => self.open(cpu),
                    Dir::Down => self.close(cpu),
                }
            }
        }
    }

    /// Whether an entry is a done one of the callback that is followed.
    fn is_followed(&self, state: u32, inst: u32, how: How) -> bool
        ensures exactly { result ≡ is_followed self.now state inst how }
        ensures all { IsTally self.now }
    {
        state == self.state && inst == 0 && how.is_done()
    }

    /// Opens a processor.
    fn open(&mut self, cpu: u32)
        requires { cpu < MAX_CPU_SET_OF }
        ensures { self.new ≡ moved Dir.Up cpu self.old }
    {
        self.opened.put(cpu);
    }

    /// Adds a processor's part to the base, and closes the processor.
    fn close(&mut self, cpu: u32)
        requires { cpu < MAX_CPU_SET_OF }
        ensures { self.new ≡ moved Dir.Down cpu self.old }
    {
        self.base += i128::from(self.parts[cpu as usize]);
        self.parts[cpu as usize] = 0;
        self.opened.take(cpu);
    }

    /// Adds `by` on a processor: its part rises, and where that then is at least the batch, or at most
    /// minus the batch, it is added to the base and set to 0. The total rises by as much.
    ///
    /// The processor is at most 255, and fewer than 2^62 additions were accepted before. `Offline`
    /// exactly where the processor isn't open; then nothing changes. Takes no memory, and a constant
    /// time. After `percpu_counter_add_batch` of `lib/percpu_counter.c`.
    pub fn add(&mut self, cpu: u32, by: i32) -> Result<(), Offline>
        requires cpu { cpu < MAX_CPU_SET_OF }
        requires few { self.old.adds < 2 ^ 62 }
        ensures offline { IsErr result ↔ (is_open self.old cpu ≡ false) }
        ensures exactly { self.new ≡ added cpu by self.old }
        ensures total { OnOk result (total self.new ≡ total self.old +ℤ by) }
        ensures rises { OnOk result (Rises self.old by self.new) }
        ensures stays { OnErr result (self.new ≡ self.old) }
    {
        if !self.opened.has(cpu) {
            return Err(Offline);
        }
        self.raise(cpu, by);
        Ok(())
    }

    /// Raises the part of an open processor, and adds it to the base where it is then full.
    fn raise(&mut self, cpu: u32, by: i32)
        requires cpu { cpu < MAX_CPU_SET_OF }
        requires few { self.old.adds < 2 ^ 62 }
        requires opened { is_open self.old cpu ≡ true }
        ensures exactly { self.new ≡ batched cpu (raised cpu by self.old) }
        ensures total { total self.new ≡ total self.old +ℤ by }
        ensures rises { Rises self.old by self.new }
    {
        self.adds += 1;
        let part = self.parts[cpu as usize] + i64::from(by);
        if part.unsigned_abs() >= u64::from(self.batch) {
            self.base += i128::from(part);
            self.parts[cpu as usize] = 0;
        } else {
            self.parts[cpu as usize] = part;
        }
    }

    /// The sum of all additions that were accepted: the base and all parts.
    ///
    /// It is within 256 × (batch - 1) of the base. Takes no memory, and a step for each part. After
    /// `percpu_counter_sum` of `lib/percpu_counter.c`.
    pub fn total(&self) -> i128
        ensures exactly { result ≡ total self.now }
        ensures near { IsWithin (MAX_CPU_SET_OF * (self.now.batch - 1)) (result -ℤ self.now.base) }
    {
        let mut total = self.base;
        for part in &self.parts {
            total += i128::from(*part);
        }
        total
    }

    /// What was folded from the parts.
    ///
    /// Takes no memory. After `percpu_counter_read` of `linux/percpu_counter.h`.
    pub fn base(&self) -> i128
        ensures { result ≡ self.now.base }
    {
        self.base
    }

    /// What was added on a processor and isn't in the base: between 1 - batch and batch - 1, and 0 where the
    /// processor isn't open.
    ///
    /// Any number may be asked for: one above 255 is no processor's, and its part is 0. Takes no memory. This
    /// project's own.
    pub fn part(&self, cpu: u32) -> i64
        ensures exactly { result ≡ part self.now cpu }
        ensures within { IsWithin (self.now.batch - 1) result }
        ensures closed { is_open self.now cpu ≡ false → result ≡ pos 0 }
    {
        if cpu < MAX_CPU_SET {
            self.parts[cpu as usize]
        } else {
            0
        }
    }

    /// Whether a processor is open.
    ///
    /// Any number may be asked for: one above 255 is no processor's, and isn't open. Takes no memory. This
    /// project's own.
    pub fn is_open(&self, cpu: u32) -> bool
        ensures { result ≡ is_open self.now cpu }
    {
        cpu < MAX_CPU_SET && self.opened.has(cpu)
    }

    /// The lowest open processor whose number is at least `from`. None where there is none.
    ///
    /// `from` may be any number. Takes no memory, and a constant time. This project's own.
    pub fn first_open(&self, from: u32) -> Option<u32>
        ensures some { IfSome result (λ cpu. IsFirstOpen self.now from cpu) }
        ensures none { IfNone result (HasNoneOpen self.now from) }
    {
        self.opened.first_from(from)
    }

    /// How many additions were accepted, at most 2^62.
    ///
    /// Takes no memory. This project's own.
    pub fn adds(&self) -> u64
        ensures exactly { result ≡ self.now.adds }
        ensures few { result ≤ 2 ^ 62 }
    {
        self.adds
    }
}
