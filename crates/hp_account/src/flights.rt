//! Walks in flight.

ghost use Rattle.std.specs.Prelude.{◌≡◌, ◌≢◌, ◌<◌, ◌≤◌, true, false, is_some, IfOk, IfSome, IfNone, IsSome, length};
ghost use Rattle.hp_states.specs.CpuSets.{IsLowestFrom, HasNoneFrom};
ghost use Rattle.hp_states.specs.declared.limits.TheConstants.{MAX_CPU_SET};
ghost use Rattle.hp_walk.specs.After.{IsWithin};
ghost use Rattle.hp_walk.specs.Cursor.{to_of};
ghost use Rattle.hp_walk.specs.Keys.{keys_by};
ghost use Rattle.hp_account.specs.Places.{at_place};
ghost use Rattle.hp_account.specs.FlightChanges.{IsStill, WalkBegan, IsGoing, CanGoOn, IfWalks, WalkWentOn, WalkEnded};
ghost use Rattle.hp_account.specs.BatchTurns.{asks_own, asks_entry, FliesWithin, WalksWithin};
ghost use Rattle.hp_account.specs.FlightNext.{IsNextOfFlight, IsNextOfFlights, FlightAsks, FlightsAsk};

use crate::under_way::{Ending, Entry, NextStep, made_by_in_walk};
use hp_event::How;
use hp_hook::Hook;
use hp_states::{CpuSet, NoMemory, ONLINE, is_ap};
use hp_table::Table;
use hp_walk::{Step, Walk};
use std::alloc::Global;

/// A walk in flight: whose it is, where it stands, and how much of the room that it took is left.
#[derive(Clone, Copy)]
pub struct Flight {
    /// The seat whose operation walks.
    pub seat: u32,
    /// Where the walk stands.
    pub walk: Walk,
    /// How many events are still promised to it.
    pub left: u32,
}

impl Flight {
    /// What comes next in the walk: an entry with the seat that makes it and what it is made by, or
    /// the walk's end.
    ///
    /// The keys of the table are those at the walk's begin. `armed` is the state at which its
    /// processor is armed, and `thread` the seat of its processor's thread, if it is in: it makes the
    /// entries of AP states, and the seat whose operation walks all others. Takes no memory, and a
    /// time that doesn't grow with the table. After `cpuhp_invoke_callback` and
    /// `cpuhp_invoke_ap_callback` of `kernel/cpu.c`; that entries in STARTING are the thread's, and
    /// those of a down in PREPARE the operation's seat's, is this project's own.
    #[inline(always)]
    pub fn next<H: Hook>(
        &self,
        table: &Table<H>,
        armed: Option<u32>,
        thread: Option<u32>,
    ) -> NextStep
        requires { IsWithin (keys_by table.now) self.now.walk }
        ensures { IsNextOfFlight self.now table.now armed thread result }
    {
        let cpu = self.walk.cpu();
        match self.walk.next(table) {
            Step::Call {
                key,
                dir,
                place,
                first,
            } => {
                let made_by = made_by_in_walk(table, armed, key, dir, place, first);
                let seat = if is_ap(key.state) {
                    thread
                } else {
                    Some(self.seat)
                };
                let entry = seat.map(|seat| Entry {
                    seat,
                    cpu,
                    key,
                    dir,
                    place,
                    made_by,
                });
                NextStep::Entry {
                    client: self.seat,
                    cpu,
                    entry,
                }
            }
            Step::Ended(answer) => NextStep::End(Ending::Walk {
                seat: self.seat,
                cpu,
                answer,
            }),
        }
    }
}

impl Flight {
    /// The state whose hook the entry calls that comes next in the walk, if it is an entry and calls one.
    ///
    /// The keys of the table are those at the walk's begin, and `armed` is the state at which its processor is
    /// armed. Takes no memory, and a time that doesn't grow with the table.
    pub fn hook_asked<H: Hook>(&self, table: &Table<H>, armed: Option<u32>) -> Option<u32>
        requires { IsWithin (keys_by table.now) self.now.walk }
        ensures { FlightAsks self.now table.now armed result }
    {
        match self.walk.next(table) {
            Step::Call {
                key,
                dir,
                place,
                first,
            } => made_by_in_walk(table, armed, key, dir, place, first).hook_at(key.state),
            Step::Ended(_) => None,
        }
    }
}

/// The walks in flight: one at most for each processor.
#[derive(Drop)]
pub struct Flights {
    /// The walk of each possible processor, if it walks.
    pub by_cpu: Vec<Option<Flight>>,
    /// The processors that walk: but in an upmany one at most does.
    pub walking: CpuSet,
}

impl Flights {
    /// The walks of a machine with so many possible processors, before any began.
    ///
    /// Takes memory for a place for each processor; where there is none: `NoMemory`.
    pub fn new(alloc: Global, cpus: u32) -> Result<Flights, NoMemory>
        ensures { IfOk result (λ flights. IsStill cpus flights) }
    {
        let mut by_cpu = Vec::with_capacity(alloc, cpus as usize)?;
        for _ in 0..cpus {
            by_cpu.push(None)?;
        }
        Ok(Flights {
            by_cpu,
            walking: CpuSet::none(),
        })
    }

    /// Begins the walk of a processor, for an operation of a seat, which took room for so many events.
    ///
    /// The states are at most 200, and different, and there is room for the begin itself. What is
    /// registered in the table now is what the walk crosses. Takes no memory. After `_cpu_up` and
    /// `_cpu_down` of `kernel/cpu.c`, once `cpus_write_lock` is taken.
    pub fn begin<H: Hook>(
        &mut self,
        table: &Table<H>,
        seat: u32,
        cpu: u32,
        from: u32,
        to: u32,
        need: u32,
    )
        requires cpu { cpu < length self.old.by_cpu.items }
        requires few { cpu < MAX_CPU_SET }
        requires states { (from ≤ ONLINE) × (to ≤ ONLINE) × (from ≢ to) }
        requires need { 0 < need }
        ensures { WalkBegan (keys_by table.now) seat cpu from to need self.old self.new }
    {
        self.by_cpu[cpu as usize] = Some(Flight {
            seat,
            walk: Walk::begin(table, cpu, from, to),
            left: need - 1,
        });
        self.walking.put(cpu);
    }

    /// Goes on past the entry that the walk of a processor asks for: `how` says how it was made.
    ///
    /// The processor walks, its walk asks for an entry that can be made so, and it has room for it.
    /// The keys of the table are those at `begin`. Takes no memory. After
    /// `cpuhp_invoke_callback_range` of `kernel/cpu.c`.
    pub fn entry<H: Hook>(&mut self, table: &Table<H>, cpu: u32, how: How)
        requires cpu { cpu < length self.old.by_cpu.items }
        requires walks { IfWalks (at_place self.old.by_cpu.items cpu) (CanGoOn (keys_by table.now) how) }
        ensures { WalkWentOn (keys_by table.now) cpu how self.old self.new }
    {
        match &mut self.by_cpu[cpu as usize] {
            Some(flight) => {
                flight.walk.took(table, how);
                flight.left -= 1;
            }
            None => unreachable!(),
        }
    }

    /// Ends the walk of a processor, and answers how many events of its room are left once it has
    /// ended.
    ///
    /// The processor walks, and its walk has room for the end. Takes no memory. After
    /// `cpus_write_unlock` of `kernel/cpu.c`, which ends it there.
    pub fn end(&mut self, cpu: u32) -> u32
        requires cpu { cpu < length self.old.by_cpu.items }
        requires few { cpu < MAX_CPU_SET }
        requires walks { IfWalks (at_place self.old.by_cpu.items cpu) (λ flight. 0 < flight.left) }
        ensures { WalkEnded cpu result self.old self.new }
    {
        match self.by_cpu[cpu as usize].take() {
            Some(flight) => {
                self.walking.take(cpu);
                flight.left - 1
            }
            None => unreachable!(),
        }
    }

    /// The state to which the walk of a processor was begun. The processor walks. Takes no memory.
    pub fn to(&self, cpu: u32) -> u32
        requires cpu { cpu < length self.now.by_cpu.items }
        requires walks { IsSome (at_place self.now.by_cpu.items cpu) }
        ensures { IfWalks (at_place self.now.by_cpu.items cpu) (λ flight. to_of flight.walk ≡ result) }
    {
        let flight = &self.by_cpu[cpu as usize];
        match flight {
            Some(flight) => flight.walk.to(),
            None => unreachable!(),
        }
    }

    /// The lowest processor from one on that walks, if one does. Takes no memory. After `cpumask_next` of
    /// `linux/cpumask.h`.
    pub fn walking_from(&self, from: u32) -> Option<u32>
        ensures some { IfSome result (λ cpu. IsLowestFrom self.now.walking from cpu) }
        ensures none { IfNone result (HasNoneFrom self.now.walking from) }
    {
        self.walking.first_from(from)
    }

    /// The walk of a processor, if it walks. There is no condition; a number that is no processor doesn't. Takes no
    /// memory.
    pub fn flight(&self, cpu: u32) -> Option<Flight>
        ensures { result ≡ at_place self.now.by_cpu.items cpu }
    {
        self.by_cpu.get(cpu as usize).copied().flatten()
    }

    /// Whether a processor walks. There is no condition; a number that is no processor doesn't. Takes no memory.
    pub fn walks(&self, cpu: u32) -> bool
        ensures { result ≡ is_some (at_place self.now.by_cpu.items cpu) }
    {
        matches!(self.by_cpu.get(cpu as usize), Some(Some(_)))
    }

    /// Whether a processor walks whose next event is that of its operation's seat: the end of its walk, or an
    /// entry at a state that no thread serves.
    ///
    /// Takes no memory, and a time that doesn't grow with the table.
    #[inline(always)]
    pub(crate) fn is_own<H: Hook>(&self, table: &Table<H>, cpu: u32) -> bool
        requires { FliesWithin (keys_by table.now) (at_place self.now.by_cpu.items cpu) }
        ensures { result ≡ asks_own (keys_by table.now) (at_place self.now.by_cpu.items cpu) }
    {
        match self.by_cpu.get(cpu as usize) {
            Some(Some(flight)) => match flight.walk.next(table) {
                Step::Call { key, .. } => !is_ap(key.state),
                Step::Ended(_) => true,
            },
            _ => false,
        }
    }

    /// Whether a processor walks whose next event is an entry. Takes no memory, and a time that doesn't grow
    /// with the table.
    pub fn has_entry<H: Hook>(&self, table: &Table<H>, cpu: u32) -> bool
        requires { FliesWithin (keys_by table.now) (at_place self.now.by_cpu.items cpu) }
        ensures { result ≡ asks_entry (keys_by table.now) (at_place self.now.by_cpu.items cpu) }
    {
        match self.by_cpu.get(cpu as usize) {
            Some(Some(flight)) => matches!(flight.walk.next(table), Step::Call { .. }),
            _ => false,
        }
    }

    /// What comes next in the walk of a processor: as `Flight::next`.
    ///
    /// The processor walks. Takes no memory, and a time that doesn't grow with the table.
    #[inline(always)]
    pub fn next<H: Hook>(
        &self,
        table: &Table<H>,
        cpu: u32,
        armed: Option<u32>,
        thread: Option<u32>,
    ) -> NextStep
        requires cpu { cpu < length self.now.by_cpu.items }
        requires walks { WalksWithin (keys_by table.now) (at_place self.now.by_cpu.items cpu) }
        ensures { IsNextOfFlights self.now table.now cpu armed thread result }
    {
        match &self.by_cpu[cpu as usize] {
            Some(flight) => flight.next(table, armed, thread),
            None => unreachable!(),
        }
    }

    /// The state whose hook the entry calls that comes next in the walk of a processor: as
    /// `Flight::hook_asked`.
    ///
    /// The processor walks. Takes no memory, and a time that doesn't grow with the table.
    pub fn hook_asked<H: Hook>(&self, table: &Table<H>, cpu: u32, armed: Option<u32>) -> Option<u32>
        requires cpu { cpu < length self.now.by_cpu.items }
        requires walks { WalksWithin (keys_by table.now) (at_place self.now.by_cpu.items cpu) }
        ensures { FlightsAsk self.now table.now cpu armed result }
    {
        match &self.by_cpu[cpu as usize] {
            Some(flight) => flight.hook_asked(table, armed),
            None => unreachable!(),
        }
    }
}
