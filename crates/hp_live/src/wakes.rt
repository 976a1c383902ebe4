//! Who sleeps where, and is woken.

use crate::freed::{Freed, freed_by, waits_for_hook};
use crate::places::Places;
use crate::step::Step;
use crossbeam_utils::sync::{EventCount, Key};
use hp_board::Board;
use hp_event::Op;
use hp_hook::Hook;
use hp_states::NoMemory;
use std::alloc::Global;
use std::sync::atomic::{AtomicU64, Ordering};

/// Bits of those who are to be woken: clients, clients that write `fail`, the seats of operations in flight, threads at
/// the marked places, and all threads.
const CLIENTS: u64 = 1;

const ARMING: u64 = 2;

const IN_FLIGHT: u64 = 4;

const THREADS: u64 = 8;

const ALL: u64 = 16;

/// Where seats sleep that can make nothing, and who of them is to be woken.
///
/// A seat sleeps at the place of its kind: of clients with nothing in flight, of those of them that write `fail`, of the
/// operations in flight, or of the thread. It announces itself there before its section. Under the lock each event marks
/// whom it frees (`freed_by`, whose contract says that nobody is left out), and those who were noted since the event before
/// it, which wait for a hook (`waits_for_hook`); whoever made the event wakes them after the lock. So nobody sleeps who
/// could go on, if an event count wakes all who announced themselves before it was notified: that is left to
/// `crossbeam_utils`. Few are woken in vain, since each thread has a place of its own, unless seats came in otherwise than
/// in the order of the processors.
#[derive(Drop)]
pub(crate) struct Wakes {
    clients: EventCount,
    arming: EventCount,
    in_flight: EventCount,
    /// A place for each possible processor: that of a seat is its number modulo the places.
    threads: Vec<EventCount>,
    places: u32,
    /// How many events the journal had, and how many clients were in, when marks were set last.
    length: AtomicU64,
    clients_in: AtomicU64,
    /// The bits of those who are marked, and not yet woken.
    marked: AtomicU64,
    /// The places of the threads that are marked.
    due: Places,
    /// The bits of those who were noted since the last event, and the places of the threads among them.
    noted: AtomicU64,
    waiting: Places,
}

impl Wakes {
    /// Nobody sleeps, and nobody is marked. Takes memory for a place for each of so many processors.
    pub(crate) fn new(alloc: Global, places: u32) -> Result<Wakes, NoMemory> {
        let mut threads = Vec::with_capacity(alloc, places as usize)?;
        for _ in 0..places {
            threads.push(EventCount::new())?;
        }
        Ok(Wakes {
            clients: EventCount::new(),
            arming: EventCount::new(),
            in_flight: EventCount::new(),
            threads,
            places,
            length: AtomicU64::new(0),
            clients_in: AtomicU64::new(0),
            marked: AtomicU64::new(0),
            due: Places::none(),
            noted: AtomicU64::new(0),
            waiting: Places::none(),
        })
    }

    /// A client announces that it may sleep, before it looks for something to do: whether its operation is in flight, and
    /// which it is.
    pub(crate) fn client(&self, busy: bool, op: &Op) -> Key<'_> {
        if busy {
            return self.in_flight.prepare_wait();
        }
        match op {
            Op::Arm(..) => self.arming.prepare_wait(),
            _ => self.clients.prepare_wait(),
        }
    }

    /// So does the thread of a processor, of this seat.
    pub(crate) fn thread(&self, seat: u32) -> Key<'_> {
        match self.threads.get(self.place(seat) as usize) {
            Some(place) => place.prepare_wait(),
            None => self.clients.prepare_wait(),
        }
    }

    /// Notes a client, of this seat, whose step found that it waits for a hook. The caller holds the lock.
    pub(crate) fn note_client<H: Hook>(
        &self,
        board: &Board<H>,
        seat: u32,
        step: &Result<Step<H>, NoMemory>,
    ) {
        if let Ok(Step::Turned(turn)) = step {
            if waits_for_hook(board, seat, turn) {
                self.noted.fetch_or(ARMING, Ordering::SeqCst);
            }
        }
    }

    /// Notes a thread likewise.
    pub(crate) fn note_thread<H: Hook>(&self, board: &Board<H>, seat: u32, step: &Step<H>) {
        if let Step::Turned(turn) = step {
            if waits_for_hook(board, seat, turn) {
                self.waiting.put(self.place(seat));
                self.noted.fetch_or(THREADS, Ordering::SeqCst);
            }
        }
    }

    /// Marks whom the last event of a board frees, where that is a new one. The caller holds the lock.
    pub(crate) fn mark<H: Hook>(&self, board: &Board<H>) {
        let length = u64::from(board.journal().len());
        if self.length.swap(length, Ordering::SeqCst) != length {
            let clients = u64::from(board.clients());
            let had_client = self.clients_in.swap(clients, Ordering::SeqCst) != 0;
            if let Some(event) = board.journal().events().last() {
                self.mark_freed(freed_by(board, event, had_client));
            }
        }
    }

    /// Wakes who is marked: to be called after each section that made an event, by whoever made it.
    pub(crate) fn wake(&self) {
        if self.marked.load(Ordering::SeqCst) == 0 {
            return;
        }
        let marked = self.marked.swap(0, Ordering::SeqCst);
        if marked & CLIENTS != 0 {
            self.clients.notify_all();
        }
        if marked & ARMING != 0 {
            self.arming.notify_all();
        }
        if marked & IN_FLIGHT != 0 {
            self.in_flight.notify_all();
        }
        if marked & ALL != 0 {
            for place in self.threads.as_slice() {
                place.notify_all();
            }
        } else if marked & THREADS != 0 {
            self.wake_due();
        }
    }

    /// The place of a seat.
    fn place(&self, seat: u32) -> u32 {
        seat % self.places.max(1)
    }

    /// Marks whom an event frees, and who is noted.
    fn mark_freed(&self, freed: Freed) {
        let mut marked = self.noted.swap(0, Ordering::SeqCst);
        if marked & THREADS != 0 {
            self.due.add(self.waiting.take());
        }
        if let Some(seat) = freed.thread {
            self.due.put(self.place(seat));
            marked = marked | THREADS;
        }
        if freed.first {
            marked = marked | CLIENTS | ARMING;
        }
        if freed.in_flight {
            marked = marked | IN_FLIGHT;
        }
        if freed.threads {
            marked = marked | ALL;
        }
        if marked != 0 {
            self.marked.fetch_or(marked, Ordering::SeqCst);
        }
    }

    /// Wakes the threads at the marked places.
    fn wake_due(&self) {
        let due = self.due.take();
        let mut from = 0;
        for _ in 0..self.places {
            let Some(at) = due.first_from(from) else {
                return;
            };
            if let Some(place) = self.threads.get(at as usize) {
                place.notify_all();
            }
            from = at.saturating_add(1);
        }
    }
}
