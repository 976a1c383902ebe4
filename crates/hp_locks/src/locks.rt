//! Who holds which lock.

ghost use Rattle.std.specs.Prelude.{◌≡◌, [], ◌<◌, None, Some, true, false, length, IfErr, IfOk, OnOk, OnErr};
ghost use Rattle.hp_locks.specs.Holders.{reads, readers, with_map, with_writer, with_registrar, with_reader, with_seat};
ghost use Rattle.hp_locks.specs.Takes.{TakesMap, TakesWrite, TakesRegistration, BeginsToRead};
ghost use Rattle.hp_locks.specs.Waits.{wait_for_map, wait_for_writer, wait_for_registration, wait_to_write, wait_to_register};

use crate::why::Why;
use hp_states::NoMemory;
use std::alloc::Global;
use std::marker::Model;

/// The most seats that locks can tell apart: each has a number.
pub const MAX_LOCKED: u32 = u32::MAX;

/// The three locks: who holds the map lock, the write side and the registration, and who reads.
///
/// Contracts see these four (`Holders`). Seats are the numbers that `admit` has answered, from 0 on;
/// a call that takes a seat has it as a condition that it is one of these.
#[derive(Debug, Drop)]
pub struct Locks {
    map: Option<u32>,
    writer: Option<u32>,
    registrar: Option<u32>,
    reading: Vec<bool>,
    readers: u32,
}

impl Model for Locks {
    ghost use Rattle.hp_locks.specs.Holders.{Holders, IsCounted};

    ghost Value = { Holders };

    ghost view = { λ l. record {
      map = l.map;
      writer = l.writer;
      registrar = l.registrar;
      reading = l.reading.items;
    } };

    ghost invariant = { λ l. IsCounted l.reading.items l.readers };
}

impl Locks {
    /// The locks of a machine into which no seat has come: nobody holds any. Takes no memory.
    pub fn new(alloc: Global) -> Locks
        ensures { result ≡ record { map = None; writer = None; registrar = None; reading = [] } }
    {
        Locks {
            map: None,
            writer: None,
            registrar: None,
            reading: Vec::new(alloc),
            readers: 0,
        }
    }

    /// Lets a seat in, which holds nothing, and answers its number: the next one.
    ///
    /// There are fewer than `MAX_LOCKED` seats before it. Takes memory; where that is wanting nothing has
    /// changed. That numbers aren't used again is this project's own.
    pub fn admit(&mut self) -> Result<u32, NoMemory>
        requires { length self.old.reading < MAX_LOCKED }
        ensures seat { IfOk result (λ seat. seat ≡ length self.old.reading) }
        ensures ok { OnOk result (self.new ≡ with_seat self.old) }
        ensures err { OnErr result (self.new ≡ self.old) }
    {
        let seat = self.reading.len() as u32;
        self.reading.push(false)?;
        Ok(seat)
    }

    /// How many seats were let in: the numbers below are seats. Takes no memory.
    pub fn admitted(&self) -> u32
        ensures { result ≡ length self.now.reading }
    {
        self.reading.len() as u32
    }

    /// Takes the map lock.
    ///
    /// `MapsHeld` with its holder exactly where it is held, by whatever seat; then nothing has
    /// changed. Takes no memory. After `cpu_maps_update_begin` of `kernel/cpu.c`.
    pub fn enter_maps(&mut self, seat: u32) -> Result<(), Why>
        requires { seat < length self.old.reading }
        ensures ok { OnOk result (TakesMap seat self.old self.new) }
        ensures why { IfErr result (λ why. wait_for_map self.old ≡ Some why) }
        ensures err { OnErr result (self.new ≡ self.old) }
    {
        if let Some(why) = self.wait_for_map() {
            return Err(why);
        }
        self.map = Some(seat);
        Ok(())
    }

    /// Gives the map lock back, which this seat holds. Takes no memory. After
    /// `cpu_maps_update_done` of `kernel/cpu.c`.
    pub fn leave_maps(&mut self, seat: u32)
        requires { self.old.map ≡ Some seat }
        ensures { self.new ≡ with_map None self.old }
    {
        prove!(self.map == Some(seat));
        self.map = None;
    }

    /// Takes the write side of the hotplug lock, for a walk.
    ///
    /// The seat holds the map lock, and no seat the write side. The first of these that holds is
    /// answered, and then nothing has changed; else the seat holds it:
    /// - `ReadersIn` with their number, where any seat reads;
    /// - `RegIn` with its seat, where a registration is in flight.
    ///
    /// Takes no memory. After `cpus_write_lock` of `kernel/cpu.c`; there it keeps readers and
    /// registrations out while it waits.
    pub fn begin_write(&mut self, seat: u32) -> Result<(), Why>
        requires map { self.old.map ≡ Some seat }
        requires writer { self.old.writer ≡ None }
        ensures ok { OnOk result (TakesWrite seat self.old self.new) }
        ensures why { IfErr result (λ why. wait_to_write self.old ≡ Some why) }
        ensures err { OnErr result (self.new ≡ self.old) }
    {
        prove!(self.map == Some(seat) && self.writer.is_none());
        if let Some(why) = self.wait_to_write() {
            return Err(why);
        }
        self.writer = Some(seat);
        Ok(())
    }

    /// Gives the write side back, which this seat holds. Takes no memory. After
    /// `cpus_write_unlock` of `kernel/cpu.c`.
    pub fn end_write(&mut self, seat: u32)
        requires { self.old.writer ≡ Some seat }
        ensures { self.new ≡ with_writer None self.old }
    {
        prove!(self.writer == Some(seat));
        self.writer = None;
    }

    /// Begins a registration.
    ///
    /// The first of these that holds is answered, and then nothing has changed; else this seat's
    /// registration is in flight:
    /// - `WriterIn` with its holder, where the write side is held;
    /// - `RegIn` with its seat, where a registration is in flight, by whatever seat.
    ///
    /// Takes no memory. After `cpus_read_lock` and `cpuhp_state_mutex` of `kernel/cpu.c`; there it
    /// waits behind a walk that waits too.
    pub fn begin_reg(&mut self, seat: u32) -> Result<(), Why>
        requires { seat < length self.old.reading }
        ensures ok { OnOk result (TakesRegistration seat self.old self.new) }
        ensures why { IfErr result (λ why. wait_to_register self.old ≡ Some why) }
        ensures err { OnErr result (self.new ≡ self.old) }
    {
        if let Some(why) = self.wait_to_register() {
            return Err(why);
        }
        self.registrar = Some(seat);
        Ok(())
    }

    /// Ends this seat's registration, which is in flight. Takes no memory.
    pub fn end_reg(&mut self, seat: u32)
        requires { self.old.registrar ≡ Some seat }
        ensures { self.new ≡ with_registrar None self.old }
    {
        prove!(self.registrar == Some(seat));
        self.registrar = None;
    }

    /// Lets a seat read, which doesn't yet.
    ///
    /// `WriterIn` with its holder exactly where the write side is held; then nothing has changed. A
    /// registration keeps no reader out. Takes no memory. After `cpus_read_lock` of `kernel/cpu.c`;
    /// there a reader waits behind a walk that waits too.
    #[tactic(auto, using(crate::proofs::Readers::one_more))]
    pub fn read_lock(&mut self, seat: u32) -> Result<(), Why>
        requires seat { seat < length self.old.reading }
        requires outside { reads self.old seat ≡ false }
        ensures ok { OnOk result (BeginsToRead seat self.old self.new) }
        ensures why { IfErr result (λ why. wait_for_writer self.old ≡ Some why) }
        ensures err { OnErr result (self.new ≡ self.old) }
    {
        if let Some(why) = self.wait_to_read() {
            return Err(why);
        }
        self.reading[seat as usize] = true;
        self.readers += 1;
        Ok(())
    }

    /// Ends the read section of a seat, which reads. Takes no memory. After `cpus_read_unlock` of
    /// `kernel/cpu.c`.
    pub fn read_unlock(&mut self, seat: u32)
        requires seat { seat < length self.old.reading }
        requires inside { reads self.old seat ≡ true }
        ensures { self.new ≡ with_reader seat false self.old }
    {
        self.reading[seat as usize] = false;
        self.readers -= 1;
    }

    /// Whether a seat reads; a number that is no seat doesn't. Takes no memory.
    pub fn reading(&self, seat: u32) -> bool
        ensures { result ≡ reads self.now seat }
    {
        self.reading.get(seat as usize).is_some_and(|reads| *reads)
    }

    /// How many seats read. Takes no memory.
    pub fn readers(&self) -> u32
        ensures { result ≡ readers self.now }
    {
        self.readers
    }

    /// The seat that holds the map lock, if one does. Takes no memory.
    pub fn map_holder(&self) -> Option<u32>
        ensures { result ≡ self.now.map }
    {
        self.map
    }

    /// The seat that holds the write side of the hotplug lock, if one does. Takes no memory.
    pub fn writer(&self) -> Option<u32>
        ensures { result ≡ self.now.writer }
    {
        self.writer
    }

    /// The seat whose registration is in flight, if one is. Takes no memory.
    pub fn registrar(&self) -> Option<u32>
        ensures { result ≡ self.now.registrar }
    {
        self.registrar
    }

    /// What `enter_maps` would answer now: `MapsHeld`, or nothing. Takes no memory.
    pub fn wait_for_map(&self) -> Option<Why>
        ensures { result ≡ wait_for_map self.now }
    {
        self.map.map(Why::MapsHeld)
    }

    /// What `read_lock` would answer now: `WriterIn`, or nothing. Takes no memory.
    pub fn wait_to_read(&self) -> Option<Why>
        ensures { result ≡ wait_for_writer self.now }
    {
        self.writer.map(Why::WriterIn)
    }

    /// What keeps out a registration alone: `RegIn`, or nothing. Takes no memory.
    pub fn wait_for_registration(&self) -> Option<Why>
        ensures { result ≡ wait_for_registration self.now }
    {
        self.registrar.map(Why::RegIn)
    }

    /// What `begin_write` would answer now: `ReadersIn`, else `RegIn`, or nothing. Takes no memory.
    pub fn wait_to_write(&self) -> Option<Why>
        ensures { result ≡ wait_to_write self.now }
    {
        if self.readers > 0 {
            return Some(Why::ReadersIn(self.readers));
        }
        self.wait_for_registration()
    }

    /// What `begin_reg` would answer now: `WriterIn`, else `RegIn`, or nothing. Takes no memory.
    pub fn wait_to_register(&self) -> Option<Why>
        ensures { result ≡ wait_to_register self.now }
    {
        match self.wait_to_read() {
            Some(why) => Some(why),
            None => self.wait_for_registration(),
        }
    }
}
