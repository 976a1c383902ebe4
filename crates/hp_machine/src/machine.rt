//! The machine.

ghost use Rattle.std.specs.Prelude.{◌≡◌, ◌<◌, ◌↔◌, ℕ, false, Some, IfOk, option_map};
ghost use Rattle.hp_states.specs.CpuSets.{has};
ghost use Rattle.hp_event.specs.declared.op.Op.{Op as AnOp};
ghost use Rattle.hp_account.specs.Table.{IsTableOf};
ghost use Rattle.hp_machine.specs.Clients.{clients};
ghost use Rattle.hp_model.specs.FirstEvent.{is_client};
ghost use Rattle.hp_model.specs.Heads.{IsHead};
ghost use Rattle.hp_model.specs.Lawful.{IsLawful};
ghost use Rattle.hp_model.specs.Lists.{among};
ghost use Rattle.hp_model.specs.MapLock.{Operation, operation};
ghost use Rattle.hp_model.specs.Processors.{is_present};
ghost use Rattle.hp_model.specs.Promised.{promised};
ghost use Rattle.hp_model.specs.Readers.{is_reading};
ghost use Rattle.hp_model.specs.Registrations.{Registration, registration};
ghost use Rattle.hp_model.specs.Seats.{admits, ap_seat, is_busy, role_of};
ghost use Rattle.hp_model.specs.Settled.{settled, is_online};
ghost use Rattle.hp_model.specs.Suspend.{disabled, frozen};
ghost use Rattle.hp_table.specs.Sound.{IsSound};
ghost use Rattle.hp_machine.specs.MayAsk.{HasInFlight};
ghost use Rattle.hp_machine.specs.Contents.{started};

use hp_account::{Account, NextStep};
use hp_event::{Head, Journal, Op, Role};
use hp_hook::Hook;
use hp_states::{CpuSet, NoMemory};
use hp_table::Table;
use std::alloc::Global;
use std::marker::Model;

/// A lawful journal with what its events amount to, the table of what is registered, and the processors for
/// whose entries hooks are lent.
///
/// Contracts see its head, its events, oldest first, what stands at each state with its hook's counts, and
/// these processors (`Contents`). Its journal is lawful at any time; what stands at a state is what the journal has
/// registered there, and of a registration in flight what it adds; and each hook has counted the calls of
/// the journal since the setup that registered it began.
#[derive(Drop)]
pub struct Machine<H: Hook> {
    pub(crate) journal: Journal,
    pub(crate) account: Account,
    /// What is under way, found anew at each event.
    pub(crate) coming: Option<NextStep>,
    pub(crate) table: Table<H>,
    pub(crate) lent: CpuSet,
}

impl<H: Hook> Model for Machine<H> {
    ghost use Rattle.hp_machine.specs.Machine.{IsMachine};
    ghost use Rattle.hp_machine.specs.Contents.{Contents};

    ghost Value = { Contents };

    ghost view = { λ m. record {
      head = m.journal.head;
      events = m.journal.events;
      places = m.table;
      lent = m.lent;
    } };

    ghost invariant = { λ m. IsMachine m.journal m.account m.coming m.table };
}

impl<H: Hook> Machine<H> {
    /// A machine with this head and no events: the first processor is up, nothing is registered but the
    /// built-in states, and nothing is lent.
    ///
    /// The head is one that a machine can be started with. Takes memory for the table's 201 places and for
    /// some places for each possible processor; where there is none: `NoMemory`.
    pub fn start(alloc: Global, head: Head) -> Result<Machine<H>, NoMemory>
        requires { IsHead head }
        ensures begins { IfOk result (λ m. m ≡ started head m.lent) }
        ensures nothing_lent { IfOk result (λ m. (cpu : ℕ) → has m.lent cpu ≡ false) }
    {
        let table = Table::new(alloc)?;
        let account = Account::new(alloc, &head)?;
        Ok(Machine {
            journal: Journal::new(alloc, head),
            account,
            coming: None,
            table,
            lent: CpuSet::none(),
        })
    }

    /// What is so of every machine, which callers cite: it does nothing.
    ///
    /// Its journal is lawful, what stands at each state is what the journal says, and the states are those of
    /// a table, 201 in all. Takes no memory. This project's own.
    pub fn sound(&self)
        ensures lawful { IsLawful self.now.head self.now.events }
        ensures table { IsTableOf self.now.head self.now.events self.now.places }
        ensures places { IsSound self.now.places }
    {
        // what is so of every machine
        let _ = &self.journal;
        self.table.sound();
    }

    /// The journal. Takes no memory.
    pub fn journal(&self) -> &Journal
        ensures head { result.now.head ≡ self.now.head }
        ensures events { result.now.events ≡ self.now.events }
    {
        &self.journal
    }

    /// The table of what is registered. Takes no memory.
    pub fn table(&self) -> &Table<H>
        ensures { result.now ≡ self.now.places }
    {
        &self.table
    }

    /// The processors for whose entries hooks are lent. Takes no memory. That hooks are lent is this
    /// project's own.
    #[inline(always)]
    pub fn lent(&self) -> &CpuSet
        ensures { result.now ≡ self.now.lent }
    {
        &self.lent
    }

    /// The journal and the table, without the account. Takes no memory.
    pub fn into_parts(self) -> (Journal, Table<H>)
        ensures head { result.0.head ≡ self.head }
        ensures events { result.0.events ≡ self.events }
        ensures promised { result.0.promised ≡ promised self.head self.events }
        ensures table { result.1 ≡ self.places }
    {
        let Machine { journal, table, .. } = self;
        (journal, table)
    }

    /// The role of a seat that is in. Takes no memory.
    pub fn role(&self, seat: u32) -> Option<Role>
        ensures { result ≡ role_of seat self.now.events }
    {
        self.account.seats.role(seat)
    }

    /// Whether a seat is in as a client. Takes no memory. Seats are this project's own.
    pub fn is_client(&self, seat: u32) -> bool
        ensures { result ≡ is_client (role_of seat self.now.events) }
    {
        matches!(self.role(seat), Some(Role::Client))
    }

    /// How many seats were ever admitted, which is the number of the next. Takes no memory.
    pub fn admitted(&self) -> u32
        ensures { result ≡ admits self.now.events }
    {
        self.account.seats.admitted()
    }

    /// The seat of a processor's thread, if it is in. Takes no memory.
    pub fn thread(&self, cpu: u32) -> Option<u32>
        ensures { result ≡ ap_seat cpu self.now.events }
    {
        self.account.seats.thread(cpu)
    }

    /// The processor whose thread is in as this seat, if one's is. Takes no memory.
    pub(crate) fn processor_of(&self, seat: u32) -> Option<u32>
        ensures { (cpu : ℕ) → (ap_seat cpu self.now.events ≡ Some seat) ↔ (result ≡ Some cpu) }
    {
        match self.account.seats.role(seat) {
            Some(Role::Ap(cpu)) => Some(cpu),
            _ => None,
        }
    }

    /// How many clients are in. Takes no memory, and a time that doesn't grow with the seats.
    pub fn clients(&self) -> u32
        ensures { result ≡ clients self.now.events }
    {
        self.account.seats.clients()
    }

    /// The state where a processor was left by its last walk.
    ///
    /// The processor is a possible one. Takes no memory. After `st->state` of `kernel/cpu.c`; what a
    /// stuck walk leaves is this project's own.
    pub fn state(&self, cpu: u32) -> u32
        requires { cpu < self.now.head.possible }
        ensures { result ≡ settled cpu self.now.events }
    {
        self.account.processors.state(cpu)
    }

    /// Whether a processor is present: it is possible and isn't absent.
    ///
    /// Any number may be asked for. Takes no memory, and a time that doesn't grow with the processors. After
    /// `cpu_present` of `linux/cpumask.h`.
    pub(crate) fn is_present(&self, cpu: u32) -> bool
        ensures { result ≡ is_present self.now.head cpu }
    {
        self.account.processors.is_present(cpu)
    }

    /// The processors that are online.
    ///
    /// Takes no memory, and a time that doesn't grow with the processors. After `cpu_online_mask` of
    /// `kernel/cpu.c`.
    pub fn online_set(&self) -> CpuSet
        ensures { (cpu : ℕ) → has result cpu ≡ is_online cpu self.now.events }
    {
        self.account.processors.online_set()
    }

    /// Whether a seat is in a read section. Takes no memory. After `cpus_read_lock` of `kernel/cpu.c`.
    pub(crate) fn is_reading(&self, seat: u32) -> bool
        ensures { result ≡ is_reading seat self.now.events }
    {
        self.account.locks.reading(seat)
    }

    /// Whether an operation of a seat is in flight: it holds the map lock or registers.
    ///
    /// There is no condition; a number that is no seat has none. Takes no memory. This project's own.
    pub fn is_busy(&self, seat: u32) -> bool
        ensures { result ≡ is_busy seat self.now.events }
    {
        let locks = &self.account.locks;
        locks.map_holder() == Some(seat) || locks.registrar() == Some(seat)
    }

    /// The operation of a seat that is in flight, if one is: it holds the map lock, or registers.
    ///
    /// There is no condition; a number that is no seat has none. Takes no memory.
    pub fn op(&self, seat: u32) -> Option<Op>
        ensures { (op : AnOp) → HasInFlight self.now.events seat op ↔ (result ≡ Some op) }
    {
        match (&self.account.operation, &self.account.registration) {
            (Some(held), _) if held.seat == seat => Some(held.op),
            (_, Some(registration)) if registration.seat == seat => Some(registration.reg.op()),
            _ => None,
        }
    }

    /// The seat that holds the map lock, if one does: its operation is in flight. Takes no memory. After
    /// `cpu_maps_update_begin` of `kernel/cpu.c`.
    pub fn holder(&self) -> Option<u32>
        ensures { result ≡ option_map (λ (o : Operation). o.seat) (operation self.now.events) }
    {
        match &self.account.operation {
            Some(held) => Some(held.seat),
            None => None,
        }
    }

    /// The seat whose registration is in flight, if one is. Takes no memory. After `cpuhp_state_mutex` of
    /// `kernel/cpu.c`.
    pub fn registrar(&self) -> Option<u32>
        ensures { result ≡ option_map (λ (r : Registration). r.seat) (registration self.now.events) }
    {
        match &self.account.registration {
            Some(registration) => Some(registration.seat),
            None => None,
        }
    }

    /// How often hotplug is disabled. Takes no memory. After `cpu_hotplug_disabled` of `kernel/cpu.c`.
    pub fn disabled(&self) -> u32
        ensures { result ≡ disabled self.now.events }
    {
        self.account.suspended.disabled()
    }

    /// Whether a processor is frozen: the last freeze took it down, and no thaw has ended since.
    ///
    /// The processor is a possible one. Takes no memory. After `frozen_cpus` of `kernel/cpu.c`.
    pub fn is_frozen(&self, cpu: u32) -> bool
        requires { cpu < self.now.head.possible }
        ensures { result ≡ among cpu (frozen self.now.events) }
    {
        self.account.suspended.is_frozen(cpu)
    }
}
