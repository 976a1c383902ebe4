//! The board.

ghost use Rattle.std.specs.Prelude.{◌≡◌, ◌<◌, ◌↔◌, ℕ, Some, IfOk, IfSome, IfNone, option_map};
ghost use Rattle.hp_states.specs.CpuSets.{has};
ghost use Rattle.hp_machine.specs.Clients.{clients};
ghost use Rattle.hp_account.specs.UnderWay.{IsNextDue, NoneDueFrom, IsNextThreadDue, NoThreadDueFrom};
ghost use Rattle.hp_model.specs.ApTurn.{IsApTurn};
ghost use Rattle.hp_model.specs.Lists.{among};
ghost use Rattle.hp_model.specs.MapLock.{Operation, operation};
ghost use Rattle.hp_model.specs.Net.{is_key_in_force, keys_in_force};
ghost use Rattle.hp_model.specs.Registrations.{Registration, registration};
ghost use Rattle.hp_model.specs.Seats.{is_busy};
ghost use Rattle.hp_model.specs.Settled.{settled, is_online};
ghost use Rattle.hp_model.specs.Suspend.{disabled, frozen};

use hp_called::Called;
use hp_event::{Journal, Key, Keys};
use hp_hook::Hook;
use hp_machine::Machine;
use hp_states::{CpuSet, NoMemory, TEARDOWN_CPU};
use std::marker::Model;

/// The machine of CPU hotplug: processors, states with their hooks, and a journal of all that was done.
///
/// Contracts see its head, its events, oldest first, what stands at each state with its hook's counts, and
/// the processors that hooks are lent for (`Contents`). Its journal is lawful at any time; what stands at a
/// state is what the journal has registered there, and of a registration in flight what it adds; and each
/// hook has counted the calls of the journal since the setup that registered it began. A hook that is lent
/// is that of an entry that is due of one of these processors; two of them are lent hooks of two states. Beside
/// the machine it keeps the called set, which is that of its journal at any time: which keys are in force on
/// which processors.
#[derive(Drop)]
pub struct Board<H: Hook> {
    pub(crate) machine: Machine<H>,
    pub(crate) called: Called,
}

impl<H: Hook> Model for Board<H> {
    ghost use Rattle.hp_board.specs.Loans.{AreOut};
    ghost use Rattle.hp_called.specs.Called.{IsCalled};
    ghost use Rattle.hp_machine.specs.Contents.{Contents};

    ghost Value = { Contents };

    ghost view = { λ b. b.machine };

    ghost invariant = { λ b. record {
      out : AreOut b.machine;
      called : IsCalled b.machine.head b.machine.events b.called;
    } };
}

impl<H: Hook> Board<H> {
    /// The journal. Takes no memory.
    pub fn journal(&self) -> &Journal
        ensures head { result.now.head ≡ self.now.head }
        ensures events { result.now.events ≡ self.now.events }
    {
        self.machine.journal()
    }

    /// The state where a processor was left by its last walk.
    ///
    /// The processor is a possible one. Takes no memory. After `st->state` of `kernel/cpu.c`; what a
    /// stuck walk leaves is this project's own.
    pub fn state(&self, cpu: u32) -> u32
        requires { cpu < self.now.head.possible }
        ensures { result ≡ settled cpu self.now.events }
    {
        self.machine.state(cpu)
    }

    /// Whether a processor is online: it stands above the state at which it is taken down.
    ///
    /// The processor is a possible one. Takes no memory. After `cpu_online` of `kernel/cpu.c`.
    pub fn online(&self, cpu: u32) -> bool
        requires { cpu < self.now.head.possible }
        ensures { result ≡ is_online cpu self.now.events }
    {
        self.machine.state(cpu) >= TEARDOWN_CPU
    }

    /// The processors that are online.
    ///
    /// Takes no memory, and a time that doesn't grow with the processors. After `cpu_online_mask` of `kernel/cpu.c`.
    pub fn online_set(&self) -> CpuSet
        ensures { (cpu : ℕ) → has result cpu ≡ is_online cpu self.now.events }
    {
        self.machine.online_set()
    }

    /// The lowest processor from one on of which an entry is due, and the seat that it is due from, if there is
    /// one: `serve` makes it where that is a thread's. Of one processor at most one entry is due, and but in an
    /// upmany of one alone.
    ///
    /// Takes no memory, and time for the processors that walk. After `cpuhp_invoke_ap_callback` of
    /// `kernel/cpu.c`.
    pub fn next_due(&self, from: u32) -> Option<(u32, u32)>
        ensures some { IfSome result (IsNextDue self.now.head self.now.events from) }
        ensures none { IfNone result (NoneDueFrom self.now.head self.now.events from) }
    {
        self.machine.next_due(from)
    }

    /// The lowest processor from one on of which an entry is due from its thread, and the thread's seat, if there is
    /// one: `serve` makes it.
    ///
    /// Takes no memory, and time for the processors whose threads make the next entries. After
    /// `cpuhp_thread_fun` of `kernel/cpu.c`.
    pub fn next_thread_due(&self, from: u32) -> Option<(u32, u32)>
        ensures some { IfSome result (IsNextThreadDue self.now.head self.now.events from) }
        ensures none { IfNone result (NoThreadDueFrom self.now.head self.now.events from) }
    {
        self.machine.next_thread_due(from)
    }

    /// The processor whose thread has to make the next entry of the operation of a client's seat that is in
    /// flight, if one has: then the seat waits for it.
    ///
    /// Takes no memory, and looks at no event. After `cpuhp_kick_ap` of `kernel/cpu.c`.
    pub fn ap_turn(&self, seat: u32) -> Option<u32>
        ensures { (cpu : ℕ) → IsApTurn self.now.head self.now.events seat cpu ↔ (result ≡ Some cpu) }
    {
        self.machine.ap_turn(seat)
    }

    /// Whether an operation of a seat is in flight: it holds the map lock, or registers.
    ///
    /// A number that is no seat has none. Takes no memory. This project's own.
    pub fn is_busy(&self, seat: u32) -> bool
        ensures { result ≡ is_busy seat self.now.events }
    {
        self.machine.is_busy(seat)
    }

    /// The seat that holds the map lock, if one does.
    ///
    /// Takes no memory. After `cpu_maps_update_begin` of `kernel/cpu.c`.
    pub fn holder(&self) -> Option<u32>
        ensures { result ≡ option_map (λ (o : Operation). o.seat) (operation self.now.events) }
    {
        self.machine.holder()
    }

    /// The seat whose registration is in flight, if one is.
    ///
    /// Takes no memory. After `cpuhp_state_mutex` of `kernel/cpu.c`.
    pub fn registrar(&self) -> Option<u32>
        ensures { result ≡ option_map (λ (r : Registration). r.seat) (registration self.now.events) }
    {
        self.machine.registrar()
    }

    /// How many clients are in.
    ///
    /// Takes no memory, and a time that doesn't grow with the seats. Seats are this project's own.
    pub fn clients(&self) -> u32
        ensures { result ≡ clients self.now.events }
    {
        self.machine.clients()
    }

    /// How often hotplug is disabled.
    ///
    /// Takes no memory. After `cpu_hotplug_disabled` of `kernel/cpu.c`.
    pub fn disabled(&self) -> u32
        ensures { result ≡ disabled self.now.events }
    {
        self.machine.disabled()
    }

    /// Whether a processor is frozen: the last freeze took it down, and no thaw has ended since.
    ///
    /// The processor is a possible one. Takes no memory. After `frozen_cpus` of `kernel/cpu.c`.
    pub fn frozen(&self, cpu: u32) -> bool
        requires { cpu < self.now.head.possible }
        ensures { result ≡ among cpu (frozen self.now.events) }
    {
        self.machine.is_frozen(cpu)
    }

    /// Whether a key is in force on a processor: more of its upward entries than of its downward ones are done there.
    ///
    /// Any number may be asked for, and any key: one that isn't registered, nor being added, is in force nowhere, and
    /// nothing is on a number that is no processor's. Takes no memory, and a time that doesn't grow with the journal or
    /// the keys. That a key is in force is this project's own.
    pub fn in_force(&self, cpu: u32, key: Key) -> bool
        ensures { result ≡ is_key_in_force cpu self.now.events key }
    {
        self.called.has(key, cpu)
    }

    /// The keys that are in force on a processor, in rising order.
    ///
    /// Takes memory for the list; where there is none: `NoMemory`. Takes time for the keys that are registered, and to put
    /// those of the list in order, and none for the journal. That a key is in force is this project's own.
    pub fn net(&self, cpu: u32) -> Result<Keys, NoMemory>
        ensures { IfOk result (λ keys. keys ≡ keys_in_force cpu self.now.events) }
    {
        self.called.keys(self.machine.journal().allocator(), cpu)
    }
}
