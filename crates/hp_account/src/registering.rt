//! The registration in flight.

ghost use Rattle.std.specs.Prelude.{◌≡◌, ◌<◌, ◌≤◌, true, IsSome};
ghost use Rattle.hp_states.specs.declared.limits.TheConstants.{MAX_CPUS, ONLINE};
ghost use Rattle.hp_model.specs.Events.{is_registration_op};
ghost use Rattle.hp_model.specs.How.{is_nocalls};
ghost use Rattle.hp_model.specs.Lawful.{IsLawful};
ghost use Rattle.hp_table.specs.Step.{step_at};
ghost use Rattle.hp_account.specs.RegisteringChanges.{RegistrationBegan, RegistrationWentOn};
ghost use Rattle.hp_account.specs.Registering.{IsRegistering};
ghost use Rattle.hp_account.specs.RegistrationMadeBy.{seat_by, IsMadeByInRegistration};
ghost use Rattle.hp_account.specs.Table.{IsTableOf};
ghost use Rattle.hp_account.specs.Seats.{IsRoll};
ghost use Rattle.hp_account.specs.Processors.{IsStanding};
ghost use Rattle.hp_account.specs.NextStep.{IsComing};
ghost use Rattle.hp_account.specs.HookAsked.{RegistrationAsks};

use crate::processors::Processors;
use crate::seats::Seats;
use crate::under_way::{Ending, Entry, MadeBy, NextStep, has_callback};
use hp_event::{How, Journal, Op};
use hp_hook::Hook;
use hp_reg::{Reg, RegStep};
use hp_states::{Dir, MAX_CPUS, ONLINE, is_ap};
use hp_table::Table;

/// A registration in flight: whose it is, where it stands, and how much of the room that it took is
/// left.
#[derive(Clone, Copy)]
pub struct Registering {
    /// The seat whose operation registers.
    pub seat: u32,
    /// Where it stands.
    pub reg: Reg,
    /// How many events are still promised to it.
    pub left: u32,
}

impl Registering {
    /// The registration of an operation of a seat at its state, which took room for so many events.
    ///
    /// The operation is a setup, a remove, an add or a del, and the state at most 200. Takes no memory.
    /// After `__cpuhp_setup_state_cpuslocked` and its kin of `kernel/cpu.c`.
    pub fn begin(seat: u32, op: Op, state: u32, need: u32) -> Registering
        requires op { is_registration_op op ≡ true }
        requires state { state ≤ ONLINE }
        ensures { RegistrationBegan seat op state need result }
    {
        Registering {
            seat,
            reg: Reg::begin(op, state),
            left: need.saturating_sub(1),
        }
    }

    /// Goes on past the entry on a processor: `how` says how it was made. Takes no memory.
    pub fn took(&mut self, cpu: u32, how: How)
        requires { cpu < MAX_CPUS }
        ensures { RegistrationWentOn cpu how self.old self.new }
    {
        self.reg.took(cpu, how);
        self.left = self.left.saturating_sub(1);
    }

    /// What comes next: an entry, with what it is made by and by whom, or the end.
    ///
    /// The journal, which is lawful, the table, the processors and the seats are those in which it is in
    /// flight. An entry
    /// is the processor's thread's at an AP state, unless it is presumed, and else the client's; it is
    /// presumed where the form is without calls. Takes no memory, and looks at no event. After
    /// `cpuhp_invoke_callback` and `cpuhp_invoke_ap_callback` of `kernel/cpu.c`; that a fault in
    /// STARTING or of a removal is overruled is this project's own.
    #[inline(always)]
    pub fn next<H: Hook>(
        &self,
        journal: &Journal,
        table: &Table<H>,
        processors: &Processors,
        seats: &Seats,
    ) -> NextStep
        requires lawful { IsLawful journal.now.head journal.now.events }
        requires registering { IsRegistering journal.now.head journal.now.events self.now }
        requires table { IsTableOf journal.now.head journal.now.events table.now }
        requires standing { IsStanding journal.now.head journal.now.events processors.now }
        requires roll { IsRoll journal.now.head journal.now.events seats.now }
        ensures { IsComing journal.now.head journal.now.events result }
    {
        let absent = journal.head().absent.as_slice();
        match self.reg.next(table, processors.settled(), absent) {
            RegStep::Ended(answer) => NextStep::End(Ending::Registration {
                seat: self.seat,
                answer,
            }),
            RegStep::Call {
                cpu,
                key,
                dir,
                place,
            } => {
                let made_by = self.made_by(table, key.state, dir);
                let seat = self.seat_of(key.state, seats.thread(cpu));
                let entry = seat.map(|seat| Entry {
                    seat,
                    cpu,
                    key,
                    dir,
                    place,
                    made_by,
                });
                NextStep::Entry {
                    client: self.seat,
                    cpu,
                    entry,
                }
            }
        }
    }

    /// The state whose hook the entry calls that comes next, if it is an entry and calls one.
    ///
    /// The journal, the table and the processors are those in which it is in flight. Takes no memory, and
    /// looks at no event.
    pub fn hook_asked<H: Hook>(
        &self,
        journal: &Journal,
        table: &Table<H>,
        processors: &Processors,
    ) -> Option<u32>
        requires registering { IsRegistering journal.now.head journal.now.events self.now }
        requires table { IsTableOf journal.now.head journal.now.events table.now }
        requires standing { IsStanding journal.now.head journal.now.events processors.now }
        ensures { RegistrationAsks journal.now.head journal.now.events result }
    {
        let absent = journal.head().absent.as_slice();
        match self.reg.next(table, processors.settled(), absent) {
            RegStep::Call { key, dir, .. } => self
                .made_by(table, key.state, dir)
                .hook_at(key.state),
            RegStep::Ended(_) => None,
        }
    }

    /// What an entry of a direction at the state is made by.
    fn made_by<H: Hook>(&self, table: &Table<H>, state: u32, dir: Dir) -> MadeBy
        requires { IsSome (step_at table.now state) }
        ensures { IsMadeByInRegistration (is_nocalls self.now.reg.op) (step_at table.now state) dir result }
    {
        if self.is_nocalls() {
            return MadeBy::Presumed;
        }
        if has_callback(table, state, dir) {
            MadeBy::Hook
        } else {
            MadeBy::Empty
        }
    }

    /// Who makes an entry at a state, if the thread of its processor is this seat or isn't in.
    fn seat_of(&self, state: u32, thread: Option<u32>) -> Option<u32>
        ensures { result ≡ seat_by (is_nocalls self.now.reg.op) state thread self.now.seat }
    {
        if is_ap(state) && !self.is_nocalls() {
            thread
        } else {
            Some(self.seat)
        }
    }

    /// Whether the operation makes no calls.
    fn is_nocalls(&self) -> bool
        ensures { result ≡ is_nocalls self.now.reg.op }
    {
        self.reg.op().form().is_some_and(|form| form.nocalls)
    }
}
