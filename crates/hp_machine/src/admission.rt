//! Seats that come in and leave.

ghost use Rattle.std.specs.Prelude.{◌≡◌, ◌↔◌, IsTrue, None, Some, IfOk, IfErr, OnOk, OnErr, length};
ghost use Rattle.hp_event.specs.declared.event.Event.TheVariants.{Admit, Leave};
ghost use Rattle.hp_machine.specs.Admission.{refusal_of, IsAdmitRefusal, WantsOnlyMemory};
ghost use Rattle.hp_machine.specs.Contents.{with_event};
ghost use Rattle.hp_machine.specs.Leaving.{can_leave};
ghost use Rattle.hp_machine.specs.StandsNext.{CanMake, admission};
ghost use Rattle.hp_model.specs.Seats.{admits};

use crate::machine::Machine;
use hp_event::{Event, Role};
use hp_hook::Hook;
use hp_states::{MAX_SEATS, NoMemory};

/// Why a seat isn't let in.
#[derive(Clone, Copy, Debug, PartialEq, Eq)]
pub enum AdmitError {
    /// `MAX_SEATS` seats were admitted: numbers aren't used again.
    Full = 1,
    /// The processor of the thread is absent or no possible one.
    NotPresent = 2,
    /// A thread of the processor is in.
    ApTaken = 3,
    /// The journal has no room for the seat and its leave.
    LogFull = 4,
    /// Memory was wanting.
    NoMemory = 5,
}

impl<H: Hook> Machine<H> {
    /// Lets a seat in with this role, and answers its number, which is the next one.
    ///
    /// The first of these that holds decides:
    /// - `Full` exactly where `MAX_SEATS` seats were admitted before.
    /// - `NotPresent` exactly for the thread of a processor that is absent or impossible.
    /// - `ApTaken` exactly where a thread of its processor is in.
    /// - `LogFull` exactly where the journal hasn't room for the admission and the seat's leave.
    /// - `NoMemory` where none of these holds and memory was wanting.
    ///
    /// After a refusal nothing has changed. Takes memory. Seats are this project's own; that each
    /// processor has one hotplug thread is that of `kernel/cpu.c`.
    pub fn admit(&mut self, role: Role) -> Result<u32, AdmitError>
        ensures seat { IfOk result (λ seat. seat ≡ admits self.old.events) }
        ensures ok { OnOk result (self.new ≡ with_event self.old (admission self.old role)) }
        ensures free { OnOk result (refusal_of self.old.head self.old.events role ≡ None) }
        ensures refused { IfErr result (IsAdmitRefusal self.old role) }
        ensures no_memory { IfErr result (WantsOnlyMemory self.old role) }
        ensures err { OnErr result (self.new ≡ self.old) }
    {
        if let Some(error) = self.refusal(role) {
            return Err(error);
        }
        let seat = self.admitted();
        match self.make(&Event::Admit { seat, role }, 2, &mut None) {
            Ok(()) => Ok(seat),
            Err(NoMemory) => Err(AdmitError::NoMemory),
        }
    }

    /// Why a seat with this role isn't let in, if it isn't: memory apart, the first of the causes of `admit`.
    ///
    /// Takes no memory. Seats are this project's own.
    fn refusal(&self, role: Role) -> Option<AdmitError>
        ensures { result ≡ refusal_of self.now.head self.now.events role }
    {
        if self.admitted() >= MAX_SEATS {
            return Some(AdmitError::Full);
        }
        if let Role::Ap(cpu) = role {
            if !self.is_present(cpu) {
                return Some(AdmitError::NotPresent);
            }
            if self.thread(cpu).is_some() {
                return Some(AdmitError::ApTaken);
            }
        }
        if self.room() < 2 {
            return Some(AdmitError::LogFull);
        }
        None
    }

    /// Whether a seat can come in with this number and this role: exactly where `admit` doesn't refuse it, and
    /// its number is the next.
    ///
    /// Takes no memory. Seats are this project's own.
    #[tactic(auto, using(crate::proofs::Admitted::admits_number, crate::proofs::Admitted::comes_in))]
    pub fn can_admit(&self, seat: u32, role: Role) -> bool
        ensures { IsTrue result ↔ CanMake self.now (Admit seat role) }
    {
        seat == self.admitted() && self.refusal(role).is_none()
    }

    /// Whether a seat can leave: it is in, reads nothing, has nothing in flight, and no entry is due from
    /// it.
    ///
    /// Takes no memory. Seats are this project's own.
    pub fn can_leave(&self, seat: u32) -> bool
        ensures { IsTrue result ↔ CanMake self.now (Leave seat) }
    {
        self.has_nothing_to_do(seat)
    }

    /// Whether a seat is in, reads nothing, has nothing in flight, and owes no entry. Takes no memory.
    fn has_nothing_to_do(&self, seat: u32) -> bool
        ensures { result ≡ can_leave self.now.head self.now.events seat }
    {
        self.role(seat).is_some()
            && !self.is_reading(seat)
            && !self.is_busy(seat)
            && self.due(seat).is_none()
    }

    /// Lets a seat go, and answers the place of the event.
    ///
    /// It can leave. Takes no memory. Seats are this project's own.
    pub fn leave(&mut self, seat: u32) -> u32
        requires { CanMake self.old (Leave seat) }
        ensures place { result ≡ length self.old.events }
        ensures left { self.new ≡ with_event self.old (Leave seat) }
    {
        let at = self.journal.len();
        self.account.append(
            &mut self.journal,
            &mut self.coming,
            &self.table,
            &Event::Leave { seat },
            0,
        );
        at
    }
}
