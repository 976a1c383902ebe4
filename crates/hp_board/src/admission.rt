//! Seats that come in and leave.

ghost use Rattle.std.specs.Prelude.{◌≡◌, ◌↔◌, ℕ, IsTrue, None, IfOk, IfErr, OnOk, OnErr, length};
ghost use Rattle.hp_board.specs.Contents.{with_event};
ghost use Rattle.hp_board.specs.Loans.{loan};
ghost use Rattle.hp_event.specs.declared.event.Event.TheVariants.{Leave};
ghost use Rattle.hp_machine.specs.Admission.{refusal_of, IsAdmitRefusal, WantsOnlyMemory};
ghost use Rattle.hp_model.specs.Seats.{admits};
ghost use Rattle.hp_machine.specs.StandsNext.{CanMake, admission};

use crate::board::Board;
use hp_event::Role;
use hp_hook::Hook;
use hp_machine::AdmitError;

impl<H: Hook> Board<H> {
    /// Lets a seat in with this role, and answers its number, which is the next one.
    ///
    /// The first of these that holds decides:
    /// - `Full` exactly where `MAX_SEATS` seats were admitted before.
    /// - `NotPresent` exactly for the thread of a processor that is absent or impossible.
    /// - `ApTaken` exactly where a thread of its processor is in.
    /// - `LogFull` exactly where the journal hasn't room for the admission and the seat's leave.
    /// - `NoMemory` where none of these holds and memory was wanting.
    ///
    /// After a refusal nothing has changed. What is lent stays so. Takes memory. Seats are this project's
    /// own; that each processor has one hotplug thread is that of `kernel/cpu.c`.
    pub fn admit(&mut self, role: Role) -> Result<u32, AdmitError>
        ensures seat { IfOk result (λ seat. seat ≡ admits self.old.events) }
        ensures ok { OnOk result (self.new ≡ with_event self.old (admission self.old role)) }
        ensures free { OnOk result (refusal_of self.old.head self.old.events role ≡ None) }
        ensures refused { IfErr result (IsAdmitRefusal self.old role) }
        ensures no_memory { IfErr result (WantsOnlyMemory self.old role) }
        ensures stays { (k : ℕ) → loan self.new k ≡ loan self.old k }
        ensures err { OnErr result (self.new ≡ self.old) }
    {
        self.machine.sound();
        self.machine.admit(role)
    }

    /// Whether a seat can leave: it is in, reads nothing, has nothing in flight, and no entry is due from
    /// it.
    ///
    /// Takes no memory. Seats are this project's own.
    pub fn can_leave(&self, by: u32) -> bool
        ensures { IsTrue result ↔ CanMake self.now (Leave by) }
    {
        self.machine.can_leave(by)
    }

    /// Lets a seat go, and answers the place of the event.
    ///
    /// The seat is in, reads nothing, has nothing in flight, and no entry is due from it. So nothing is lent
    /// to it, and what is lent to others stays so. Takes no memory. Seats are this project's own.
    pub fn leave(&mut self, by: u32) -> u32
        requires { CanMake self.old (Leave by) }
        ensures place { result ≡ length self.old.events }
        ensures left { self.new ≡ with_event self.old (Leave by) }
        ensures stays { (k : ℕ) → loan self.new k ≡ loan self.old k }
    {
        self.machine.sound();
        self.machine.leave(by)
    }
}
