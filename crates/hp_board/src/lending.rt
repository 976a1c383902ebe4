//! Hooks lent and given back.

ghost use Rattle.std.specs.Prelude.{◌≡◌, ◌≢◌, ◌↔◌, ℕ, true, false, None, Some, IsTrue, IfSome, IfNone, IsSome, is_some};
ghost use Rattle.hp_board.specs.Loans.{loan, is_hook, CanLendTo};
ghost use Rattle.hp_board.specs.Turns.{IsServed};
ghost use Rattle.hp_board.specs.declared.turn.Turn.TheVariants.{Made};
ghost use Rattle.hp_account.specs.Entries.{entry_event};
ghost use Rattle.hp_account.specs.declared.under_way.MadeBy.TheVariants.{Hook as ByHook};
ghost use Rattle.hp_states.specs.CpuSets.{has};
ghost use Rattle.hp_table.specs.Step.{is_home, AllHome};
ghost use Rattle.hp_machine.specs.Lent.{step_of, IsPut, IsTaken};

use crate::board::Board;
use crate::loan::{Back, Loan};
use crate::making::make_answered;
use hp_account::{Entry, MadeBy};
use hp_hook::Hook;
use hp_states::MAX_CPU_SET;

impl<H: Hook> Board<H> {
    /// Whether something is lent to a seat.
    ///
    /// There is no condition. Takes no memory. That hooks are lent is this project's own.
    pub fn has_lent(&self, by: u32) -> bool
        ensures { result ≡ is_some (loan self.now by) }
    {
        if self.machine.lent().is_empty() {
            return false;
        }
        self.machine.sound();
        match self.machine.due(by) {
            Some(entry) => self.is_lent(entry.cpu),
            None => false,
        }
    }

    /// Whether a hook is lent for the entry of a processor.
    pub(crate) fn is_lent(&self, cpu: u32) -> bool
        ensures { result ≡ has self.now.lent cpu }
    {
        self.machine.sound();
        cpu < MAX_CPU_SET && self.machine.lent().has(cpu)
    }

    /// Whether an entry is made by its hook's answer, and that hook is away.
    #[inline(always)]
    pub(crate) fn is_out(&self, entry: &Entry) -> bool
        ensures by_hook { result ≡ true → entry.now.made_by ≡ ByHook }
        ensures away { result ≡ true → is_home (step_of self.now entry.now) ≡ false }
        ensures home { result ≡ false → entry.now.made_by ≡ ByHook → is_home (step_of self.now entry.now) ≡ true }
    {
        if self.machine.lent().is_empty() {
            return false;
        }
        is_by_hook(entry) && !self.machine.table().is_home(entry.key.state)
    }

    /// Whether every hook is home.
    ///
    /// There is no condition. Takes no memory. That hooks are lent is this project's own.
    pub fn is_home(&self) -> bool
        ensures { IsTrue result ↔ AllHome self.now.places }
    {
        self.machine.lent().is_empty()
    }

    /// Lends the hook of the entry that is due from a seat, where its answer makes the entry: the hook
    /// can be called outside then, and `give` makes the entry by its answer.
    ///
    /// There is no condition. None exactly where no entry is due from the seat that a hook's answer makes, or
    /// that hook is away, lent to this seat or to another; then nothing has changed. What is lent to other
    /// seats stays so. Makes no event, and takes no memory. After `cpuhp_thread_fun` of `kernel/cpu.c`; that
    /// hooks are lent is this project's own.
    pub fn lend(&mut self, by: u32) -> Option<Loan<H>>
        ensures some { IsSome result ↔ CanLendTo self.old by }
        ensures lent { IfSome result (λ l. loan self.new by ≡ Some l) }
        ensures put { IfSome result (λ l. IsPut l.cpu self.old.lent self.new.lent) }
        ensures events { (self.new.head ≡ self.old.head) × (self.new.events ≡ self.old.events) }
        ensures none { IfNone result (self.new ≡ self.old) }
        ensures stays { (k : ℕ) → k ≢ by → loan self.new k ≡ loan self.old k }
    {
        self.machine.sound();
        let entry = self.machine.due(by)?;
        if !is_by_hook(&entry) {
            return None;
        }
        let hook = self.machine.lend(&entry)?;
        Some(Loan {
            hook,
            cpu: entry.cpu,
            key: entry.key,
            dir: entry.dir,
        })
    }

    /// Puts a hook home that was lent to a seat, makes the entry by its answer, and answers the place of
    /// the event.
    ///
    /// What is lent to the seat is what comes back; nothing is lent to it then, and what is lent to other
    /// seats stays so. Takes no memory. After `cpuhp_thread_fun` of `kernel/cpu.c`; that hooks are lent is
    /// this project's own.
    pub fn give(&mut self, by: u32, back: Back<H>) -> u32
        requires { loan self.old by ≡ Some back }
        ensures served { IsServed by (record self.old { lent = self.new.lent }) self.new (Made result) }
        ensures taken { IsTaken back.cpu self.old.lent self.new.lent }
        ensures home { loan self.new by ≡ None }
        ensures stays { (k : ℕ) → k ≢ by → loan self.new k ≡ loan self.old k }
    {
        let Back {
            hook,
            answer,
            was: _,
            cpu: _,
            key: _,
            dir: _,
        } = back;
        self.machine.sound();
        match self.machine.due(by) {
            Some(entry) => {
                let at = self.machine.journal().len();
                make_answered(&mut self.machine, &mut self.called, &entry, hook, answer);
                at
            }
            None => unreachable!(),
        }
    }
}

/// Whether an entry is made by its hook's answer.
pub(crate) fn is_by_hook(entry: &Entry) -> bool
    ensures { result ≡ is_hook entry.now.made_by }
{
    matches!(entry.made_by, MadeBy::Hook)
}
