//! Hooks that are lent.

ghost use Rattle.std.specs.Prelude.{◌≡◌, ◌↔◌, IfSome, IfNone, IsSome};
ghost use Rattle.hp_table.specs.Step.{HasCounted};
ghost use Rattle.hp_machine.specs.StandsNext.{CanMakeEntry};
ghost use Rattle.hp_machine.specs.Lent.{step_of, HasHomeHook, with_lent, IsPut};

use crate::machine::Machine;
use hp_account::Entry;
use hp_hook::Hook;

impl<H: Hook> Machine<H> {
    /// Lends the hook of the state of an entry that is due, if one is registered there and its hook isn't lent;
    /// the entry's processor is among those for which hooks are lent then.
    ///
    /// Else nothing has changed. Makes no event, and takes no memory. That hooks are lent is this project's
    /// own.
    pub fn lend(&mut self, entry: &Entry) -> Option<H>
        requires { CanMakeEntry self.old entry.now }
        ensures some { IsSome result ↔ HasHomeHook (step_of self.old entry.now) }
        ensures hook { IfSome result (λ h. HasCounted (H.counts h) (step_of self.old entry.now)) }
        ensures lent { IfSome result (λ h. self.new ≡ with_lent self.old entry.now self.new.lent) }
        ensures put { IfSome result (λ h. IsPut entry.now.cpu self.old.lent self.new.lent) }
        ensures none { IfNone result (self.new ≡ self.old) }
    {
        let hook = self.table.lend(entry.key.state)?;
        self.lent.put(entry.cpu);
        Some(hook)
    }
}
