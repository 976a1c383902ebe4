//! Entries: which are due, and how one is made.

ghost use Rattle.std.specs.Prelude.{◌≡◌, ◌↔◌, ℕ, Some, IfSome, IfNone, ◌<◌, ◌==◌, false};
ghost use Rattle.hp_account.specs.HookAsked.{ThreadAsks, WalkAsks};
ghost use Rattle.hp_account.specs.UnderWay.{due_by, IsNextDue, NoneDueFrom, IsNextThreadDue, NoThreadDueFrom};
ghost use Rattle.hp_account.specs.declared.under_way.MadeBy.TheVariants.{Hook as ByHook};
ghost use Rattle.hp_machine.specs.Next.{IsDue};
ghost use Rattle.hp_model.specs.ApTurn.{IsApTurn};
ghost use Rattle.hp_table.specs.Step.{is_home};
ghost use Rattle.hp_machine.specs.StandsNext.{CanMakeEntry, with_entry};
ghost use Rattle.hp_machine.specs.Lent.{step_of, HasHook, HasCountedCall, IsAnswered, lending, IsTaken};

use crate::machine::Machine;
use hp_account::{Entry, MadeBy, NextStep};
use hp_hook::Hook;

impl<H: Hook> Machine<H> {
    /// The entry that is due from a seat: what comes next of what is under way, where it is an entry and
    /// this seat's to make.
    ///
    /// There is no condition. Takes no memory, and looks at no event. After `cpuhp_invoke_callback`
    /// and `cpuhp_invoke_ap_callback` of `kernel/cpu.c`; who makes the entries in STARTING, and those
    /// of a down in PREPARE, is this project's own.
    #[inline(always)]
    pub fn due(&self, seat: u32) -> Option<Entry>
        ensures { IsDue self.now.head self.now.events seat result }
    {
        match &self.coming {
            Some(_) => due_from(&self.coming, seat),
            None => self.due_in_batch(seat),
        }
    }

    /// The lowest processor from one on of which an entry is due, and the seat that it is due from, if there is
    /// one. Of one processor at most one entry is due, and but in an upmany of one alone.
    ///
    /// There is no condition. Takes no memory, and time for the processors that walk. After
    /// `cpuhp_invoke_callback` and `cpuhp_invoke_ap_callback` of `kernel/cpu.c`; who makes the entries
    /// in STARTING, and those of a down in PREPARE, is this project's own.
    pub fn next_due(&self, from: u32) -> Option<(u32, u32)>
        ensures some { IfSome result (IsNextDue self.now.head self.now.events from) }
        ensures none { IfNone result (NoneDueFrom self.now.head self.now.events from) }
    {
        match &self.coming {
            Some(coming) => coming.due_beyond(from),
            None => self.next_due_in_batch(from),
        }
    }

    /// The lowest processor from one on of which an entry is due from its thread, and the thread's seat, if there is
    /// one.
    ///
    /// There is no condition. Takes no memory, and time for the processors whose threads make the next entries.
    /// After `cpuhp_thread_fun` of `kernel/cpu.c`.
    pub fn next_thread_due(&self, from: u32) -> Option<(u32, u32)>
        ensures some { IfSome result (IsNextThreadDue self.now.head self.now.events from) }
        ensures none { IfNone result (NoThreadDueFrom self.now.head self.now.events from) }
    {
        match &self.coming {
            Some(coming) => coming.thread_due_beyond(from),
            None => self.next_thread_due_in_batch(from),
        }
    }

    /// The processor whose thread has to make the next entry of the operation of a client's seat that is in
    /// flight, if one has: then the seat waits for it.
    ///
    /// There is no condition. Takes no memory, and looks at no event. After `cpuhp_kick_ap` of
    /// `kernel/cpu.c`.
    pub fn ap_turn(&self, seat: u32) -> Option<u32>
        ensures { (cpu : ℕ) → IsApTurn self.now.head self.now.events seat cpu ↔ (result ≡ Some cpu) }
    {
        match &self.coming {
            Some(coming) => coming.waits_of(seat),
            None => self.ap_turn_in_batch(seat),
        }
    }

    /// The state whose hook the next entry on a processor calls, where a client waits for that processor's thread
    /// to make it; None where it calls none.
    ///
    /// There is no condition. Takes no memory, and looks at no event. After `cpuhp_invoke_ap_callback` of
    /// `kernel/cpu.c`; that hooks are lent is this project's own.
    pub fn hook_asked(&self, cpu: u32) -> Option<u32>
        ensures { ThreadAsks self.now.head self.now.events cpu result }
    {
        let account = &self.account;
        if account.flights.walks(cpu) {
            return self.hook_on(cpu);
        }
        match &account.registration {
            Some(registration) => {
                registration.hook_asked(&self.journal, &self.table, &account.processors)
            }
            None => None,
        }
    }

    /// The state whose hook the next entry of the walk of a processor calls, if it walks, and that is an entry
    /// that calls one.
    #[inline(never)]
    fn hook_on(&self, cpu: u32) -> Option<u32>
        ensures { WalkAsks self.now.head self.now.events cpu result }
    {
        let account = &self.account;
        if !account.flights.walks(cpu) {
            return None;
        }
        let armed = account.processors.armed(cpu);
        account.flights.hook_asked(&self.table, cpu, armed)
    }

    /// Makes an entry that is due: where its hook decides, that is called once, and isn't lent.
    ///
    /// Takes no memory. After `cpuhp_invoke_callback` of `kernel/cpu.c`; which faults are overruled
    /// is this project's own.
    pub fn make_entry(&mut self, entry: &Entry)
        requires stands { CanMakeEntry self.old entry.now }
        requires home { HasHook self.old entry.now }
        ensures { self.new ≡ with_entry self.old entry.now }
    {
        match entry.made_by {
            MadeBy::Hook => {
                let state = entry.key.state;
                let answer = self.table.call(state, entry.cpu, entry.key.inst, entry.dir);
                let how = entry.how(answer);
                self.account.append_entry(
                    &mut self.journal,
                    &mut self.coming,
                    &self.table,
                    entry,
                    how,
                );
            }
            _ => {
                let how = entry.how(0);
                self.account.append_entry(
                    &mut self.journal,
                    &mut self.coming,
                    &self.table,
                    entry,
                    how,
                );
            }
        }
    }

    /// Makes an entry that is due by the answer of its hook, which was lent, and puts the hook home; the entry's
    /// processor isn't among those for which hooks are lent then.
    ///
    /// The hook has counted the call since, and this is its answer. Takes no memory. After
    /// `cpuhp_invoke_callback` of `kernel/cpu.c`; that hooks are lent is this project's own.
    pub fn make_answered(&mut self, entry: &Entry, hook: H, answer: u32)
        requires stands { CanMakeEntry self.old entry.now }
        requires by_hook { entry.now.made_by ≡ ByHook }
        requires lent { is_home (step_of self.old entry.now) ≡ false }
        requires back { HasCountedCall (H.counts hook) self.old entry.now }
        requires answer { IsAnswered answer self.old entry.now }
        ensures made { self.new ≡ with_entry (lending self.old self.new.lent) entry.now }
        ensures taken { IsTaken entry.now.cpu self.old.lent self.new.lent }
    {
        self.lent.take(entry.cpu);
        self.table.restore(entry.key.state, hook);
        let how = entry.how(answer);
        self.account.append_entry(&mut self.journal, &mut self.coming, &self.table, entry, how);
    }
}

/// The entry that is under way, where it is this seat's to make.
pub(crate) fn due_from(coming: &Option<NextStep>, seat: u32) -> Option<Entry>
    ensures { result ≡ due_by seat coming.now }
{
    match coming {
        Some(
            NextStep::Entry {
                entry: Some(entry),
                ..
            },
        ) if entry.seat == seat => Some(*entry),
        _ => None,
    }
}
