//! The end of a board.

ghost use Rattle.std.specs.Prelude.{◌≡◌, ◌≢◌, true, ◌+◌, ◌<◌, ◌≤◌, ℕ, Some, [], ◌∷◌, ◌++◌, IfOk, IfErr, IfSome, IfNone, OnOk, OnErr, vec_len, vec_capacity};
ghost use Rattle.hp_states.specs.declared.limits.TheConstants.{ONLINE};
ghost use Rattle.hp_board.specs.Retired.{IsRacked, hook_at, hooks_of, PutsBehind, PutsRegistered};
ghost use Rattle.hp_table.specs.Step.{step_at, is_home, AllHome};

use crate::board::Board;
use hp_event::Journal;
use hp_hook::{Hook, Rack};
use hp_states::{NoMemory, ONLINE};
use hp_table::Table;

/// How many states there are: a table has a place for each.
const STATES: usize = ONLINE as usize + 1;

impl<H: Hook> Board<H> {
    /// Gives the board up: its journal is answered, and its hooks go behind those of the rack, in rising
    /// state.
    ///
    /// Each hook is as it stood, with its plan and its counts. While no registration is in flight they are
    /// those of the registered states, and have counted the calls of the journal since each setup began;
    /// while one is, the hook of a setup is among them too. What is in flight is left as it is. No hook is
    /// lent.
    /// - `NoMemory` where memory for places in the rack was wanting. The board is handed back as it was
    ///   then, and the rack has the same hooks.
    ///
    /// Takes memory for places in the rack alone, and time for the states. This project's own.
    pub fn retire(self, rack: &mut Rack<H>) -> Result<Journal, (NoMemory, Board<H>)>
        requires { AllHome self.places }
        ensures head { IfOk result (λ journal. journal.head ≡ self.head) }
        ensures events { IfOk result (λ journal. journal.events ≡ self.events) }
        ensures hooks { OnOk result (PutsBehind H.counts rack.old rack.new (hooks_of self.places)) }
        ensures registered { OnOk result (PutsRegistered H.counts self rack.old rack.new) }
        ensures err { IfErr result (λ refused. refused.1 ≡ self) }
        ensures rack { OnErr result (rack.new.hooks.items ≡ rack.old.hooks.items) }
    {
        if rack.hooks.try_reserve(STATES).is_err() {
            return Err((NoMemory, self));
        }
        let Board { machine, .. } = self;
        machine.sound();
        let (journal, table) = machine.into_parts();
        move_hooks(table, &mut rack.hooks);
        Ok(journal)
    }

    /// Gives the board up with its hooks, and answers its journal. What is in flight is left as it is.
    ///
    /// Takes no memory. This project's own.
    pub fn into_journal(self) -> Journal
        ensures head { result.head ≡ self.head }
        ensures events { result.events ≡ self.events }
    {
        let Board { machine, .. } = self;
        let (journal, _) = machine.into_parts();
        journal
    }
}

/// Moves the hooks of a table behind others, which have places for as many. Takes no memory.
fn move_hooks<H: Hook>(table: Table<H>, hooks: &mut Vec<H>)
    requires room { vec_len hooks.old + (ONLINE + 1) ≤ vec_capacity hooks.old }
    requires home { AllHome table }
    ensures { IsRacked H.counts
        hooks.old.items hooks.new.items (hooks_of table) }
{
    table.sound();
    let mut table = table;
    for state in 0..ONLINE + 1 {
        put(hooks, take_hook(&mut table, state));
    }
}

/// Puts a hook, if there is one, behind others, which have a place for it. Takes no memory.
fn put<H: Hook>(hooks: &mut Vec<H>, hook: Option<H>)
    requires { vec_len hooks.old < vec_capacity hooks.old }
    ensures some { IfSome hook (λ h. hooks.new.items ≡ hooks.old.items ++ h ∷ []) }
    ensures none { IfNone hook (hooks.new.items ≡ hooks.old.items) }
    ensures length { vec_len hooks.new ≤ vec_len hooks.old + 1 }
    ensures places { vec_capacity hooks.new ≡ vec_capacity hooks.old }
{
    if let Some(hook) = hook {
        hooks.push_reserved(hook);
    }
}

/// Takes the hook of a state out of a table, with its instances, if one is registered there.
fn take_hook<H: Hook>(table: &mut Table<H>, state: u32) -> Option<H>
    requires { is_home (step_at table.old state) ≡ true }
    ensures hook { IfSome result (λ h. hook_at (step_at table.old state) ≡ H.counts h ∷ []) }
    ensures none { IfNone result (hook_at (step_at table.old state) ≡ []) }
    ensures others { (s : ℕ) → s ≢ state → step_at table.new s ≡ step_at table.old s }
{
    table.clear_instances(state);
    match table.uninstall(state) {
        Ok(record) => Some(record.into_hook()),
        Err(_) => None,
    }
}
