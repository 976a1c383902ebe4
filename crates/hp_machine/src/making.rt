//! The making of an event that is no entry.

ghost use Rattle.std.specs.Prelude.{◌≡◌, ◌+◌, ◌<◌, ◌≤◌, ◌++◌, ◌∷◌, ◌==◌, [], length, false, OnOk, OnErr, IsSome};
ghost use Rattle.hp_account.specs.Accounted.{IsAccounted};
ghost use Rattle.hp_account.specs.Table.{IsTableOf};
ghost use Rattle.hp_account.specs.TableChanges.{is_registering, HandsHook, HandsAsItStood, ChangesTable};
ghost use Rattle.hp_machine.specs.Contents.{with_event};
ghost use Rattle.hp_machine.specs.Machine.{IsMachine};
ghost use Rattle.hp_model.specs.Events.{is_call};
ghost use Rattle.hp_model.specs.Lawful.{Stands};
ghost use Rattle.hp_model.specs.Needs.{need as need_of, taken};
ghost use Rattle.hp_states.specs.declared.limits.TheConstants.{MAX_EVENTS};
ghost use Rattle.hp_machine.specs.StandsNext.{CanMake, room_of, CanTouchHooks, BringsHook};

use crate::machine::Machine;
use hp_account::{Account, NextStep, change_table};
use hp_event::{Event, Journal, JournalError};
use hp_hook::Hook;
use hp_states::NoMemory;
use hp_table::Table;

impl<H: Hook> Machine<H> {
    /// Makes an event that stands and is no entry. `need` is the room that it takes.
    ///
    /// This is the one place where room is reserved, what the event needs besides is made ready, and the room
    /// is given back where memory is wanting for that. The begin of a setup takes its hook, and where the end
    /// of a registration hands a hook out it is in `hook` then. Where a registration begins or ends no hook is
    /// lent. Takes memory where the event takes room, if the journal, the seats or the state's instances have
    /// no spare place; where that is wanting nothing has changed: `NoMemory`.
    #[inline(always)]
    pub fn make(&mut self, event: &Event, need: u32, hook: &mut Option<H>) -> Result<(), NoMemory>
        requires stands { CanMake self.old event.now }
        requires no_entry { is_call event.now ≡ false }
        requires need { need ≡ room_of self.old event.now }
        requires brings { BringsHook event.now hook.old }
        requires home { CanTouchHooks event.now self.old.places }
        ensures made { OnOk result (self.new ≡ with_event self.old event.now) }
        ensures hands { OnOk result (HandsHook self.old.events event.now hook.new) }
        ensures hook { OnOk result (HandsAsItStood H.counts self.old.events event.now self.old.places hook.new) }
        ensures left { OnOk result (is_registering event.now ≡ false → hook.new ≡ hook.old) }
        ensures err { OnErr result ((self.new ≡ self.old) × (hook.new ≡ hook.old)) }
        ensures memory { OnErr result (IsSome (need_of self.old.head self.old.events event.now)) }
    {
        reserve(&mut self.journal, need)?;
        match put(
            &mut self.journal,
            &mut self.account,
            &mut self.coming,
            &mut self.table,
            event,
            need,
            hook,
        ) {
            Ok(()) => Ok(()),
            Err(NoMemory) => {
                self.journal.give_back(need);
                Err(NoMemory)
            }
        }
    }
}

/// Reserves the room that an event takes, of which there is enough.
///
/// Takes memory where that is some and the journal has not so many spare places; where that is wanting
/// nothing has changed: `NoMemory`.
fn reserve(journal: &mut Journal, need: u32) -> Result<(), NoMemory>
    requires fits { length journal.old.events + journal.old.promised + need ≤ MAX_EVENTS }
    ensures ok { OnOk result (journal.new ≡ record journal.old { promised = journal.old.promised + need }) }
    ensures memory { OnErr result (0 < need) }
    ensures err { OnErr result (journal.new ≡ journal.old) }
{
    if need == 0 {
        return Ok(());
    }
    match journal.reserve(need) {
        Ok(()) => Ok(()),
        Err(JournalError::NoMemory) => Err(NoMemory),
        Err(JournalError::Full) => unreachable!(),
    }
}

/// Changes the table as an event does that stands and is no entry, or takes what the seat needs that it lets
/// in, and appends it. The room that it takes is reserved. What is under way then is in `coming`.
///
/// Takes memory where an instance is added or a seat let in; where that is wanting nothing has changed:
/// `NoMemory`.
#[inline(always)]
fn put<H: Hook>(
    journal: &mut Journal,
    account: &mut Account,
    coming: &mut Option<NextStep>,
    table: &mut Table<H>,
    event: &Event,
    need: u32,
    hook: &mut Option<H>,
) -> Result<(), NoMemory>
    requires kept { IsAccounted journal.old need account.old }
    requires stands { Stands journal.old.head journal.old.events event.now }
    requires no_entry { is_call event.now ≡ false }
    requires room { need ≡ taken (need_of journal.old.head journal.old.events event.now) }
    requires table { IsTableOf journal.old.head journal.old.events table.old }
    requires brings { BringsHook event.now hook.old }
    requires home { CanTouchHooks event.now table.old }
    ensures machine { OnOk result (IsMachine journal.new account.new coming.new table.new) }
    ensures head { OnOk result (journal.new.head ≡ journal.old.head) }
    ensures events { OnOk result (journal.new.events ≡ journal.old.events ++ event.now ∷ []) }
    ensures changed { OnOk result (ChangesTable journal.old event.now table.old table.new) }
    ensures hands { OnOk result (HandsHook journal.old.events event.now hook.new) }
    ensures hook { OnOk result (HandsAsItStood H.counts journal.old.events event.now table.old hook.new) }
    ensures left { OnOk result (is_registering event.now ≡ false → hook.new ≡ hook.old) }
    ensures err { OnErr result ((journal.new ≡ journal.old) × (account.new ≡ account.old)) }
    ensures still { OnErr result ((coming.new ≡ coming.old) × (table.new ≡ table.old)) }
    ensures returned { OnErr result (hook.new ≡ hook.old) }
    ensures memory { OnErr result (IsSome (need_of journal.old.head journal.old.events event.now)) }
{
    match *event {
        Event::Admit { role, .. } => account.admit(journal, coming, table, role),
        _ => {
            change_table(table, journal, account, event, hook)?;
            account.append(journal, coming, table, event, need);
            Ok(())
        }
    }
}
