//! The machine of a journal's checker.

ghost use Rattle.std.specs.Prelude.{◌≡◌, ◌↔◌, ◌++◌, ◌∷◌, ◌≤◌, [], true, false, IsTrue, IfOk, OnOk, OnErr, length, is_some};
ghost use Rattle.hp_account.specs.TableChanges.{brings_hook};
ghost use Rattle.hp_model.specs.Heads.{IsHead};
ghost use Rattle.hp_account.specs.Entries.{entry_event};
ghost use Rattle.hp_model.specs.Events.{is_call, seat_of};
ghost use Rattle.hp_model.specs.How.{answer_at};
ghost use Rattle.hp_model.specs.Lawful.{IsLawful, Stands};
ghost use Rattle.hp_model.specs.Needs.{need as room_need, taken};
ghost use Rattle.hp_law.specs.Asked.{IsOfOperation};
ghost use Rattle.hp_law.specs.EntryOf.{IsEntryOf};
ghost use Rattle.hp_law.specs.RoomOf.{IsRoomOf};
ghost use Rattle.hp_states.specs.declared.limits.TheConstants.{MAX_EVENTS};

use crate::asked::asked_by;
use crate::same::same;
use hp_account::Entry;
use hp_event::{Event, Head, Journal, Op};
use hp_hook::ScriptHook;
use hp_machine::{Machine, Next, names_sub};
use hp_states::NoMemory;
use std::alloc::Global;
use std::marker::Model;

/// A journal's checker: the events that it took, and what they amount to.
///
/// Contracts see the head and the events (`Taken`), which are a lawful journal at any time. It has a
/// hook for each registered state, which answers by its subsystem's plan, and no hook of anybody else's.
#[derive(Drop)]
pub struct Law {
    machine: Machine<ScriptHook>,
}

impl Model for Law {
    ghost use Rattle.hp_table.specs.Step.{AllHome};
    ghost use Rattle.hp_law.specs.Law.{Taken};

    ghost Value = { Taken };

    ghost view = { λ l. record { head = l.machine.head; events = l.machine.events } };

    ghost invariant = { λ l. AllHome l.machine.places };
}

impl Law {
    /// The checker of a journal with this head, which has taken no event.
    ///
    /// The head is that of a lawful journal. Takes memory for the table's 201 places and for some places
    /// for each possible processor; where there is none: `NoMemory`.
    pub fn start(alloc: Global, head: &Head) -> Result<Law, NoMemory>
        requires { IsHead head.now }
        ensures { IfOk result (λ law. law ≡ record { head = head.now; events = [] }) }
    {
        let machine = Machine::start(alloc, head.copy()?)?;
        Ok(Law { machine })
    }

    /// Whether an event can stand next: it is where the rules let it come, and there is room for what it
    /// needs.
    ///
    /// Any event may be asked for. Takes no memory, and a time that doesn't grow with the number of
    /// events. Which events stand after which is this project's own, after the calls of `kernel/cpu.c`.
    pub fn can_stand(&self, event: &Event) -> bool
        ensures { IsTrue result ↔ Stands self.now.head self.now.events event.now }
    {
        self.room_of(event).is_some()
    }

    /// Takes an event more, which can stand next.
    ///
    /// Takes memory where the journal, the seats or a state's instances have no spare place; where that
    /// is wanting nothing has changed: `NoMemory`. Takes a time that doesn't grow with the number of
    /// events.
    pub fn take(&mut self, event: &Event) -> Result<(), NoMemory>
        requires { Stands self.old.head self.old.events event.now }
        ensures ok { OnOk result (self.new
            ≡ record { head = self.old.head; events = self.old.events ++ event.now ∷ [] }) }
        ensures err { OnErr result (self.new ≡ self.old) }
    {
        match *event {
            Event::Call { seat, .. } => {
                // it can stand, so it is taken where it is offered
                self.offer_call(seat, event);
                Ok(())
            }
            _ => {
                let need = self.machine.need(event);
                self.take_with_room(event, need)
            }
        }
    }

    /// Takes an event more if it can stand next, and answers whether it can.
    ///
    /// Any event may be offered: this is `can_stand` and `take` in one, which looks once for what comes
    /// next. Where the event can't stand nothing has changed. Takes memory where the journal, the seats
    /// or a state's instances have no spare place; where that is wanting the event can stand, and nothing
    /// has changed: `NoMemory`. Takes a time that doesn't grow with the number of events.
    pub fn offer(&mut self, event: &Event) -> Result<bool, NoMemory>
        ensures stands { IfOk result (λ stood. IsTrue stood ↔ Stands self.old.head self.old.events event.now) }
        ensures taken { IfOk result (λ stood. IsTrue stood → self.new
            ≡ record { head = self.old.head; events = self.old.events ++ event.now ∷ [] }) }
        ensures refused { IfOk result (λ stood. stood ≡ false → self.new ≡ self.old) }
        ensures lawful { OnErr result (Stands self.old.head self.old.events event.now) }
        ensures err { OnErr result (self.new ≡ self.old) }
    {
        match *event {
            Event::Call { seat, .. } => Ok(self.offer_call(seat, event)),
            _ => match self.room_of(event) {
                Some(need) => {
                    self.take_with_room(event, need)?;
                    Ok(true)
                }
                None => Ok(false),
            },
        }
    }

    /// What is so of every checker, which callers cite: it does nothing.
    ///
    /// What it took is a lawful journal, of `MAX_EVENTS` events at most. Takes no memory. This project's own.
    pub fn sound(&self)
        ensures lawful { IsLawful self.now.head self.now.events }
        ensures few { length self.now.events ≤ MAX_EVENTS }
    {
        self.machine.sound();
        // a journal says so where its length is asked for
        let _ = self.machine.journal().len();
    }

    /// How many events it took, 0 to `MAX_EVENTS`. Takes no memory.
    pub fn len(&self) -> u32
        ensures { result ≡ length self.now.events }
    {
        self.machine.journal().len()
    }

    /// The machine that took the events, to be asked what comes next of a seat, or what it waits for.
    ///
    /// Its journal has this head and the events that were taken. Takes no memory. This project's own.
    pub fn machine(&self) -> &Machine<ScriptHook>
        ensures head { result.now.head ≡ self.now.head }
        ensures events { result.now.events ≡ self.now.events }
    {
        &self.machine
    }

    /// The journal of the events that it took, with nothing promised. Takes no memory.
    pub fn into_journal(self) -> Journal
        ensures { result ≡ record { head = self.head; events = self.events; promised = 0 } }
    {
        let (mut journal, _) = self.machine.into_parts();
        journal.give_back(journal.promised());
        journal
    }

    /// Takes a call more of this seat if it can stand next, and answers whether it can.
    fn offer_call(&mut self, seat: u32, event: &Event) -> bool
        requires call { is_call event.now ≡ true }
        requires seat { seat_of event.now ≡ seat }
        ensures stands { IsTrue result ↔ Stands self.old.head self.old.events event.now }
        ensures taken { IsTrue result → self.new
            ≡ record { head = self.old.head; events = self.old.events ++ event.now ∷ [] } }
        ensures refused { result ≡ false → self.new ≡ self.old }
    {
        match self.entry_of(seat, event) {
            Some(entry) => {
                self.machine.make_entry(&entry);
                true
            }
            None => false,
        }
    }

    /// Takes an event more that is no call, which can stand next and takes so much room of its own.
    fn take_with_room(&mut self, event: &Event, need: u32) -> Result<(), NoMemory>
        requires stands { Stands self.old.head self.old.events event.now }
        requires no_call { is_call event.now ≡ false }
        requires need { need ≡ taken (room_need self.old.head self.old.events event.now) }
        ensures ok { OnOk result (self.new
            ≡ record { head = self.old.head; events = self.old.events ++ event.now ∷ [] }) }
        ensures err { OnErr result (self.new ≡ self.old) }
    {
        self.machine.make(event, need, &mut hook_for(event))
    }

    /// The room that an event takes of its own, where it can stand next. None where it can't.
    fn room_of(&self, event: &Event) -> Option<u32>
        ensures { IsRoomOf self.now.head self.now.events event.now result }
    {
        self.machine.sound();
        match *event {
            Event::Admit { seat, role } => self.machine.can_admit(seat, role).then_some(2),
            Event::Leave { seat } => self.machine.can_leave(seat).then_some(0),
            Event::Call { seat, .. } => self.entry_of(seat, event).is_some().then_some(0),
            _ => self.comes_next(event),
        }
    }

    /// The entry that a call of this seat makes, where it can stand next. None where it can't.
    fn entry_of(&self, seat: u32, event: &Event) -> Option<Entry>
        requires call { is_call event.now ≡ true }
        requires seat { seat_of event.now ≡ seat }
        ensures { IsEntryOf self.now.head self.now.events event.now result }
    {
        self.machine.sound();
        match self.machine.due(seat) {
            Some(entry) => self.makes(&entry, event).then_some(entry),
            None => None,
        }
    }

    /// Whether an event is that of an entry of its seat: a call at its place, made as the entry is.
    fn makes(&self, entry: &Entry, event: &Event) -> bool
        requires { seat_of event.now ≡ entry.now.seat }
        ensures { IsTrue result ↔ (entry_event self.now.head self.now.events entry.now ≡ event.now) }
    {
        match *event {
            Event::Call {
                cpu,
                state,
                inst,
                dir,
                how,
                ..
            } => {
                cpu == entry.cpu
                    && state == entry.key.state
                    && inst == entry.key.inst
                    && dir == entry.dir
                    && how == entry.how(self.answer_to(entry))
            }
            _ => false,
        }
    }

    /// What the hook of an entry's state answers to it by the rules of its subsystem, and 0 where none stands there.
    ///
    /// Any entry may be asked for; the hook isn't called. Takes no memory, and time for the rules. That hooks answer
    /// by rules is this project's own.
    pub fn answer_to(&self, entry: &Entry) -> u32
        ensures { result
            ≡ answer_at self.now.head self.now.events entry.now.cpu entry.now.key.state entry.now.key.inst entry.now.dir }
    {
        self.machine.sound();
        match self.machine.table().step(entry.key.state) {
            Some(record) => record
                .home_hook()
                .answer_to(entry.cpu, entry.key.inst, entry.dir),
            None => 0,
        }
    }

    /// The room that an event of an operation takes of its own, where it comes next of its seat. None
    /// where it doesn't.
    fn comes_next(&self, event: &Event) -> Option<u32>
        requires { IsOfOperation event.now }
        ensures { IsRoomOf self.now.head self.now.events event.now result }
    {
        self.machine.sound();
        let seat = event.seat();
        let op = asked_by(event);
        if !self.machine.is_client(seat) {
            return None;
        }
        if !names_sub(self.machine.journal().head(), &op) {
            return None;
        }
        match self.machine.next(seat, &op) {
            Next::Event { event: next, need } => same(&next, event).then_some(need),
            _ => None,
        }
    }
}

/// The hook that an event brings: that of a setup which begins.
fn hook_for(event: &Event) -> Option<ScriptHook>
    ensures { is_some result ≡ brings_hook event.now }
{
    match event {
        Event::RegBegin {
            op: Op::Setup { .. },
            ..
        } => Some(ScriptHook::new()),
        _ => None,
    }
}
