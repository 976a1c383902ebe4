//! Writes of control.

ghost use Rattle.std.specs.Prelude.{◌≡◌, ◌<◌, ◌&&◌, true, IfOk, OnOk, OnErr, Some, None, not};
ghost use Rattle.hp_model.specs.Lists.{is_empty};
ghost use Rattle.hp_model.specs.Suspend.{frozen};
ghost use Rattle.hp_model.specs.Seats.{role_of};
ghost use Rattle.hp_event.specs.declared.event.Role.TheVariants.{Client};
ghost use Rattle.hp_smt.specs.declared.mode.Control.{Control as ControlOf};
ghost use Rattle.hp_board.specs.HookLaws.{HasAsManyHooks};
ghost use Rattle.hp_smt.specs.Brought.{BringsAllUp};
ghost use Rattle.hp_smt.specs.Hooks.{KeepsEachHook};
ghost use Rattle.hp_model.specs.Settled.{is_online};
ghost use Rattle.hp_smt.specs.Siblings.{is_sibling as is_sibling_of, sibling_online as sibling_online_of};
ghost use Rattle.hp_smt.specs.Sound.{CanGoOn, MayWrite};
ghost use Rattle.hp_smt.specs.Turns.{IsControl, IsGoneOn, IsFinished, current_of, WantsRoom, OwnTakesRoom};
ghost use Rattle.hp_smt.specs.Writes.{gone_on, gone_on_with, own_cpu as own_cpu_of, write_by};

use crate::mode::Control;
use crate::setting::{Gone, Setting, Write, gone_by, lowest_of};
use crate::siblings::is_sibling;
use crate::smt::Smt;
use hp_board::{Ask, Turn};
use hp_event::Answer;
use hp_hook::Hook;
use hp_locks::Why;
use hp_model::set_is_of_its_numbers;
use hp_states::{EBUSY, NoMemory};

impl<H: Hook> Smt<H> {
    /// One turn of a client's seat for a write of control.
    ///
    /// The seat is in as a client, and has nothing in flight but this write. At the first turn of a write the first of
    /// these that holds decides:
    /// - Refused(16) where another seat's write is in flight.
    /// - Refused(1) where the mode is ForceOff.
    /// - Ok(0) where the write is of the mode that there is, but for a write of On while some processor is recorded.
    ///
    /// Else the same turn goes on. A write of Off or ForceOff makes the mode Closing. At each turn that isn't in the middle
    /// of a `down` of its own the first of these holds:
    /// - A sibling is online: the lowest is taken down by a `down`. Where that answers Ok(0) it is recorded; where it
    ///   answers otherwise the write answers that, and the mode is what it was before the write.
    /// - `NotYet` while some seat holds the map lock.
    /// - Refused(16) while hotplug is disabled or a processor is frozen, and the mode is what it was.
    /// - Ok(0), and the mode is Off or ForceOff.
    ///
    /// A write of On makes the mode On. It brings each recorded processor up by an `up`, in rising number, which leaves
    /// the record where that answers Ok(0); the first that answers otherwise ends the write with that answer, and with
    /// none left it answers Ok(0).
    ///
    /// A turn that makes an event of the write's own answers `Made`, unless the write is answered by that event.
    /// `Answered` with no place has no event of its own. `NoMemory` where memory was wanting for one: then all is as
    /// before that turn, the mode too. Each state keeps its hook, with its plan and what it has counted; where the event is
    /// a call of it, that is counted too. After `__store_smt_control` of `kernel/cpu.c`;
    /// the turns, the record and the refusal of a write of On are this project's own: there On brings up every
    /// present processor, and nothing where an Off has failed.
    pub fn control(&mut self, by: u32, want: Control) -> Result<Turn, NoMemory>
        requires { MayWrite self.old.board self.old.setting by want }
        ensures turn { IfOk result (IsControl by want self.old self.new) }
        ensures brought { IfOk result (BringsAllUp (current_of self.old by want) self.new) }
        ensures hooks { OnOk result (HasAsManyHooks self.old.board self.new.board) }
        ensures each { OnOk result (KeepsEachHook self.old.board self.new.board) }
        ensures err { OnErr result (self.new ≡ self.old) }
        ensures memory { OnErr result (WantsRoom self.old (current_of self.old by want)) }
    {
        match self.setting.write_by(by) {
            Some(write) => self.go_on(write),
            None => self.begin(by, want),
        }
    }

    /// Whether a turn of a seat may be asked for with this write: exactly where the conditions of `control` hold.
    ///
    /// Takes no memory. This project's own.
    pub fn can_write(&self, by: u32, want: Control) -> bool
        ensures may { result ≡ true → MayWrite self.now.board self.now.setting by want }
        ensures always { MayWrite self.now.board self.now.setting by want → result ≡ true }
    {
        match self.setting.write_by(by) {
            Some(write) => write.want == want && self.is_in(by),
            None => !self.board.is_busy(by) && self.is_in(by),
        }
    }

    /// Whether a seat that has nothing in flight but a write is in as a client. Takes no memory.
    fn is_in(&self, by: u32) -> bool
        ensures client { result ≡ true → role_of by self.now.board.events ≡ Some Client }
        ensures always { (want : ControlOf) → MayWrite self.now.board self.now.setting by want → result ≡ true }
    {
        self.board.sound();
        let ask = Ask {
            op: self.setting.flying_op(by),
            hook: None,
        };
        self.board.can_ask(by, &ask)
    }

    /// The first turn of a write, as `control` says.
    ///
    /// Where memory was wanting for an event nothing has changed: `NoMemory`.
    fn begin(&mut self, by: u32, want: Control) -> Result<Turn, NoMemory>
        requires may { MayWrite self.old.board self.old.setting by want }
        requires none { None ≡ write_by by self.old.setting.write }
        ensures turn { IfOk result (IsControl by want self.old self.new) }
        ensures brought { IfOk result (BringsAllUp (current_of self.old by want) self.new) }
        ensures hooks { OnOk result (HasAsManyHooks self.old.board self.new.board) }
        ensures each { OnOk result (KeepsEachHook self.old.board self.new.board) }
        ensures err { OnErr result (self.new ≡ self.old) }
        ensures memory { OnErr result (WantsRoom self.old (current_of self.old by want)) }
    {
        set_is_of_its_numbers(self.setting.recorded);
        match self.setting.decided(by, want) {
            Some(answer) => Ok(Turn::Answered { at: None, answer }),
            None => {
                let since = self.board.journal().len();
                let write = Write::begin(&self.setting, by, want, since);
                self.go_on(write)
            }
        }
    }

    /// One turn of a write that has begun, or begins: by its own operation on a processor, if it has one to take, and
    /// else towards its end.
    ///
    /// Where memory was wanting for an event nothing has changed: `NoMemory`.
    fn go_on(&mut self, write: Write) -> Result<Turn, NoMemory>
        requires { CanGoOn self.old.board self.old.threads self.old.setting.recorded write }
        ensures turn { IfOk result (IsGoneOn
            (gone_on self.old.board.head self.old.board.events self.old.threads self.old.setting.recorded write)
            (own_cpu_of self.old.board.head self.old.board.events self.old.threads self.old.setting.recorded write)
            write self.old self.new) }
        ensures brought { IfOk result (BringsAllUp write self.new) }
        ensures hooks { OnOk result (HasAsManyHooks self.old.board self.new.board) }
        ensures each { OnOk result (KeepsEachHook self.old.board self.new.board) }
        ensures err { OnErr result (self.new ≡ self.old) }
        ensures memory { OnErr result (WantsRoom self.old write) }
    {
        match self.own_cpu(&write) {
            Some(cpu) => self.take(write, cpu),
            None => Ok(self.finish(write)),
        }
    }

    /// One turn of a write by its own operation on a processor.
    ///
    /// Where memory was wanting for an event nothing has changed: `NoMemory`.
    fn take(&mut self, write: Write, cpu: u32) -> Result<Turn, NoMemory>
        requires going { CanGoOn self.old.board self.old.threads self.old.setting.recorded write }
        requires own { Some cpu ≡ own_cpu_of self.old.board.head self.old.board.events self.old.threads self.old.setting.recorded write }
        ensures turn { IfOk result (IsGoneOn
            (gone_on_with self.old.board.head self.old.board.events self.old.setting.recorded write (Some cpu))
            (Some cpu) write self.old self.new) }
        ensures brought { IfOk result (BringsAllUp write self.new) }
        ensures hooks { OnOk result (HasAsManyHooks self.old.board self.new.board) }
        ensures each { OnOk result (KeepsEachHook self.old.board self.new.board) }
        ensures err { OnErr result (self.new ≡ self.old) }
        ensures memory { OnErr result (OwnTakesRoom self.old.board write (Some cpu)) }
    {
        self.board.sound();
        let recorded = self.setting.recorded;
        set_is_of_its_numbers(recorded);
        let mut ask = Ask {
            op: write.want.own_op(cpu),
            hook: None,
        };
        let turn = self.board.turn(write.seat, &mut ask)?;
        let gone = gone_by(recorded, write, cpu, turn);
        self.setting = gone.setting;
        Ok(gone.turn)
    }

    /// One turn of a write that has no processor left to take. Takes no memory.
    fn finish(&mut self, write: Write) -> Turn
        requires going { CanGoOn self.old.board self.old.threads self.old.setting.recorded write }
        requires none { None ≡ own_cpu_of self.old.board.head self.old.board.events self.old.threads self.old.setting.recorded write }
        ensures turn { IsGoneOn
            (gone_on_with self.old.board.head self.old.board.events self.old.setting.recorded write None)
            None write self.old self.new result }
        ensures brought { BringsAllUp write self.new result }
        ensures hooks { HasAsManyHooks self.old.board self.new.board }
        ensures each { KeepsEachHook self.old.board self.new.board }
    {
        let gone = self.finished(write);
        self.board.sound();
        set_is_of_its_numbers(self.setting.recorded);
        self.setting = gone.setting;
        gone.turn
    }

    /// The processor that a write takes next: the one that its own operation in flight is for; else, for a write of On the
    /// lowest that is recorded, and for the others the lowest sibling that is online. Takes no memory.
    fn own_cpu(&self, write: &Write) -> Option<u32>
        ensures { result ≡ own_cpu_of self.now.board.head self.now.board.events self.now.threads self.now.setting.recorded write.now }
    {
        if write.taking.is_some() {
            return write.taking;
        }
        if write.want.wants_on() {
            lowest_of(&self.setting.recorded)
        } else {
            self.sibling_online()
        }
    }

    /// The lowest sibling that is online, if one is. Takes no memory, and a step for each possible processor.
    fn sibling_online(&self) -> Option<u32>
        ensures { result ≡ sibling_online_of self.now.threads self.now.board.head self.now.board.events }
    {
        for cpu in 0..self.board.journal().head().possible {
            if self.is_sibling_online(cpu) {
                return Some(cpu);
            }
        }
        None
    }

    /// Whether a possible processor is an online sibling. Takes no memory.
    fn is_sibling_online(&self, cpu: u32) -> bool
        requires { cpu < self.now.board.head.possible }
        ensures { result ≡ (is_online cpu self.now.board.events && is_sibling_of self.now.threads cpu) }
    {
        self.board.online(cpu) && is_sibling(self.threads, cpu)
    }

    /// What a turn of a write does that has no processor left to take. Takes no memory.
    fn finished(&self, write: Write) -> Gone
        ensures { IsFinished self.now write result }
    {
        let recorded = self.setting.recorded;
        if !write.want.wants_on() {
            if let Some(seat) = self.board.holder() {
                return Gone {
                    setting: Setting::under(recorded, write),
                    turn: Turn::NotYet(Why::MapsHeld(seat)),
                };
            }
            if self.board.disabled() > 0 || self.has_frozen() {
                return Gone {
                    setting: Setting::rest(write.mode_before(), recorded),
                    turn: Turn::Answered {
                        at: None,
                        answer: Answer::Refused(EBUSY),
                    },
                };
            }
        }
        Gone {
            setting: Setting::rest(write.want.ended(), recorded),
            turn: Turn::Answered {
                at: None,
                answer: Answer::Ok(0),
            },
        }
    }

    /// Whether some processor is frozen. Takes no memory, and a step for each possible processor.
    fn has_frozen(&self) -> bool
        ensures { result ≡ not (is_empty (frozen self.now.board.events)) }
    {
        self.board.sound();
        for cpu in 0..self.board.journal().head().possible {
            if self.board.frozen(cpu) {
                return true;
            }
        }
        false
    }
}
