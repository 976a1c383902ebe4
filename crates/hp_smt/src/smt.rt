//! SMT control over a machine.

ghost use Rattle.std.specs.Prelude.{◌≡◌, ◌≤◌, true, None};
ghost use Rattle.hp_model.specs.Headline.{Headline};
ghost use Rattle.hp_model.specs.Lawful.{IsLawful};
ghost use Rattle.hp_model.specs.MapLock.{operation};
ghost use Rattle.hp_model.specs.Registrations.{registration};
ghost use Rattle.hp_smt.specs.Modes.{is_off};
ghost use Rattle.hp_smt.specs.Shut.{ArePrimaries};
ghost use Rattle.hp_smt.specs.Siblings.{lowest_of};
ghost use Rattle.hp_smt.specs.Sound.{IsSmt};
ghost use Rattle.hp_smt.specs.Writes.{at_rest};

use crate::mode::Mode;
use crate::setting::{Setting, Write};
use hp_board::Board;
use hp_hook::Hook;
use hp_states::CpuSet;
use std::marker::Model;

/// A machine with SMT control: of each core, so many processors in a row, the first is the primary, and the others are
/// its siblings, which can be kept off.
///
/// Contracts see the machine, the threads of a core, and the setting. At any time, while the mode is Off or ForceOff, no
/// sibling is online, nor can what is in flight bring one up; and a write in flight has brought up, of what was recorded
/// as it began, all that isn't recorded any more. No hook is lent. After `cpu_smt_control` of `kernel/cpu.c`; the record
/// and the waits are this project's own.
#[derive(Drop)]
pub struct Smt<H: Hook> {
    pub(crate) board: Board<H>,
    /// 2 to 8.
    pub(crate) threads: u32,
    pub(crate) setting: Setting,
}

impl<H: Hook> Model for Smt<H> {
    ghost use Rattle.hp_smt.specs.Contents.{Controlled};
    ghost use Rattle.hp_smt.specs.Sound.{IsSmt};

    ghost Value = { Controlled };

    ghost view = { λ s. record {
      board = s.board;
      threads = s.threads;
      setting = s.setting;
    } };

    ghost invariant = { λ s. IsSmt s.board s.threads s.setting };
}

impl<H: Hook> Smt<H> {
    /// Control of a machine whose cores have so many threads, 2 to 8.
    ///
    /// No operation is in flight. The mode is On, nothing is recorded, and no write is in flight. Takes no memory.
    pub fn over(board: Board<H>, threads: u32) -> Smt<H>
        requires at_least_two { 2 ≤ threads }
        requires at_most_eight { threads ≤ 8 }
        requires no_operation { operation board.events ≡ None }
        requires no_registration { registration board.events ≡ None }
        ensures board { result.board ≡ board }
        ensures threads { result.threads ≡ threads }
        ensures setting { result.setting ≡ at_rest Mode.On result.setting.recorded }
        ensures none { lowest_of result.setting.recorded ≡ None }
    {
        board.sound();
        Smt {
            board,
            threads,
            setting: Setting::start(),
        }
    }

    /// Whether no operation of a machine is in flight, as `over` asks it. Takes no memory.
    pub fn is_at_rest(board: &Board<H>) -> bool
        ensures operation { result ≡ true → operation board.now.events ≡ None }
        ensures registration { result ≡ true → registration board.now.events ≡ None }
        ensures always { operation board.now.events ≡ None → registration board.now.events ≡ None → result ≡ true }
    {
        board.holder().is_none() && board.registrar().is_none()
    }

    /// The machine. Takes no memory.
    pub fn board(&self) -> &Board<H>
        ensures { result.now ≡ self.now.board }
    {
        &self.board
    }

    /// The machine alone, as it stands: control of it is given up, and a write in flight with it. Takes no memory. This
    /// project's own.
    pub fn into_board(self) -> Board<H>
        ensures { result ≡ self.board }
    {
        let Smt { board, .. } = self;
        board
    }

    /// The mode. Takes no memory.
    pub fn mode(&self) -> Mode
        ensures { result ≡ self.now.setting.mode }
    {
        self.setting.mode
    }

    /// The processors that writes of Off and ForceOff took down, and that no write of On has brought up since. Takes no
    /// memory.
    pub fn recorded(&self) -> CpuSet
        ensures { result ≡ self.now.setting.recorded }
    {
        self.setting.recorded
    }

    /// The write in flight, if one is. Takes no memory.
    pub fn write(&self) -> Option<Write>
        ensures { result ≡ self.now.setting.write }
    {
        self.setting.write
    }

    /// What is so of SMT control at any time, which callers cite: it does nothing.
    ///
    /// While the mode is Off or ForceOff every processor that is online is a primary. The journal is lawful, and has the
    /// headline. No hook is lent, and a write in flight is under way, as `specs/Sound.antt` says. Takes no memory. This
    /// project's own.
    pub fn sound(&self)
        ensures kept { IsSmt self.now.board self.now.threads self.now.setting }
        ensures primaries { is_off self.now.setting.mode ≡ true → ArePrimaries self.now.threads self.now.board.events }
        ensures lawful { IsLawful self.now.board.head self.now.board.events }
        ensures headline { Headline self.now.board.head self.now.board.events }
    {
        // what is so of it is known once a field is read
        self.board.sound();
    }
}
