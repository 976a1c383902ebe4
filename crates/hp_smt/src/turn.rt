//! Turns of clients for operations, and of threads.

ghost use Rattle.std.specs.Prelude.{◌≡◌, ◌↔◌, true, None, Ok, IfOk, OnErr};
ghost use Rattle.hp_board.specs.Hooks.{HasItsHook};
ghost use Rattle.hp_board.specs.Turns.{NextTakesRoom};
ghost use Rattle.hp_machine.specs.MayAsk.{MayAsk};
ghost use Rattle.hp_smt.specs.Hooks.{LeavesHook, HasHookAgain};
ghost use Rattle.hp_smt.specs.Turns.{IsSmtTurn, IsSmtServed, is_denied as is_denied_of};
ghost use Rattle.hp_smt.specs.Writes.{write_by};
ghost use Rattle.hp_smt.specs.declared.turn.SmtTurn.TheVariants.{Denied as denied};

use crate::siblings::is_up_of_sibling;
use crate::smt::Smt;
use hp_board::{Ask, Turn};
use hp_event::Op;
use hp_hook::Hook;
use hp_states::NoMemory;

/// What a turn for an operation did.
#[derive(Clone, Copy, Debug, PartialEq, Eq)]
pub enum SmtTurn {
    /// What the machine's turn did.
    Board(Turn),
    /// The operation would bring a sibling up, or might, and the mode isn't On: it has ended, without an event. EPERM.
    Denied,
}

impl<H: Hook> Smt<H> {
    /// One turn of a client's seat for an operation.
    ///
    /// The seat has no write of control in flight, and the turn is one that the machine can be asked for: see
    /// `Board::turn`.
    /// - `Denied` exactly where the seat has nothing in flight, the mode isn't On, and the operation is an `up` of a
    ///   sibling, a `target` of one at 101 or above, an upmany that lists one, or a boot. That goes before every other
    ///   refusal and every wait. It makes no event, and ends the operation.
    /// - `Board` with what the machine's turn did elsewhere.
    /// - `NoMemory` where memory was wanting for a first event or for the begin of a walk.
    ///
    /// Where nothing was made nothing has changed, the ask neither. After `cpu_smt_allowed` of `kernel/cpu.c`, which
    /// denies a target below online too; in later releases of 6.1 it is `cpu_bootable`.
    pub fn turn(&mut self, by: u32, ask: &mut Ask<H>) -> Result<SmtTurn, NoMemory>
        requires allowed { MayAsk self.old.board by ask.old.op }
        requires hook { HasItsHook self.old.board by ask.old.op ask.old.hook }
        requires no_write { write_by by self.old.setting.write ≡ None }
        ensures turn { IfOk result (IsSmtTurn by ask.old.op self.old self.new) }
        ensures denied { (result ≡ Ok denied) ↔ (is_denied_of self.old by ask.old.op ≡ true) }
        ensures op { ask.new.op ≡ ask.old.op }
        ensures hook { IfOk result (LeavesHook H.counts by self.old ask.old ask.new) }
        ensures again { IfOk result (HasHookAgain by self.new ask.old ask.new) }
        ensures err { OnErr result ((self.new ≡ self.old) × (ask.new ≡ ask.old)) }
        ensures memory { OnErr result (NextTakesRoom self.old.board by ask.old.op) }
    {
        if self.is_denied(by, &ask.op) {
            return Ok(SmtTurn::Denied);
        }
        self.board.sound();
        let turn = self.board.turn(by, ask)?;
        Ok(SmtTurn::Board(turn))
    }

    /// Whether a turn of a seat may be asked for with this: exactly where the conditions of `turn` hold.
    ///
    /// Takes no memory. This project's own.
    pub fn can_ask(&self, by: u32, ask: &Ask<H>) -> bool
        ensures allowed { result ≡ true → MayAsk self.now.board by ask.now.op }
        ensures hook { result ≡ true → HasItsHook self.now.board by ask.now.op ask.now.hook }
        ensures no_write { result ≡ true → write_by by self.now.setting.write ≡ None }
        ensures always { MayAsk self.now.board by ask.now.op → HasItsHook self.now.board by ask.now.op ask.now.hook →
            write_by by self.now.setting.write ≡ None → result ≡ true }
    {
        match self.setting.write_by(by) {
            Some(_) => false,
            None => self.board.can_ask(by, ask),
        }
    }

    /// Whether the first turn of a seat for an operation is denied. Takes no memory.
    fn is_denied(&self, by: u32, op: &Op) -> bool
        ensures { result ≡ is_denied_of self.now by op.now }
    {
        !self.board.is_busy(by) && !self.setting.mode.is_on() && is_up_of_sibling(self.threads, op)
    }

    /// One turn of a thread's seat: the entry that is due from it is made, if one is, as `Board::serve` does. Takes no
    /// memory.
    pub fn serve(&mut self, by: u32) -> Turn
        ensures { IsSmtServed by self.old self.new result }
    {
        self.board.sound();
        self.board.serve(by)
    }
}
