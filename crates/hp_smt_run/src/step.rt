//! One turn of an actor under SMT control.

ghost use Rattle.std.specs.Prelude.{◌≡◌, OnOk, None, length};
ghost use Rattle.hp_actors.specs.RunInvariant.{HasHook, MayAskNext};
ghost use Rattle.hp_smt.specs.Writes.{write_by};
ghost use Rattle.hp_smt_run.specs.Asked.{IsStepped};
ghost use Rattle.hp_smt_run.specs.Hooks.{HasHooksUnder};

use hp_actors::Actor;
use hp_board::Turn;
use hp_event::Answer;
use hp_hook::Hook;
use hp_smt::{Smt, SmtTurn};
use hp_states::{EPERM, NoMemory};

/// What an actor notes of an operation that was denied: it has ended.
const DENIED: Turn = Turn::Answered {
    at: None,
    answer: Answer::Refused(EPERM),
};

/// One turn of an actor's seat: a turn of the machine under SMT control for its first operation that isn't answered, and
/// nothing where all are. One that is denied has ended, and its seat is noted. The other operations keep their hooks.
///
/// Takes memory as the machine's turn does, and for what is noted.
pub(crate) fn step<H: Hook>(
    actor: &mut Actor<H>,
    smt: &mut Smt<H>,
    denied: &mut Vec<u32>,
    seat: u32,
) -> Result<(), NoMemory>
    requires allowed { MayAskNext smt.old.board seat actor.old }
    requires hook { HasHook smt.old.board.events seat actor.old }
    requires no_write { write_by seat smt.old.setting.write ≡ None }
    ensures stepped { OnOk result (IsStepped seat smt.old smt.new actor.old actor.new denied.old.items denied.new.items) }
    ensures hooks { OnOk result (HasHooksUnder H.counts smt.old seat actor.old actor.new) }
{
    smt.sound();
    smt.board().sound();
    actor.sound();
    let Some(ask) = actor.ask() else {
        return Ok(());
    };
    match smt.turn(seat, ask)? {
        SmtTurn::Denied => {
            actor.note(DENIED);
            denied.push(seat)?;
        }
        SmtTurn::Board(turn) => actor.note(turn),
    }
    Ok(())
}
