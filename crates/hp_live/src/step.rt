//! One step of a seat on the board, and what a hook that it lent answers.

ghost use Rattle.std.specs.Prelude.{◌≡◌, ◌≢◌, ℕ, None, is_some};
ghost use Rattle.hp_board.specs.Hooks.{HasItsHook};
ghost use Rattle.hp_board.specs.Loans.{loan};
ghost use Rattle.hp_machine.specs.MayAsk.{MayAsk};
ghost use Rattle.hp_live.specs.HeldSteps.{KeepsAsk, ServesOut, WaitsOut};
ghost use Rattle.hp_live.specs.Steps.{StepsOn, ServesOn, lent_by, stepped_by};

use hp_board::{Ask, Back, Board, Loan, Turn};
use hp_hook::Hook;
use hp_states::NoMemory;

/// What a section of a seat did. It must be spent: a hook that was lent has to be called.
pub(crate) enum Step<H: Hook> {
    /// A turn was taken.
    Turned(Turn),
    /// The hook of the entry that is due was lent.
    Lent(Loan<H>),
}

/// What a section of a seat did, once the hook that it lent was called.
#[derive(Clone, Copy)]
pub(crate) enum Stepped {
    /// A turn was taken, or a hook was given back and its entry made.
    Turned(Turn),
    /// The hook of this state was lent and called, and the seat carries its answer.
    Lent { state: u32 },
}

impl Stepped {
    /// Whether a client's operation is in flight after this, where it was or wasn't before.
    pub(crate) fn is_busy(&self, before: bool) -> bool {
        match self {
            Stepped::Turned(Turn::Made { .. }) => true,
            Stepped::Turned(Turn::Answered { .. }) => false,
            _ => before,
        }
    }
}

/// Calls the hook that a step lent, if it lent one, and puts it with its answer where none is.
pub(crate) fn keep<H: Hook>(back: &mut Option<Back<H>>, step: Step<H>) -> Stepped
    requires { back.old ≡ None }
    ensures back { back.new ≡ lent_by step }
    ensures stepped { result ≡ stepped_by step }
{
    match step {
        Step::Turned(turn) => Stepped::Turned(turn),
        Step::Lent(loan) => {
            let state = loan.state();
            let nothing = back.replace(loan.call());
            let None = nothing else { unreachable!() };
            Stepped::Lent { state }
        }
    }
}

/// Lends the hook of the entry that is due from a client's seat, or takes a turn of the seat where none can
/// be lent.
pub(crate) fn lend_or_turn<H: Hook>(
    board: &mut Board<H>,
    by: u32,
    ask: &mut Ask<H>,
) -> Result<Step<H>, NoMemory>
    requires allowed { MayAsk board.old by ask.old.op }
    requires hook { HasItsHook board.old by ask.old.op ask.old.hook }
    requires nothing { loan board.old by ≡ None }
    ensures step { StepsOn by ask.old.op (is_some ask.old.hook) (is_some ask.new.hook)
        board.old board.new result }
    ensures op { ask.new.op ≡ ask.old.op }
    ensures others { (k : ℕ) → k ≢ by → loan board.new k ≡ loan board.old k }
    ensures waits { WaitsOut board.old by ask.old.op result }
    ensures ask { KeepsAsk H.counts board.old by ask.old ask.new result }
{
    if let Some(loan) = board.lend(by) {
        return Ok(Step::Lent(loan));
    }
    match board.turn(by, ask) {
        Ok(turn) => Ok(Step::Turned(turn)),
        Err(NoMemory) => Err(NoMemory),
    }
}

/// Lends the hook of the entry that is due from a thread's seat, or takes a turn of the seat where none can
/// be lent.
pub(crate) fn lend_or_serve<H: Hook>(board: &mut Board<H>, by: u32) -> Step<H>
    requires nothing { loan board.old by ≡ None }
    ensures step { ServesOn by board.old board.new result }
    ensures others { (k : ℕ) → k ≢ by → loan board.new k ≡ loan board.old k }
    ensures waits { ServesOut board.old by result }
{
    match board.lend(by) {
        Some(loan) => Step::Lent(loan),
        None => Step::Turned(board.serve(by)),
    }
}
