//! Hooks that are lent, and that come back.

ghost use Rattle.std.specs.Prelude.{◌≡◌};
ghost use Rattle.hp_board.specs.Answered.{answer_of_loan};

use hp_event::Key;
use hp_hook::Hook;
use hp_states::Dir;
use std::marker::Model;
use std::snapshot::Snapshot;

/// A hook that is lent for an entry that is due, to be called outside the board.
///
/// Contracts see the entry and what the hook has counted (`Aside`). It must be spent: `call` calls the
/// hook. That hooks are lent is this project's own.
pub struct Loan<H: Hook> {
    pub(crate) hook: H,
    pub(crate) cpu: u32,
    pub(crate) key: Key,
    pub(crate) dir: Dir,
}

impl<H: Hook> Model for Loan<H> {
    ghost use Rattle.std.specs.Prelude.{◌<◌};
    ghost use Rattle.hp_board.specs.Answered.{aside_of};
    ghost use Rattle.hp_event.specs.declared.aside.Aside.{Aside};
    ghost use Rattle.hp_states.specs.declared.limits.TheConstants.{MAX_EVENTS};

    ghost Value = { Aside };

    ghost view = { λ l. aside_of l.cpu l.key l.dir (H.counts l.hook) };

    ghost invariant = { λ l. (H.counts l.hook).made < MAX_EVENTS };
}

/// A hook that has answered the call that it was lent for.
///
/// Contracts see the same as of the loan: what the hook has counted and answered since is by that
/// (`IsAnswered`). It must be spent: `Board::give` puts the hook home. That hooks are lent is this
/// project's own.
pub struct Back<H: Hook> {
    pub(crate) hook: H,
    pub(crate) was: Snapshot<H>,
    pub(crate) cpu: u32,
    pub(crate) key: Key,
    pub(crate) dir: Dir,
    pub(crate) answer: u32,
}

impl<H: Hook> Model for Back<H> {
    ghost use Rattle.hp_event.specs.declared.aside.Aside.{Aside};
    ghost use Rattle.hp_board.specs.Answered.{IsAnswered, aside_of};

    ghost Value = { Aside };

    ghost view = { λ b. aside_of b.cpu b.key b.dir (H.counts b.was.value) };

    ghost invariant = { λ b. IsAnswered (aside_of b.cpu b.key b.dir (H.counts b.was.value)) (H.counts b.hook) b.answer };
}

impl<H: Hook> Loan<H> {
    /// The state whose hook it is. Takes no memory. That hooks are lent is this project's own.
    pub fn state(&self) -> u32
        ensures { result ≡ self.now.key.state }
    {
        self.key.state
    }

    /// Calls the hook once, for the entry that it is lent for. Takes no memory. After
    /// `cpuhp_invoke_callback` of `kernel/cpu.c`; that it is called outside is this project's own.
    pub fn call(self) -> Back<H>
        ensures { result ≡ self }
    {
        let Loan {
            mut hook,
            cpu,
            key,
            dir,
        } = self;
        let was = Snapshot::of(&hook);
        let answer = hook.call(cpu, key.inst, dir);
        Back {
            hook,
            was,
            cpu,
            key,
            dir,
            answer,
        }
    }
}

impl<H: Hook> Back<H> {
    /// What the hook answered: 0, or the code of a fault. Takes no memory.
    ///
    /// While the hook was away no call at its state was made, so that this is what the subsystem's plan
    /// answers by the journal (`Board::sound`). That hooks are lent is this project's own.
    pub fn answer(&self) -> u32
        ensures { result ≡ answer_of_loan self.now }
    {
        self.answer
    }
}
