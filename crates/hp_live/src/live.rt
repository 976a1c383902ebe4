//! The board as the value of the lock.

ghost use Rattle.std.specs.Prelude.{◌≡◌, length};
ghost use Rattle.hp_live.specs.Lending.{lent_pairs};

use hp_board::Board;
use hp_hook::Hook;
use hp_turn::Grown;

/// A board under the lock. Its story are its events.
#[derive(Drop)]
pub(crate) struct Live<H: Hook + Send> {
    pub(crate) board: Board<H>,
}

impl<H: Hook + Send> Grown for Live<H> {
    ghost head = { λ l. l.board.head };

    ghost story = { λ l. l.board.events };

    ghost aside = { λ l. lent_pairs l.board };

    fn length(&self) -> u64 {
        u64::from(self.board.journal().len())
    }
}
