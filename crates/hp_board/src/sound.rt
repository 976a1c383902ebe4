//! What holds of a board at any time.

ghost use Rattle.hp_board.specs.Loans.{AreOut, AreLoans};
ghost use Rattle.hp_account.specs.Table.{IsTableOf};
ghost use Rattle.hp_model.specs.Lawful.{IsLawful};
ghost use Rattle.hp_table.specs.Sound.{IsSound};

use crate::board::Board;
use hp_hook::Hook;

impl<H: Hook> Board<H> {
    /// What is so of every board, which callers cite: it does nothing.
    ///
    /// Its journal is lawful, what stands at each state is what the journal says, the states are those of a
    /// table, 201 in all, and a hook that is lent is that of an entry that is due: `AreOut` says which are
    /// away, and `IsLoan` the five facts of what is lent to a seat. Takes no memory. This project's own.
    pub fn sound(&self)
        ensures lawful { IsLawful self.now.head self.now.events }
        ensures table { IsTableOf self.now.head self.now.events self.now.places }
        ensures places { IsSound self.now.places }
        ensures out { AreOut self.now }
        ensures loans { AreLoans self.now }
    {
        // what is so of every board
        let _ = &self.machine;
        self.machine.sound();
    }
}
