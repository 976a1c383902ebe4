//! What is written of a run.

ghost use Rattle.std.specs.Prelude.{◌≡◌, None, IfOk};
ghost use Rattle.hp_model.specs.Lawful.{IsLawful};
ghost use Rattle.hp_model.specs.Registrations.{registration};
ghost use Rattle.hp_play.specs.Outputs.{output};
ghost use Rattle.hp_play.specs.Ranges.{CanBeWritten};

use crate::count_line::line_of_count;
use hp_board::Board;
use hp_command::Counting;
use hp_hook::Hook;
use hp_states::NoMemory;
use std::alloc::Global;

/// What is written of a run.
#[derive(Clone, Copy)]
pub enum Output {
    /// The text of its journal, and the summary.
    Journal,
    /// The summary of its journal alone.
    Summary,
    /// The states file after it.
    States,
    /// The report of its journal.
    Report,
    /// The line of counters that went through its journal.
    Count(Counting),
}

/// What is written of the run of a machine, in which no registration is in flight.
///
/// Takes memory for the text; where there is none: `NoMemory`.
pub fn text_of<H: Hook>(alloc: Global, of: Output, board: &Board<H>) -> Result<Vec<u8>, NoMemory>
    requires lawful { IsLawful board.now.head board.now.events }
    requires quiet { registration board.now.events ≡ None }
    requires ranges { CanBeWritten of }
    ensures { IfOk result (λ text. text.items ≡ output of board.now.head board.now.events) }
{
    match of {
        Output::Journal => hp_print::journal_and_summary(alloc, board.journal()),
        Output::Summary => hp_print::summary(alloc, board.journal()),
        Output::States => board.states_text(),
        Output::Report => hp_print::report_json(alloc, board.journal()),
        Output::Count(counting) => line_of_count(alloc, board.journal(), counting),
    }
}
