//! The states file of a board.

ghost use Rattle.std.specs.Prelude.{◌≡◌, None, IfOk};
ghost use Rattle.hp_files.specs.StatesFile.{states, states_file, name_in};
ghost use Rattle.hp_model.specs.Registrations.{registration};

use crate::board::Board;
use hp_hook::Hook;
use hp_states::NoMemory;

impl<H: Hook> Board<H> {
    /// The bytes of the `states` file after the journal: a line for each state that has a name, in rising
    /// number.
    ///
    /// While no registration is in flight, which is where an operation shows the file, these are the states
    /// that the journal has registered. While a setup is, its state has its name already.
    /// - `NoMemory` where memory for the text is wanting.
    ///
    /// There is no other refusal. Takes memory for the text, and time for the states and the text. The form
    /// is that of `states_show` of `kernel/cpu.c`; that a state is named after its subsystem is this
    /// project's own.
    pub fn states_text(&self) -> Result<Vec<u8>, NoMemory>
        ensures table { IfOk result (λ text. text.items ≡ states_file (name_in self.now.head self.now.places)) }
        ensures journal { registration self.now.events ≡ None →
            IfOk result (λ text. text.items ≡ states self.now.head self.now.events) }
    {
        self.machine.sound();
        let journal = self.machine.journal();
        hp_files::show_states(journal.allocator(), journal.head(), self.machine.table())
    }
}
