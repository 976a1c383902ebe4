//! What the files of a processor show.

ghost use Rattle.std.specs.Prelude.{◌≡◌, ◌<◌, ◌≤◌, ◌+◌, pos};
ghost use Rattle.hp_states.specs.declared.limits.TheConstants.{ONLINE as ONLINE_OF};
ghost use Rattle.hp_model.specs.Files.{file_value};
ghost use Rattle.hp_model.specs.Shown.{shown, shown_target};
ghost use Rattle.hp_machine.specs.CanShow.{CanShow};
ghost use Rattle.hp_machine.specs.NamedIn.{named_in};

use crate::machine::Machine;
use hp_event::File;
use hp_hook::Hook;
use hp_states::ONLINE;
use hp_table::Table;

impl<H: Hook> Machine<H> {
    /// The number that a file shows: of `state`, `target` and `fail` for a possible processor, of `states`
    /// how many states have names.
    ///
    /// For `states` no registration is in flight. Takes no memory, and for `states` time for the states. After
    /// `state_show`, `target_show`, `fail_show` and `states_show` of `kernel/cpu.c`; what `state` and `target` show
    /// in flight, `target` after a stuck walk and before the boot processor's first, and the number for `states`,
    /// are this project's own.
    pub(crate) fn file_value(&self, file: File, cpu: u32) -> i32
        requires { CanShow self.now.head self.now.events file cpu }
        ensures { result ≡ file_value self.now.head self.now.events file cpu }
    {
        match file {
            File::State => as_number(self.shown(cpu)),
            File::Target => as_number(self.shown_target(cpu)),
            File::Fail => match self.account.processors.armed(cpu) {
                Some(state) => as_number(state),
                None => -1,
            },
            File::States => as_number(count_named(&self.table)),
        }
    }

    /// The state that a possible processor's `state` file shows: that where it stands, and in a walk
    /// that of the last crossing that is done. Takes no memory. After `state_show` of `kernel/cpu.c`;
    /// what it shows in flight is this project's own.
    pub(crate) fn shown(&self, cpu: u32) -> u32
        requires { cpu < self.now.head.possible }
        ensures { result ≡ shown self.now.head cpu self.now.events }
    {
        match self.account.flights.flight(cpu) {
            Some(flight) => flight.walk.shown(),
            None => self.state(cpu),
        }
    }

    /// The state that a possible processor's `target` file shows: that where it stands, and in a walk that
    /// to which it goes. Takes no memory. After `target_show` of `kernel/cpu.c`; what it shows in flight, after
    /// a stuck walk, and of the boot processor before its first walk, which is 0 there, is this project's own.
    fn shown_target(&self, cpu: u32) -> u32
        requires { cpu < self.now.head.possible }
        ensures { result ≡ shown_target cpu self.now.events }
    {
        match self.account.flights.flight(cpu) {
            Some(flight) => flight.walk.target(),
            None => self.state(cpu),
        }
    }
}

/// How many states have names.
fn count_named<H: Hook>(table: &Table<H>) -> u32
    ensures { result ≡ named_in table.now (ONLINE_OF + 1) }
{
    let mut named = 0;
    for state in 0..ONLINE + 1 {
        if table.is_named(state) {
            named += 1;
        }
    }
    named
}

/// A state or a count of states, as a file shows it.
fn as_number(shown: u32) -> i32
    ensures { shown ≤ ONLINE_OF + 1 → result ≡ pos shown }
{
    i32::try_from(shown).unwrap_or(i32::MAX)
}
