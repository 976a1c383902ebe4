//! Why no output is written.

ghost use Rattle.std.specs.Prelude.{◌≡◌};
ghost use Rattle.hp_play.specs.Stops.{stop_of};

use hp_edge::NoScript;
use hp_io::ReadError;
use hp_states::NoMemory;

/// Why a command has no output: nothing is written, or a line that says why.
#[derive(Drop)]
pub enum Stop {
    /// The script is refused, with this line.
    BadScript(Vec<u8>),
    /// The journal is refused, with this line.
    BadJournal(Vec<u8>),
    /// A read failed.
    ReadFault,
    /// Memory was wanting.
    NoMemory,
}

impl From<NoMemory> for Stop {
    ghost use Rattle.std.specs.Prelude.{◌≡◌};
    ghost use Rattle.hp_play.specs.declared.stop.Stop.TheVariants.{NoMemory};

    ghost from_gives = { λ _ e. e ≡ NoMemory };

    fn from(_: NoMemory) -> Stop {
        Stop::NoMemory
    }
}

impl Stop {
    /// The stop of a source that wasn't read.
    pub fn of_read(error: ReadError) -> Stop
        ensures failed { error ≡ ReadError.Failed → result ≡ Stop.ReadFault }
        ensures no_memory { error ≡ ReadError.NoMemory → result ≡ Stop.NoMemory }
    {
        match error {
            ReadError::Failed => Stop::ReadFault,
            ReadError::NoMemory => Stop::NoMemory,
        }
    }
    /// The stop where there is no script.
    pub fn of_script(error: NoScript) -> Stop
        ensures { result ≡ stop_of error }
    {
        match error {
            NoScript::Refused(line) => Stop::BadScript(line),
            NoScript::ReadFault => Stop::ReadFault,
            NoScript::NoMemory => Stop::NoMemory,
        }
    }
}
