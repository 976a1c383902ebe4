//! Why no picture is written.

ghost use Rattle.std.specs.Prelude.{◌≡◌};

use hp_io::ReadError;
use hp_states::NoMemory;

/// Why there is no picture: nothing is written, or a line that says why.
#[derive(Drop)]
pub enum Stop {
    /// The journal has no such window, with this line.
    BadWindow(Vec<u8>),
    /// The journal is refused, with this line.
    BadJournal(Vec<u8>),
    /// A read failed.
    ReadFault,
    /// Memory was wanting.
    NoMemory,
}

impl From<NoMemory> for Stop {
    ghost use Rattle.std.specs.Prelude.{◌≡◌};
    ghost use Rattle.hp_view.specs.declared.stop.Stop.TheVariants.{NoMemory};

    ghost from_gives = { λ _ e. e ≡ NoMemory };

    fn from(_: NoMemory) -> Stop {
        Stop::NoMemory
    }
}

impl Stop {
    /// The stop of a source that wasn't read.
    pub fn of_read(error: ReadError) -> Stop
        ensures failed { error ≡ ReadError.Failed → result ≡ Stop.ReadFault }
        ensures no_memory { error ≡ ReadError.NoMemory → result ≡ Stop.NoMemory }
    {
        match error {
            ReadError::Failed => Stop::ReadFault,
            ReadError::NoMemory => Stop::NoMemory,
        }
    }
}
