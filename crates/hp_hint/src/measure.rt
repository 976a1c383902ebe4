//! What the words of a line are measured by.

ghost use Rattle.std.specs.Prelude.{◌≡◌};
ghost use Rattle.hp_hint.specs.Forms.{possible_of};

/// What is asked of the words of a line.
#[derive(Clone, Copy, Debug, PartialEq, Eq)]
pub enum Measure {
    /// That they are of the form of such a line, be its numbers in range or not.
    Form,
    /// That each of its numbers is in its range too, where so many processors are possible.
    Ranges(u32),
}

impl Measure {
    /// How many processors are possible; 0 where that isn't asked. Takes no memory.
    pub fn possible(self) -> u32
        ensures { result ≡ possible_of self }
    {
        match self {
            Measure::Form => 0,
            Measure::Ranges(possible) => possible,
        }
    }
}
