//! What each version of the text has.

ghost use Rattle.std.specs.Prelude.{◌≡◌};
ghost use Rattle.hp_replay.specs.Versions.{most_cpus as most_cpus_of, has_seat as has_seat_of};

use hp_event::{Event, Version};
use hp_states::MAX_CPUS;

/// The most processors of a journal that has a text in version 1.
pub const MAX_CPUS_OF_ONE: u32 = 64;
/// The most seats of one.
pub const MAX_SEATS_OF_ONE: u32 = 96;

/// The most processors of a journal that has a text in a version.
pub fn most_cpus(version: Version) -> u32
    ensures { result ≡ most_cpus_of version }
{
    match version {
        Version::One => MAX_CPUS_OF_ONE,
        Version::Two => MAX_CPUS,
    }
}

/// Whether a seat that comes in is one of a version's.
pub fn has_seat(version: Version, event: &Event) -> bool
    ensures { result ≡ has_seat_of version event.now }
{
    match (version, event) {
        (Version::One, Event::Admit { seat, .. }) => *seat < MAX_SEATS_OF_ONE,
        _ => true,
    }
}
