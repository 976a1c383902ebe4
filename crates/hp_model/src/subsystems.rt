//! The subsystems of a head, by their numbers.

ghost use Rattle.std.specs.Prelude.{◌≡◌};
ghost use Rattle.hp_model.specs.Subsystems.{is_multi as is_multi_of};

use hp_event::Head;

/// Whether the states of the subsystem of a number have instance lists; false where the number is
/// none of the head's.
///
/// Takes no memory. The rule is `is_multi` of `specs/Subsystems.antt`.
pub fn is_multi(head: &Head, number: u32) -> bool
    ensures { result ≡ is_multi_of head.now number }
{
    match head.sub(number) {
        None => false,
        Some(sub) => sub.multi,
    }
}
