//! The numbers of operations.

ghost use Rattle.std.specs.Prelude.{◌≤◌, length, IfOk};
ghost use Rattle.hp_states.specs.declared.limits.TheConstants.{MAX_EVENTS};
ghost use Rattle.hp_timeline.specs.Numbers.{AreNumbers};

use hp_event::Event;
use hp_print::OperationNumbers;
use std::alloc::{AllocError, Global};

/// Of each event the number of its operation, at the event's place.
pub fn numbers_of(alloc: Global, events: &[Event]) -> Result<Vec<u32>, AllocError>
    requires { length events.now ≤ MAX_EVENTS }
    ensures { IfOk result (λ numbers. AreNumbers events.now numbers.items) }
{
    let mut begun = OperationNumbers::new(alloc);
    let mut numbers = Vec::new(alloc);
    numbers.reserve(events.len())?;
    for event in events {
        let number = begun.take(event)?;
        numbers.push(number)?;
    }
    Ok(numbers)
}
