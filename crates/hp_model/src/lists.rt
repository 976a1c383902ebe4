//! Small words on lists of numbers.

ghost use Rattle.std.specs.Prelude.{◌≡◌, IfOk};
ghost use Rattle.hp_model.specs.Lists.{without as without_of};

use hp_states::NoMemory;
use std::alloc::Global;

/// The list without a number: all others, in their order.
///
/// It takes a time linear in the list. Takes memory for what it answers; where there is none:
/// `NoMemory`. The rule is `without` of `specs/Lists.antt`.
pub fn without(alloc: Global, number: u32, list: &[u32]) -> Result<Vec<u32>, NoMemory>
    ensures { IfOk result (λ left. left.items ≡ without_of number list.now) }
{
    let mut left = Vec::new(alloc);
    for other in list {
        if *other != number {
            left.push(*other)?;
        }
    }
    Ok(left)
}
