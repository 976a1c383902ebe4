//! Whether items stand once.

ghost use Rattle.std.specs.Prelude.{◌≡◌, ◌⊎◌, ◌↔◌, ◌<◌, ◌≤◌, ◌-◌, ◌^◌, true, false, IfOk, IsTrue, length, min, slice_index_or, slice_set, sum};
ghost use Rattle.hp_caches.specs.Contents.{IsEachOnce};

use hp_states::NoMemory;
use std::alloc::Global;

/// Whether among these items each below a count stands exactly once, and nothing else does.
///
/// Takes memory for a mark for each; where that is wanting: `NoMemory`. Takes time for the items and the count.
pub fn is_each_once(alloc: Global, items: &[u32], count: u32) -> Result<bool, NoMemory>
    ensures { IfOk result (λ yes. IsTrue yes ↔ IsEachOnce count items.now) }
{
    let mut seen = Vec::new(alloc);
    seen.resize(count as usize, false)?;
    for place in 0..items.len() {
        if !mark(&mut seen, items[place]) {
            return Ok(false);
        }
    }
    Ok(!seen.contains(&false))
}

/// Marks an item as seen. False where it was, or where there is no place for it.
fn mark(seen: &mut [bool], item: u32) -> bool
    ensures marked { result ≡ true → (item < length seen.old) ×
        ((slice_index_or seen.old item false ≡ false) × (seen.new ≡ slice_set seen.old item true)) }
    ensures refused { result ≡ false → (length seen.old ≤ item) ⊎ (slice_index_or seen.old item false ≡ true) }
{
    let place = item as usize;
    if place >= seen.len() || seen[place] {
        return false;
    }
    seen[place] = true;
    true
}

/// The sum of these items, or the most that there can be. Takes no memory.
pub fn sum_of(items: &[u32]) -> u64
    ensures { result ≡ min (sum items.now) (2 ^ 64 - 1) }
{
    let mut sum: u64 = 0;
    for place in 0..items.len() {
        sum = sum.saturating_add(u64::from(items[place]));
    }
    sum
}
