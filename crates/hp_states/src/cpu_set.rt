//! Sets of processors.

ghost use Rattle.std.specs.Prelude.{◌≡◌, ◌<◌, ◌≤◌, ◌==◌, ◌&&◌, ◌||◌, not, true, false, ℕ, IfSome, IfNone};
ghost use Rattle.hp_states.specs.declared.limits.TheConstants.{MAX_CPU_SET as MAX_CPU_SET_OF};
ghost use Rattle.hp_states.specs.CpuSets.{bit, has, IsLowestBit, IsLowestFrom, HasNoneFrom};

/// A set of processors: the numbers from 0 to 255 that it has.
///
/// After `cpumask` of `linux/cpumask.h`; that it has 256 places is this project's own.
#[derive(Clone, Copy, Debug, PartialEq, Eq)]
pub struct CpuSet {
    /// The set has `cpu` where bit `cpu % 64` of the word `cpu / 64` is set.
    pub words: [u64; 4],
}

impl CpuSet {
    /// The empty set. Takes no memory.
    pub fn none() -> CpuSet
        ensures { (cpu : ℕ) → has result cpu ≡ false }
    {
        CpuSet { words: [0; 4] }
    }

    /// Whether the set has a processor, whose number is at most 255.
    ///
    /// Takes no memory. After `cpumask_test_cpu` of `linux/cpumask.h`.
    pub fn has(&self, cpu: u32) -> bool
        requires { cpu < MAX_CPU_SET_OF }
        ensures { result ≡ has self.now cpu }
    {
        let word = self.words[(cpu / 64) as usize];
        (word >> (cpu % 64)) % 2 == 1
    }

    /// Whether no number from 0 to 255 is in the set.
    ///
    /// Takes no memory, and a constant time. After `cpumask_empty` of `linux/cpumask.h`.
    pub fn is_empty(&self) -> bool
        ensures empty { result ≡ true → (cpu : ℕ) → has self.now cpu ≡ false }
        ensures some { result ≡ false → (cpu : ℕ) × (cpu < MAX_CPU_SET_OF) × (has self.now cpu ≡ true) }
    {
        self.first_from(0).is_none()
    }

    /// The lowest processor in the set whose number is at least `from`. None where there is none, as
    /// where `from` is above 255.
    ///
    /// `from` may be any number. Takes no memory, and a constant time: a step for each word from that of
    /// `from` on. After `cpumask_next` of `linux/cpumask.h`, which begins above the number that it is given.
    pub fn first_from(&self, from: u32) -> Option<u32>
        ensures some { IfSome result (λ cpu. IsLowestFrom self.now from cpu) }
        ensures none { IfNone result (HasNoneFrom self.now from) }
    {
        for at in from / 64..4 {
            if let Some(bit) = lowest_bit(self.words[at as usize], from.saturating_sub(64 * at)) {
                return Some(64 * at + bit);
            }
        }
        None
    }

    /// Puts a processor into the set, whose number is at most 255; where it is there nothing changes.
    ///
    /// Takes no memory. After `cpumask_set_cpu` of `linux/cpumask.h`.
    pub fn put(&mut self, cpu: u32)
        requires { cpu < MAX_CPU_SET_OF }
        ensures { (other : ℕ) → has self.new other ≡ (other == cpu || has self.old other) }
    {
        let at = (cpu / 64) as usize;
        self.words[at] = self.words[at] | (1u64 << (cpu % 64));
    }

    /// Takes a processor out of the set, whose number is at most 255; where it isn't there nothing changes.
    ///
    /// Takes no memory. After `cpumask_clear_cpu` of `linux/cpumask.h`.
    pub fn take(&mut self, cpu: u32)
        requires { cpu < MAX_CPU_SET_OF }
        ensures { (other : ℕ) → has self.new other ≡ (not (other == cpu) && has self.old other) }
    {
        let at = (cpu / 64) as usize;
        self.words[at] = self.words[at] & !(1u64 << (cpu % 64));
    }
}

/// The lowest bit from one on that is set in a word.
fn lowest_bit(word: u64, from: u32) -> Option<u32>
    requires { from < 64 }
    ensures some { IfSome result (λ n. IsLowestBit word from n) }
    ensures none { IfNone result ((n : ℕ) → from ≤ n → bit word n ≡ false) }
{
    let rest = word >> from;
    if rest == 0 {
        return None;
    }
    Some(from + rest.trailing_zeros())
}
