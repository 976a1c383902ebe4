//! Sets of processors and their numbers.

ghost use Rattle.std.specs.Prelude.{◌≡◌, ℕ, ◌<◌, List, [], ◌∷◌, ◌++◌};
ghost use Rattle.std.specs.List.Sorted.{IsStrictlyIncreasing};
ghost use Rattle.hp_states.specs.declared.limits.TheConstants.{MAX_CPU_SET};
ghost use Rattle.hp_model.specs.Listed.{listed};
ghost use Rattle.hp_model.specs.SetOf.{set_of, FitSet, IsSet};

use hp_states::CpuSet;

/// The set of numbers that rise and are at most 255 lists these numbers.
#[tactic(auto, using(crate::proofs::SetLemmas::increasing_listed))]
pub fn numbers_are_listed(numbers: &[u32])
    ensures { IsStrictlyIncreasing numbers.now → FitSet numbers.now →
        listed (set_of numbers.now) ≡ numbers.now }
{}

/// A set that the code holds has four words of 64 bits, and is that of the numbers that it lists.
#[inline(always)]
pub fn set_is_of_its_numbers(set: CpuSet)
    ensures words { IsSet set }
    ensures numbers { set_of (listed set) ≡ set }
{}

/// Puts one number more, which is at most 255, into the set of some numbers.
///
/// Takes no memory. After `cpumask_set_cpu` of `linux/cpumask.h`.
#[inline(always)]
pub fn put_number(set: &mut CpuSet, cpu: u32)
    requires { cpu < MAX_CPU_SET }
    ensures { (ns : List ℕ) → set.old ≡ set_of ns → set.new ≡ set_of (ns ++ cpu ∷ []) }
{
    set.put(cpu);
    set_is_of_its_numbers(*set);
}
