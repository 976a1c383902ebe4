//! Numbers as words say them.

ghost use Rattle.std.specs.Prelude.{◌≡◌, ℕ, ◌<◌, ◌^◌, IfSome, IfNone, decimal};

use hp_text::long_number;

/// The number that a word is the digits of: without a sign, and without zeros before others.
///
/// None where the word is of another form, or where the number isn't below 2 ^ 64.
pub fn number_of(word: &str) -> Option<u64>
    ensures some { IfSome result (λ n. word.now ≡ decimal n) }
    ensures none { IfNone result ((n : ℕ) → n < 2 ^ 64 → word.now ≡ decimal n → ⊥) }
{
    long_number(word.as_bytes()).ok()
}
