//! Words, one after another.

ghost use Rattle.std.specs.Prelude.{◌≡◌, ℕ, List, option_map};
ghost use Rattle.hp_text.specs.Words.{first_of, others_of};

/// The words of a line that are left to be read.
///
/// How a line is parted into words is each text's own rule, and so is who reads it.
pub trait Words<'a> {
    /// The words that are left.
    ghost left: { Self → List (List ℕ) };

    /// The next word, which is then no longer left. None where no word is left. Takes no memory.
    fn next_word(&mut self) -> Option<&'a [u8]>
        ensures word { option_map (λ w. w.now) result ≡ first_of (left self.old) }
        ensures rest { left self.new ≡ others_of (left self.old) };
}
