//! A law of the words, as a function with an empty body.

ghost use Rattle.std.specs.Prelude.{map, string_bytes};
ghost use Rattle.hp_view.specs.Options.{AsksOnce};

/// Words ask for one window at most.
pub fn words_ask_once(words: &[String])
    ensures { AsksOnce (map string_bytes words.now) }
{}
