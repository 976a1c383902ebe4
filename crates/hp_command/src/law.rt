//! A law of the commands, as a function with an empty body.

ghost use Rattle.std.specs.Prelude.{map, string_bytes};
ghost use Rattle.hp_command.specs.Commands.{AreOneCommand};

/// Words are those of one command at most.
pub fn words_determine_the_command(words: &[String])
    ensures { AreOneCommand (map string_bytes words.now) }
{}
