//! A law of reports, as a function with an empty body.

ghost use Rattle.hp_model.specs.Heads.{IsHead};
ghost use Rattle.hp_print.specs.ReportLaws.{NamesAreUnescaped};

use hp_event::Head;

/// No name of a head's subsystems has a byte that JSON escapes: it stands in a report as it is. It
/// is so by the form of names, whose bytes are letters, digits and five marks.
pub fn names_are_unescaped(head: &Head)
    ensures { IsHead head.now → NamesAreUnescaped head.now }
{}
