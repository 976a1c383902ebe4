//! Laws of pictures, as functions with empty bodies: their contracts are the laws, which callers cite.

ghost use Rattle.std.specs.Prelude.{length};
ghost use Rattle.hp_model.specs.Heads.{IsHead};
ghost use Rattle.hp_model.specs.Lawful.{IsLawful};
ghost use Rattle.hp_timeline.specs.Windows.{IsWindow};
ghost use Rattle.hp_timeline.specs.Laws.{AreApart, DrawsSpans, EndsOrGoes, FollowsShown, MarksEntries, NamesArePlain};

use crate::window::Window;
use hp_event::{Event, Head};

/// Each entry of the window has exactly one mark, on its processor's lane, at its event's place and at its state; and
/// there are no other marks.
pub fn marks_entries(events: &[Event], window: Window)
    ensures { MarksEntries events.now window }
{}

/// The line of each processor is at the state that its file shows, before and after each event of the window.
pub fn tracks_follow_shown(head: &Head, events: &[Event], window: Window)
    ensures { FollowsShown head.now events.now window }
{}

/// What ends at a place of the window has one bar there, or one shade, and no other: the operation, the walk or the
/// read section that its event ends, or the operation that it answers at once, from its own first event. What is in
/// flight at the window's end has one each, and nothing else is drawn so.
pub fn spans_are_drawn_once(head: &Head, events: &[Event], window: Window)
    ensures { DrawsSpans head.now events.now window }
{}

/// In a lawful journal what is in flight at a place up to the window's end ends in the window from there on, or is in
/// flight at its end and drawn there: an operation, a registration, a walk, a read section. So each operation that the
/// window touches has one bar, each registration too, each walk one shade, and each read section one bar.
pub fn ends_or_goes(head: &Head, events: &[Event], window: Window)
    ensures { IsLawful head.now events.now → IsWindow window (length events.now) → EndsOrGoes head.now events.now window }
{}

/// No two states, of one processor or of two, stand at one height, and no two places of the window in one column.
pub fn apart(window: Window)
    ensures { AreApart window }
{}

/// No name of a head's subsystems has a byte that XML escapes.
pub fn names_are_plain(head: &Head)
    ensures { IsHead head.now → NamesArePlain head.now }
{}
