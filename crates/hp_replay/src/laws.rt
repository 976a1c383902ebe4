//! What holds of the text of journals and of its reader's answers.
//!
//! The functions have no work to do: their contracts are the laws, which callers cite. One of them
//! looks at each event, so that its numbers are known to fit.

ghost use Rattle.std.specs.Prelude.{◌≡◌, ◌↔◌, ℕ, ◌<◌, ◌^◌, Some, List, [], ◌∷◌, codes};
ghost use Rattle.hp_states.specs.declared.plan.Rule.{Rule as ARule};
ghost use Rattle.hp_event.specs.declared.head.Head.{Head as AHead};
ghost use Rattle.hp_event.specs.declared.head.Sub.{Sub as ASub};
ghost use Rattle.hp_model.specs.Words.{line};
ghost use Rattle.hp_model.specs.Heads.{IsHead};
ghost use Rattle.hp_model.specs.Lawful.{Stands};
ghost use Rattle.hp_event.specs.declared.version.Version.{Version as AVersion};
ghost use Rattle.hp_event.specs.declared.version.Version.TheVariants.{Two};
ghost use Rattle.hp_model.specs.EventLine.{event_line};
ghost use Rattle.hp_replay.specs.declared.event.NumberedEvent.{NumberedEvent as ANumberedEvent};
ghost use Rattle.hp_replay.specs.Fits.{IsU32};
ghost use Rattle.hp_replay.specs.Versions.{numbered_event};
ghost use Rattle.hp_replay.specs.Spelled.{IsSpelled};
ghost use Rattle.hp_replay.specs.EventAt.{event_at};
ghost use Rattle.hp_replay.specs.HeadLines.{a_sub, a_rule, the_events, cpus_at};
ghost use Rattle.hp_replay.specs.EndAt.{end_at};
ghost use Rattle.hp_replay.specs.InputLines.{lines_of};
ghost use Rattle.hp_replay.specs.Stages.{begins};
ghost use Rattle.hp_replay.specs.Judged.{Outcome, accepted, Judged};
ghost use Rattle.hp_replay.specs.Judge.{Test, IsTest, judge};
ghost use Rattle.hp_replay.specs.Verdict.{IsVerdict, IsReplay, AcceptsTexts, RefusesIfLong, AreOneByText};
ghost use Rattle.hp_replay.specs.Spellings.{IfSaid, IsEventLine, HaveSameLine, IsCpusLine, SpellsAbsent, absent_text, SaysAbsent, SaysInHead, IsSubLine, IsRuleLine, end_text};
ghost use Rattle.hp_replay.specs.Stories.{IsLawfulStory, IsShort, IsItsText, IsAccepted};

use crate::fits::events_fit;
use hp_event::{Event, Head, Journal};

/// In each version the line of an event says that event, and the number of its operation where the version
/// has it, where the numbers are within their fields' types and the text can say it.
pub fn event_is_read(event: &Event)
    ensures { (v : AVersion) (n : ℕ) → IsU32 n → IfSaid event.now
        (event_at v (event_line v n event.now) ≡ Some (numbered_event v n event.now)) }
{}

/// A line that says an event is that event's line, byte for byte, and the event is such a one.
pub fn read_event_is_spelled(line: &[u8])
    ensures { (v : AVersion) (said : ANumberedEvent) → event_at v line.now ≡ Some said → IsEventLine v line.now said }
{}

/// A line says one event at most, and no two events have the same line.
pub fn line_says_one(one: &Event, other: &Event)
    ensures { (v : AVersion) → IfSaid one.now (IfSaid other.now (HaveSameLine v one.now other.now → one.now ≡ other.now)) }
{}

/// What stands after events can be said by the text.
#[tactic(auto, using(crate::proofs::SpelledLaws::stands_spelled))]
pub fn standing_is_spelled(head: &Head, before: &[Event], event: &Event)
    ensures { Stands head.now before.now event.now → IsSpelled event.now }
{}

/// The line of the possible processors: what is read is a number in its range, and so spelled.
pub fn cpus_line(bytes: &[u8])
    ensures { (v : AVersion) (n : ℕ) → (cpus_at v bytes.now ≡ Some n) ↔ IsCpusLine v bytes.now n }
{}

/// The line of the absent processors: what is read rises, from 1 to the last possible one, and is so
/// spelled; and that of a head is read.
pub fn absent_line(bytes: &[u8])
    ensures spelled { (possible : ℕ) (absent : List ℕ) → SpellsAbsent possible bytes.now absent }
    ensures read { (head : AHead) → IsHead head → bytes.now ≡ absent_text head.absent → SaysAbsent head bytes.now }
{}

/// The lines of subsystems and rules, and the line after which the events stand.
pub fn head_line(bytes: &[u8])
    ensures sub { (sub : ASub) → SaysInHead bytes.now (a_sub sub) ↔ IsSubLine bytes.now sub }
    ensures rule { (rule : ARule) → SaysInHead bytes.now (a_rule rule) ↔ IsRuleLine bytes.now rule }
    ensures events { SaysInHead bytes.now the_events ↔ (bytes.now ≡ line (codes "events" ∷ [])) }
{}

/// The line after the events, with a number that fits: what is read is so spelled.
pub fn end_line(bytes: &[u8])
    ensures { (n : ℕ) → n < 2 ^ 64 → (end_at bytes.now ≡ Some n) ↔ (bytes.now ≡ end_text n) }
{}

/// What is judged line by line is the verdict in the grammar's words, and the other way round. So an
/// input has at most one.
pub fn judged_is_verdict(input: &[u8])
    ensures verdict { (v : AVersion) (o : Outcome) → Judged v begins 1 (lines_of input.now) o → IsVerdict v input.now o }
    ensures judged { (v : AVersion) (o : Outcome) → IsVerdict v input.now o → Judged v begins 1 (lines_of input.now) o }
    ensures one { (v : AVersion) (a b : Outcome) → IsVerdict v input.now a → IsVerdict v input.now b → a ≡ b }
{}

/// A journal is accepted in a version exactly where the input isn't too long and is the text of that lawful
/// journal in that version, or its text and its summary. There is one answer at most.
pub fn accepted_is_text(input: &[u8])
    ensures accepted { (v : AVersion) → AcceptsTexts v input.now }
    ensures too_long { (v : AVersion) (o : Outcome) → RefusesIfLong v input.now o }
    ensures one { (v : AVersion) (a b : Outcome) → IsReplay v input.now a → IsReplay v input.now b → a ≡ b }
{}

/// With a test of whether an event stands, the verdict is a function.
pub fn judge_is_verdict(input: &[u8])
    ensures { (v : AVersion) (can : Test) → IsTest can → IsVerdict v input.now (judge v can begins 1 (lines_of input.now)) }
{}

/// In each version a text is that of one journal.
pub fn text_says_one(one: &Head, events: &[Event], other: &Head, others: &[Event])
    ensures { (v : AVersion) → AreOneByText v one.now events.now other.now others.now }
{}

/// The text in version 2 of a lawful journal that the code holds is accepted, alone and with its summary, as that
/// of its own head and events, where it isn't too long. As there is one answer at most, whoever
/// answers to it says these.
///
/// It looks at each event, since of the numbers of a definition it isn't known that they fit.
pub fn text_is_accepted(journal: &Journal, text: &[u8])
    ensures { IsLawfulStory journal.now → IsShort text.now → IsItsText text.now journal.now →
        IsAccepted Two text.now journal.now }
{
    events_fit(journal.events());
}
