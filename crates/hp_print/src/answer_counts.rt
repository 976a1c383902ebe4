//! How operations were answered.

ghost use Rattle.std.specs.Prelude.{◌≡◌};
ghost use Rattle.hp_model.specs.Summary.{is_kind, ok, refused, fault, stuck, full};
ghost use Rattle.hp_print.specs.Counts.{one_more_if};

use hp_event::Answer;

/// How many operations were answered in each of the five ways.
#[derive(Clone, Copy)]
pub struct AnswerCounts {
    pub ok: usize,
    pub refused: usize,
    pub fault: usize,
    pub stuck: usize,
    pub full: usize,
}

impl AnswerCounts {
    /// The counts before any event.
    pub fn new() -> AnswerCounts
        ensures { result ≡ record { ok = 0; refused = 0; fault = 0; stuck = 0; full = 0 } }
    {
        AnswerCounts {
            ok: 0,
            refused: 0,
            fault: 0,
            stuck: 0,
            full: 0,
        }
    }

    /// Counts one answer more.
    pub fn count(&mut self, answer: Answer)
        ensures ok { self.new.ok ≡ one_more_if (is_kind ok answer) self.old.ok }
        ensures refused { self.new.refused ≡ one_more_if (is_kind refused answer) self.old.refused }
        ensures fault { self.new.fault ≡ one_more_if (is_kind fault answer) self.old.fault }
        ensures stuck { self.new.stuck ≡ one_more_if (is_kind stuck answer) self.old.stuck }
        ensures full { self.new.full ≡ one_more_if (is_kind full answer) self.old.full }
    {
        match answer {
            Answer::Ok(_) => self.ok = self.ok.saturating_add(1),
            Answer::Refused(_) => self.refused = self.refused.saturating_add(1),
            Answer::Fault(_) => self.fault = self.fault.saturating_add(1),
            Answer::Stuck { .. } => self.stuck = self.stuck.saturating_add(1),
            Answer::LogFull => self.full = self.full.saturating_add(1),
        }
    }
}
