//! The lines that are written of the walks of a trace.

ghost use Rattle.std.specs.Prelude.{Some};
ghost use Rattle.hp_trace_run.specs.WalkTexts as spec;

use hp_trace_judge::{Misfit, Named, Walks, Way};
use hp_trace_walk::Wrong;
use std::fmt;

/// The word for what a line is of.
#[derive(Clone, Copy)]
pub struct WayWord {
    pub way: Way,
}

impl fmt::Display for WayWord {
    ghost output = { λ w. Some (spec.way_word w.way) };

    fn fmt<W: fmt::Write>(&self, f: &mut fmt::Formatter<W>) -> fmt::Result {
        match self.way {
            Way::Startup => write!(f, "startup"),
            Way::Teardown => write!(f, "teardown"),
            Way::Registration => write!(f, "registration"),
            Way::Begin => write!(f, "begin of a walk"),
            Way::Answer => write!(f, "answer"),
        }
    }
}

/// Why a line can't be one of lawful walks.
#[derive(Clone, Copy)]
pub struct WrongWords {
    pub wrong: Wrong,
}

impl fmt::Display for WrongWords {
    ghost output = { λ w. Some (spec.wrong_words w.wrong) };

    fn fmt<W: fmt::Write>(&self, f: &mut fmt::Formatter<W>) -> fmt::Result {
        match self.wrong {
            Wrong::OutOfOrder => write!(f, "out of order: its walk has passed that step"),
            Wrong::OutOfWalk => write!(f, "not between where its walk begins and where it goes"),
            Wrong::AfterFault => write!(f, "its walk goes on after a fault"),
            Wrong::AfterSecondFault => write!(f, "its walk goes on after a second fault"),
            Wrong::NotDone => write!(f, "undone, but not done"),
            Wrong::PartNotUndone => {
                write!(
                    f,
                    "of the instances that were called before a fault not all are undone"
                )
            }
            Wrong::NoFault => write!(
                f,
                "its walk goes back, and no step is left that can have failed"
            ),
            Wrong::NoStop => write!(f, "no walk stops where this one is to go"),
            Wrong::NoAnswer => write!(f, "0 after a fault"),
            Wrong::NotThere => write!(f, "0, and it isn't where it was to go"),
            Wrong::Starting => write!(f, "no line shows a callback of this step"),
            Wrong::Shows(step) => write!(
                f,
                "step {step} was called otherwise before, or it isn't undone, unless no line shows that it was registered again"
            ),
        }
    }
}

/// The line that can't be one of lawful walks, and why.
#[derive(Clone, Copy)]
pub struct MisfitLine {
    pub misfit: Misfit,
}

impl fmt::Display for MisfitLine {
    ghost output = { λ l. Some (spec.misfit_line l.misfit) };

    fn fmt<W: fmt::Write>(&self, f: &mut fmt::Formatter<W>) -> fmt::Result {
        let Misfit { named, wrong } = self.misfit;
        let Named {
            line,
            cpu,
            step,
            way,
        } = named;
        let way = WayWord { way };
        let why = WrongWords { wrong };
        writeln!(
            f,
            "error: line {line}: {way} of cpu {cpu} at step {step}: {why}"
        )
    }
}

/// The words before the counts of a trace of which this is said.
#[derive(Clone, Copy)]
pub struct Heading {
    pub walks: Walks,
}

impl fmt::Display for Heading {
    ghost output = { λ h. Some (spec.heading h.walks) };

    fn fmt<W: fmt::Write>(&self, f: &mut fmt::Formatter<W>) -> fmt::Result {
        match self.walks {
            Walks::Lawful => write!(f, "lawful"),
            Walks::Misfit(_) | Walks::Far(_) | Walks::NoBorders => write!(f, "lawful by its lines"),
        }
    }
}

/// The line of what of the walks isn't judged. Where all are, there is no line.
#[derive(Clone, Copy)]
pub struct UnjudgedLine {
    pub walks: Walks,
}

impl fmt::Display for UnjudgedLine {
    ghost output = { λ l. Some (spec.unjudged_line l.walks) };

    fn fmt<W: fmt::Write>(&self, f: &mut fmt::Formatter<W>) -> fmt::Result {
        match self.walks {
            Walks::Lawful | Walks::Misfit(_) => Ok(()),
            Walks::Far(line) => {
                writeln!(
                    f,
                    "not judged: walks from line {line} on, which has a step or a state above 511"
                )
            }
            Walks::NoBorders => {
                writeln!(
                    f,
                    "not judged: walks, since no line shows where a cpu is booted and taken down"
                )
            }
        }
    }
}
