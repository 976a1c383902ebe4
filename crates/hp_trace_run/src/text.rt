//! The lines that are written of a trace.

ghost use Rattle.std.specs.Prelude.{Some};
ghost use Rattle.std.specs.List.{flat_map};
ghost use Rattle.hp_trace_run.specs.Texts.{open_line, fault_line, failure_line, more_line};

use hp_trace::{Failure, Fault, MOST_KEPT, Open};
use std::fmt;

/// The line of what was entered and not left. Where there is nothing such, there is no line.
#[derive(Clone, Copy)]
pub struct OpenLine {
    pub entry: Option<Open>,
}

impl fmt::Display for OpenLine {
    ghost output = { λ l. Some (open_line l.entry) };

    fn fmt<W: fmt::Write>(&self, f: &mut fmt::Formatter<W>) -> fmt::Result {
        match self.entry {
            None => Ok(()),
            Some(open) => writeln!(
                f,
                "line {}: entered and not left: cpu {} at step {}",
                open.line, open.cpu, open.step
            ),
        }
    }
}

/// The line that can't stand, and why.
#[derive(Clone, Copy)]
pub struct FaultLine {
    /// Its number.
    pub line: u32,
    pub fault: Fault,
}

impl fmt::Display for FaultLine {
    ghost output = { λ l. Some (fault_line l.line l.fault) };

    fn fmt<W: fmt::Write>(&self, f: &mut fmt::Formatter<W>) -> fmt::Result {
        let line = self.line;
        match self.fault {
            Fault::WithinCall(open) => writeln!(
                f,
                "error: line {line}: entered within the callback of line {}",
                open.line
            ),
            Fault::OfAnother(open) => writeln!(
                f,
                "error: line {line}: entered within the function of line {}, which is of cpu {}",
                open.line, open.cpu
            ),
            Fault::WithinMark(open) => writeln!(
                f,
                "error: line {line}: no callback, and entered within the function of line {}",
                open.line
            ),
            Fault::NotLast(open) => writeln!(
                f,
                "error: line {line}: no exit of what was entered last, in line {}",
                open.line
            ),
            Fault::NoEnter => writeln!(f, "error: line {line}: an exit without its enter"),
            Fault::NotOwn(on) => {
                writeln!(
                    f,
                    "error: line {line}: made on cpu {on}, and not on its own"
                )
            }
        }
    }
}

/// The line of an exit whose code isn't 0.
#[derive(Clone, Copy)]
pub struct FailureLine {
    pub failure: Failure,
}

impl fmt::Display for FailureLine {
    ghost output = { λ l. Some (failure_line l.failure) };

    fn fmt<W: fmt::Write>(&self, f: &mut fmt::Formatter<W>) -> fmt::Result {
        let Failure {
            line,
            cpu,
            step,
            code,
        } = self.failure;
        writeln!(f, "line {line}: cpu {cpu} at step {step} answered {code}")
    }
}

/// The lines of those that are named of them.
#[derive(Drop)]
pub struct FailureLines {
    pub failures: Vec<Failure>,
}

impl fmt::Display for FailureLines {
    ghost output = { λ l. Some (flat_map failure_line l.failures.items) };

    fn fmt<W: fmt::Write>(&self, f: &mut fmt::Formatter<W>) -> fmt::Result {
        for failure in &self.failures {
            let line = FailureLine { failure: *failure };
            write!(f, "{line}")?;
        }
        Ok(())
    }
}

/// The line of how many more there are. Where there are none, there is no line.
#[derive(Clone, Copy)]
pub struct MoreLine {
    /// How many there are in all.
    pub count: u32,
}

impl fmt::Display for MoreLine {
    ghost output = { λ l. Some (more_line l.count) };

    fn fmt<W: fmt::Write>(&self, f: &mut fmt::Formatter<W>) -> fmt::Result {
        if self.count <= MOST_KEPT {
            return Ok(());
        }
        let more = self.count - MOST_KEPT;
        writeln!(f, "{more} more answered another code than 0")
    }
}
