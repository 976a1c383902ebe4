//! What failed: the exits whose code isn't 0.

ghost use Rattle.std.specs.Prelude.{◌≡◌, IfOk};
ghost use Rattle.hp_trace.specs.Failed as spec;

use crate::event::{Payload, Said};
use crate::pieces::Pieces;
use crate::said::said_of;
use std::alloc::{AllocError, Global};

/// How many failures of a trace are kept.
pub const MOST_KEPT: u32 = 20;

/// An exit whose code isn't 0: a callback that failed, or a function in which one did.
#[derive(Clone, Copy)]
pub struct Failure {
    /// The number of its line.
    pub line: u32,
    /// The processor that goes up or down.
    pub cpu: u32,
    /// The state whose callback it is.
    pub step: u32,
    /// What was answered.
    pub code: i32,
}

/// The failures among some lines.
#[derive(Drop)]
pub struct Failures {
    /// The first `MOST_KEPT`, or all where they are fewer, in the order of their lines.
    pub first: Vec<Failure>,
    /// How many there are.
    pub count: u32,
}

/// The failure that a line says, if it says one.
fn failure_of(line: u32, said: Said) -> Option<Failure>
    ensures { result ≡ spec.failure_of line said }
{
    let Said::Event(event) = said else {
        return None;
    };
    match event.payload {
        Payload::Entered { .. } => None,
        Payload::Left {
            cpu,
            step,
            code,
            ..
        } => {
            if code == 0 {
                None
            } else {
                Some(Failure {
                    line,
                    cpu,
                    step,
                    code,
                })
            }
        }
    }
}

/// The failures among the lines of a trace that stand before this one, which is counted from 1.
///
/// The lines are read whether they can stand or not, and none ends that: those of a judgement are the ones before the
/// line of its place.
///
/// Takes memory for those that are kept; where there is none: `AllocError`.
pub fn failures_before(alloc: Global, bytes: &[u8], until: u32) -> Result<Failures, AllocError>
    ensures { IfOk result (spec.AreFailures (spec.failures_before until bytes.now)) }
{
    let mut first = Vec::new(alloc);
    let mut count = 0;
    let mut line = 1;
    let mut lines = Pieces::of(bytes, b'\n');
    while line < until {
        let Some(text) = lines.next() else {
            break;
        };
        if let Some(failure) = failure_of(line, said_of(text)) {
            if count < MOST_KEPT {
                first.push(failure)?;
            }
            count += 1;
        }
        line += 1;
    }
    Ok(Failures { first, count })
}
