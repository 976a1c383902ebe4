//! The verdict on a trace, by its lines alone.

ghost use Rattle.std.specs.Prelude.{◌≡◌, ◌<◌, ◌≤◌, ◌+◌, ◌^◌, length};
ghost use Rattle.hp_trace.specs.Pieces.{pieces};
ghost use Rattle.hp_trace.specs.Said.{said_of as said_of_line};
ghost use Rattle.hp_trace.specs.Judged as spec;

use crate::event::Said;
use crate::nest::{Fault, Nest};
use crate::pieces::Pieces;
use crate::said::said_of;

/// The most bytes of a trace: 1 GiB.
pub const MAX_TRACE_BYTES: u32 = 1_073_741_824;

/// Where a reader of a trace stands.
#[derive(Clone, Copy)]
pub struct Place {
    /// The number of the next line, counted from 1.
    pub line: u32,
    /// How many events came so far.
    pub events: u32,
    /// What is open.
    pub nest: Nest,
}

/// Why no line behind is judged.
#[derive(Clone, Copy)]
pub enum End {
    /// There is none.
    Whole,
    /// The next line says that events were lost, or is of `perf script`, which loses some without a word.
    Lost,
    /// The next line has the name of an event, and no form of its payload.
    NoForm,
    /// The next line can't stand.
    Broken(Fault),
}

/// What is said of a trace: how far its lines were judged, and why not further.
#[derive(Clone, Copy)]
pub struct Judged {
    /// Behind the lines that can stand.
    pub place: Place,
    /// Why no further.
    pub end: End,
}

impl Place {
    /// Before the first line.
    pub fn first() -> Place
        ensures { result ≡ spec.first }
    {
        Place {
            line: 1,
            events: 0,
            nest: Nest::new(),
        }
    }

    /// Behind the next line, where it can stand; else why it ends the judgement.
    fn behind(&self, said: Said) -> Result<Place, End>
        requires small { self.now.line < 2 ^ 31 }
        requires events { self.now.events < self.now.line }
        ensures { result ≡ spec.step self.now said }
    {
        match said {
            Said::Event(event) => match self.nest.fault(&event) {
                Some(fault) => Err(End::Broken(fault)),
                None => Ok(Place {
                    line: self.line + 1,
                    events: self.events + 1,
                    nest: self.nest.after(self.line, &event),
                }),
            },
            Said::NoForm => Err(End::NoForm),
            Said::Lost => Err(End::Lost),
            Said::Other => Ok(Place {
                line: self.line + 1,
                events: self.events,
                nest: self.nest,
            }),
        }
    }
}

/// Judges a trace by its lines alone. What stands behind its last newline is cut, and isn't read.
pub fn judge(bytes: &[u8]) -> Judged
    requires { length bytes.now ≤ MAX_TRACE_BYTES }
    ensures judged { result ≡ spec.judged spec.first (pieces 10 bytes.now) }
    ensures events { result.place.events < result.place.line }
{
    let mut place = Place::first();
    let mut lines = Pieces::of(bytes, b'\n');
    while let Some(line) = lines.next() {
        if lines.is_done() {
            break;
        }
        match place.behind(said_of(line)) {
            Ok(next) => place = next,
            Err(end) => return Judged { place, end },
        }
    }
    Judged {
        place,
        end: End::Whole,
    }
}
