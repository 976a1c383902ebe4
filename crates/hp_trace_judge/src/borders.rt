//! Where a processor is booted and where it is taken down, as the lines of a trace show it.

ghost use Rattle.std.specs.Prelude.{◌≡◌};
ghost use Rattle.hp_trace_judge.specs.Borders as spec;

use hp_trace::{Function, Mark, Payload, Pieces, Said, said_of};
use hp_trace_walk::Borders;

/// What was seen of it.
#[derive(Clone, Copy)]
pub struct Sight {
    /// The first state whose callback boots a processor.
    pub boot: Option<u32>,
    /// The first whose callback takes one down.
    pub take: Option<u32>,
    /// Whether a processor's own thread was asked to go down.
    pub down: bool,
}

/// The first, or else the other.
fn first_of(seen: Option<u32>, step: u32) -> Option<u32>
    ensures { result ≡ spec.first_of seen step }
{
    match seen {
        Some(first) => Some(first),
        None => Some(step),
    }
}

/// Whether a state is asked for that is below another.
fn is_below(target: i32, step: u32) -> bool
    ensures { result ≡ spec.is_below target step }
{
    (target as i64) < step as i64
}

impl Sight {
    /// Nothing was seen.
    fn none() -> Sight
        ensures { result ≡ spec.nothing }
    {
        Sight {
            boot: None,
            take: None,
            down: false,
        }
    }

    /// Behind the enter of a function.
    fn after_enter(&self, target: i32, step: u32, function: Function) -> Sight
        ensures { result ≡ spec.after_enter self.now target step function }
    {
        match function {
            Function::Mark(Mark::Kick) => Sight {
                boot: self.boot,
                take: self.take,
                down: self.down || is_below(target, step),
            },
            Function::Mark(Mark::BringUp) => Sight {
                boot: first_of(self.boot, step),
                take: self.take,
                down: self.down,
            },
            Function::Mark(Mark::TakeDown) => Sight {
                boot: self.boot,
                take: first_of(self.take, step),
                down: self.down,
            },
            Function::Callback => *self,
        }
    }

    /// Behind a line.
    fn after(&self, said: Said) -> Sight
        ensures { result ≡ spec.after self.now said }
    {
        let Said::Event(event) = said else {
            return *self;
        };
        match event.payload {
            Payload::Entered {
                target,
                step,
                function,
                ..
            } => self.after_enter(target, step, function),
            Payload::Left { .. } => *self,
        }
    }

    /// The borders, where enough was seen of them.
    fn borders(&self) -> Option<Borders>
        ensures { result ≡ spec.borders_of self.now }
    {
        match (self.boot, self.take) {
            (Some(boot), Some(take)) => {
                if boot < take {
                    Some(Borders { boot, take })
                } else {
                    None
                }
            }
            (Some(boot), None) => {
                if !self.down && boot < 512 {
                    Some(Borders {
                        boot,
                        take: boot + 1,
                    })
                } else {
                    None
                }
            }
            (None, Some(take)) => {
                if 0 < take {
                    Some(Borders {
                        boot: take - 1,
                        take,
                    })
                } else {
                    None
                }
            }
            (None, None) => None,
        }
    }
}

/// The borders by the lines of a trace before this one, which is counted from 1. None where they don't show enough.
pub fn borders_before(bytes: &[u8], until: u32) -> Option<Borders>
    ensures { result ≡ spec.borders_before until bytes.now }
{
    let mut sight = Sight::none();
    let mut line = 1;
    let mut lines = Pieces::of(bytes, b'\n');
    while line < until {
        let Some(text) = lines.next() else {
            break;
        };
        sight = sight.after(said_of(text));
        line += 1;
    }
    sight.borders()
}
