//! What the lines of a trace show, as far as a guess needs it: calls, and how the functions end in which others are called.

use hp_states::Dir;
use hp_trace::{Function, Mark, Payload, Pieces, Said, said_of};
use std::alloc::{AllocError, Global};

/// The processors and the states of the kernel that a guess knows are below these.
pub(crate) const MOST_CPUS: u32 = 256;

pub(crate) const MOST_STEPS: u32 = 512;

/// A callback that was called and has answered.
#[derive(Clone, Copy)]
pub(crate) struct Call<'a> {
    pub line: u32,
    pub cpu: u32,
    pub step: u32,
    pub target: u32,
    /// The state that its exit says.
    pub after: u32,
    /// What it answered: 0, or the number of an error.
    pub code: u32,
    pub multi: bool,
    /// The function's name.
    pub function: &'a [u8],
    /// Its direction in a walk. None of a registration, by whose exit it can't be told.
    pub dir: Option<Dir>,
}

/// What a trace shows.
#[derive(Clone, Copy)]
pub(crate) enum Move<'a> {
    /// A processor's own thread is asked for its part of a walk, from this state on.
    Kick {
        cpu: u32,
        from: u32,
        target: u32,
    },
    /// A function has ended in which others are called: at its step, with the processor at a state.
    Ended {
        cpu: u32,
        mark: Mark,
        step: u32,
        after: u32,
        failed: bool,
    },
    Called(Call<'a>),
}

/// A function that was entered.
#[derive(Clone, Copy)]
struct Entered<'a> {
    cpu: u32,
    step: u32,
    target: u32,
    multi: bool,
    function: &'a [u8],
}

/// A call of an instance after which others may be undone.
#[derive(Clone, Copy)]
struct Part<'a> {
    cpu: u32,
    step: u32,
    function: &'a [u8],
    dir: Option<Dir>,
}

/// A reader of lines.
#[derive(Clone, Copy)]
struct Reader<'a> {
    mark: Option<(Mark, u32)>,
    call: Option<Entered<'a>>,
    part: Option<Part<'a>>,
}

/// The last piece of some bytes between separators.
fn last_piece(bytes: &[u8], by: u8) -> &[u8] {
    let mut pieces = Pieces::of(bytes, by);
    let mut last = bytes;
    for _ in 0..u32::MAX {
        let Some(piece) = pieces.next() else {
            break;
        };
        last = piece;
    }
    last
}

/// The first piece of some bytes between separators.
fn first_piece(bytes: &[u8], by: u8) -> &[u8] {
    Pieces::of(bytes, by).next().unwrap_or(bytes)
}

/// The name of the function that an enter's line has: what stands behind its last `(` or `=`, without what a compiler, a
/// tool or a module's name adds.
pub(crate) fn function_in(line: &[u8]) -> &[u8] {
    let behind = last_piece(last_piece(line, b'('), b'=');
    let word = first_piece(first_piece(behind, b')'), b' ');
    first_piece(first_piece(word, b'.'), b'+')
}

/// A signed number as a state: one below 0 is 0.
fn state_of(value: i32) -> u32 {
    if value < 0 { 0 } else { value as u32 }
}

/// The number of an error.
fn error_of(code: i32) -> u32 {
    if code < 0 {
        (0 - (code as i64)) as u32
    } else {
        code as u32
    }
}

/// The direction that an exit says.
fn dir_of(step: u32, after: u32) -> Option<Dir> {
    if after == step {
        Some(Dir::Up)
    } else if after < step && step - after == 1 {
        Some(Dir::Down)
    } else {
        None
    }
}

fn opposite(dir: Option<Dir>) -> Option<Dir> {
    match dir {
        Some(dir) => Some(dir.opposite()),
        None => None,
    }
}

impl<'a> Part<'a> {
    /// Whether a call undoes a part of the state's instances.
    fn is_undone_by(&self, call: &Call<'a>) -> bool {
        self.cpu == call.cpu
            && self.step == call.step
            && call.multi
            && self.function != call.function
    }
}

/// Where a call undoes a part of a state's instances, its direction.
fn part_undone<'a>(part: Option<Part<'a>>, call: &Call<'a>) -> Option<Option<Dir>> {
    match part {
        Some(part) => {
            if part.is_undone_by(call) {
                Some(opposite(part.dir))
            } else {
                None
            }
        }
        None => None,
    }
}

/// What may be undone in part behind a call.
fn part_of<'a>(call: &Call<'a>) -> Option<Part<'a>> {
    if !call.multi || call.code == 0 {
        return None;
    }
    Some(Part {
        cpu: call.cpu,
        step: call.step,
        function: call.function,
        dir: call.dir,
    })
}

impl<'a> Reader<'a> {
    /// Takes an enter.
    fn enter(&mut self, entered: Entered<'a>, function: Function) -> Option<Move<'a>> {
        match function {
            Function::Mark(mark) => {
                self.mark = Some((mark, entered.step));
                match mark {
                    Mark::Kick => Some(Move::Kick {
                        cpu: entered.cpu,
                        from: entered.step,
                        target: entered.target,
                    }),
                    Mark::BringUp | Mark::TakeDown => None,
                }
            }
            Function::Callback => {
                self.call = Some(entered);
                None
            }
        }
    }

    /// A call with its direction: the undoing of a part of a state's instances follows a fault of the same state, by
    /// another function, and its exit may say the direction of what it undoes.
    fn called(&mut self, call: Call<'a>) -> Call<'a> {
        match part_undone(self.part, &call) {
            Some(dir) => Call { dir, ..call },
            None => {
                self.part = part_of(&call);
                call
            }
        }
    }

    /// Takes an exit.
    fn leave(&mut self, line: u32, cpu: u32, after: u32, code: i32) -> Option<Move<'a>> {
        let Some(entered) = self.call else {
            let (mark, step) = self.mark?;
            self.mark = None;
            return Some(Move::Ended {
                cpu,
                mark,
                step,
                after,
                failed: code != 0,
            });
        };
        self.call = None;
        Some(Move::Called(self.called(Call {
            line,
            cpu: entered.cpu,
            step: entered.step,
            target: entered.target,
            after,
            code: error_of(code),
            multi: entered.multi,
            function: entered.function,
            dir: dir_of(entered.step, after),
        })))
    }

    /// Takes what a line says.
    fn take(&mut self, line: u32, text: &'a [u8], payload: Payload) -> Option<Move<'a>> {
        match payload {
            Payload::Entered {
                multi,
                cpu,
                target,
                step,
                function,
            } => {
                if cpu >= MOST_CPUS || step >= MOST_STEPS {
                    return None;
                }
                let entered = Entered {
                    cpu,
                    step,
                    target: state_of(target).min(MOST_STEPS - 1),
                    multi,
                    function: function_in(text),
                };
                self.enter(entered, function)
            }
            Payload::Left {
                cpu,
                state,
                code,
                ..
            } => {
                if cpu >= MOST_CPUS {
                    return None;
                }
                self.leave(line, cpu, state_of(state).min(MOST_STEPS - 1), code)
            }
        }
    }
}

/// What the lines of a trace before this one show, which is counted from 1.
pub(crate) fn moves_of(
    alloc: Global,
    bytes: &[u8],
    until: u32,
) -> Result<Vec<Move<'_>>, AllocError> {
    let mut reader = Reader {
        mark: None,
        call: None,
        part: None,
    };
    let mut moves = Vec::new(alloc);
    let mut lines = Pieces::of(bytes, b'\n');
    for number in 1..until {
        let Some(line) = lines.next() else {
            break;
        };
        let Said::Event(event) = said_of(line) else {
            continue;
        };
        if let Some(shown) = reader.take(number, line, event.payload) {
            moves.push(shown)?;
        }
    }
    Ok(moves)
}
