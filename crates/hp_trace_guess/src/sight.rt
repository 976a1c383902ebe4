//! What all of a trace shows of the kernel's states: where a processor is booted and taken down, the highest, and which
//! callbacks a state has.

use crate::call::{Call, MOST_STEPS, Move};
use hp_states::Dir;
use hp_trace::Mark;
use std::alloc::{AllocError, Global};

/// The callbacks of a state that walks show.
#[derive(Clone, Copy)]
pub(crate) struct Callbacks<'a> {
    /// The function of its startup.
    pub up: Option<&'a [u8]>,
    /// The function of its teardown.
    pub down: Option<&'a [u8]>,
}

impl<'a> Callbacks<'a> {
    /// None was seen.
    pub fn none() -> Callbacks<'a> {
        Callbacks {
            up: None,
            down: None,
        }
    }

    /// The function of a direction.
    pub fn of(&self, dir: Dir) -> Option<&'a [u8]> {
        match dir {
            Dir::Up => self.up,
            Dir::Down => self.down,
        }
    }

    /// Notes a function of a direction; the first one stays.
    pub fn note(&mut self, dir: Dir, function: &'a [u8]) {
        match dir {
            Dir::Up => {
                if self.up.is_none() {
                    self.up = Some(function);
                }
            }
            Dir::Down => {
                if self.down.is_none() {
                    self.down = Some(function);
                }
            }
        }
    }

    /// The direction of a function, where it is known.
    pub fn dir_of(&self, function: &[u8]) -> Option<Dir> {
        if is_that(self.up, function) {
            Some(Dir::Up)
        } else if is_that(self.down, function) {
            Some(Dir::Down)
        } else {
            None
        }
    }
}

/// Whether there is a function, and it is this one.
pub(crate) fn is_that(known: Option<&[u8]>, function: &[u8]) -> bool {
    match known {
        Some(known) => known == function,
        None => false,
    }
}

/// What all of a trace shows.
#[derive(Drop)]
pub(crate) struct Sight<'a> {
    /// The state that boots a processor, where it was seen.
    pub boot: Option<u32>,
    /// The state that takes one down, where it was seen.
    pub take: Option<u32>,
    /// The highest state.
    pub online: u32,
    /// Of each state what walks show.
    pub callbacks: Vec<Callbacks<'a>>,
}

/// The number of the state that boots a processor in Linux 6.1, and of the one that takes it down.
const BOOT: u32 = 91;

const TAKE: u32 = 153;

impl<'a> Sight<'a> {
    /// Whether a state is one of the two whose callbacks boot a processor and take it down.
    pub fn is_border(&self, step: u32) -> bool {
        self.boot == Some(step) || self.take == Some(step)
    }

    /// The state that takes a processor down; where it wasn't seen, as it may be.
    pub fn take_or_so(&self) -> u32 {
        match (self.take, self.boot) {
            (Some(take), _) => take,
            (None, Some(boot)) => TAKE.max(boot.saturating_add(1)),
            (None, None) => TAKE,
        }
    }

    /// The state that boots a processor; where it wasn't seen, one that is above those below the one that takes it down
    /// of which walks show callbacks.
    pub fn boot_or_so(&self) -> u32 {
        if let Some(boot) = self.boot {
            return boot;
        }
        let take = self.take_or_so();
        let mut boot = BOOT.min(take.saturating_sub(1));
        for step in 0..MOST_STEPS {
            let callbacks = self.callbacks_of(step);
            if step < take && (callbacks.up.is_some() || callbacks.down.is_some()) {
                boot = boot.max(step.saturating_add(1));
            }
        }
        boot
    }

    /// What walks show of a state.
    pub fn callbacks_of(&self, step: u32) -> Callbacks<'a> {
        match self.callbacks.get(step as usize) {
            Some(callbacks) => *callbacks,
            None => Callbacks::none(),
        }
    }

    /// Notes a call.
    fn note_call(&mut self, call: &Call<'a>) {
        self.online = self.online.max(call.step).max(call.target).max(call.after);
        let Some(dir) = call.dir else {
            return;
        };
        if let Some(callbacks) = self.callbacks.get_mut(call.step as usize) {
            callbacks.note(dir, call.function);
        }
    }

    /// Notes what was shown.
    fn note(&mut self, shown: &Move<'a>) {
        match shown {
            Move::Kick { from, target, .. } => self.online = self.online.max(*from).max(*target),
            Move::Ended {
                mark,
                step,
                after,
                ..
            } => {
                self.online = self.online.max(*after);
                match mark {
                    Mark::Kick => {}
                    Mark::BringUp => self.boot = Some(*step),
                    Mark::TakeDown => self.take = Some(*step),
                }
            }
            Move::Called(call) => self.note_call(call),
        }
    }

    /// The next state that has a callback of a direction, beyond one and up to another.
    pub fn next_with(&self, dir: Dir, beyond: u32, to: u32) -> Option<u32> {
        let mut next = None;
        for step in 0..MOST_STEPS {
            if self.callbacks_of(step).of(dir).is_none() {
                continue;
            }
            match dir {
                Dir::Up => {
                    if next.is_none() && beyond < step && step <= to {
                        next = Some(step);
                    }
                }
                Dir::Down => {
                    if to < step && step < beyond {
                        next = Some(step);
                    }
                }
            }
        }
        next
    }
}

/// What all of a trace shows.
pub(crate) fn sight_of<'a>(alloc: Global, moves: &[Move<'a>]) -> Result<Sight<'a>, AllocError> {
    let mut sight = Sight {
        boot: None,
        take: None,
        online: 0,
        callbacks: vec![in alloc; Callbacks::none(); MOST_STEPS as usize]?,
    };
    for shown in moves {
        sight.note(shown);
    }
    Ok(sight)
}
