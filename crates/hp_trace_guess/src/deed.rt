//! The walks and the registrations of a trace, as they may have been.

use crate::call::{Call, MOST_CPUS, Move};
use crate::sight::Sight;
use hp_states::Dir;
use hp_trace::Mark;
use std::alloc::{AllocError, Global};

/// A walk.
#[derive(Clone, Copy)]
pub(crate) struct Walk {
    pub cpu: u32,
    pub dir: Dir,
    /// Where its processor stood.
    pub start: u32,
    /// Where it was to go.
    pub target: u32,
    /// The state at which it may have been turned where no line shows a fault.
    pub fail: Option<u32>,
    /// The state of its last call forward.
    last: Option<u32>,
    kicked: bool,
    open: bool,
    failed: bool,
    hidden: bool,
    fault: bool,
}

/// A walk, or a registration at a state.
#[derive(Drop)]
pub(crate) struct Deed<'a> {
    /// None: a registration.
    pub walk: Option<Walk>,
    pub calls: Vec<Call<'a>>,
}

/// What is known while a trace is gone through.
#[derive(Drop)]
struct Reading<'a> {
    alloc: Global,
    deeds: Vec<Deed<'a>>,
    /// Where each processor stands, as far as it was seen.
    at: Vec<Option<u32>>,
}

impl Walk {
    /// A walk that begins with a call.
    fn by(call: &Call<'_>, dir: Dir, at: Option<u32>) -> Walk {
        let before = match dir {
            Dir::Up => call.step.saturating_sub(1),
            Dir::Down => call.step,
        };
        Walk {
            cpu: call.cpu,
            dir,
            start: at.unwrap_or(before),
            target: call.target,
            fail: None,
            last: None,
            kicked: false,
            open: true,
            failed: false,
            hidden: false,
            fault: false,
        }
    }

    /// Whether a call against the walk's direction shows that it was turned, with no line of a fault: then the state at
    /// which that may have been. Else another walk begins.
    fn turns(&self, sight: &Sight<'_>, call: &Call<'_>) -> (bool, Option<u32>) {
        let left = match self.last {
            Some(last) => sight.next_with(self.dir, last, self.target),
            None => None,
        };
        (
            self.target != call.target && (left.is_some() || self.failed),
            left,
        )
    }

    /// Where a processor stands behind a call: where the walk goes to, or goes back to, if no state is left on the way that
    /// has a callback.
    fn stands_at(&self, sight: &Sight<'_>, call: &Call<'_>, dir: Dir) -> u32 {
        let goal = if dir == self.dir {
            self.target
        } else {
            self.start
        };
        if call.code == 0 && sight.next_with(dir, call.step, goal).is_none() {
            goal
        } else {
            call.after
        }
    }

    /// The walk behind a call of it.
    fn after(&self, call: &Call<'_>, dir: Dir) -> Walk {
        if dir != self.dir {
            return *self;
        }
        Walk {
            last: Some(call.step),
            target: call.target,
            fault: self.fault || call.code != 0,
            ..*self
        }
    }
}

/// A registration makes fewer calls: on each processor at most two.
const MOST_OF_ONE: usize = 2 * MOST_CPUS as usize;

/// Whether a call of a registration goes on with the calls before it: on higher processors, or the lower ones again by
/// another function behind a fault.
fn goes_on(calls: &[Call<'_>], call: &Call<'_>) -> bool {
    let (Some(first), Some(last)) = (calls.first(), calls.last()) else {
        return false;
    };
    if last.step != call.step || last.multi != call.multi || calls.len() > MOST_OF_ONE {
        return false;
    }
    let mut fault = None;
    for earlier in calls {
        if earlier.code != 0 && fault.is_none() {
            fault = Some(earlier.cpu);
        }
    }
    match fault {
        None if first.function == call.function => last.cpu < call.cpu,
        // Behind an injected fault, which no line shows, all are undone.
        None => call.cpu == first.cpu && last.function == first.function && call.multi,
        Some(fault) => {
            first.function != call.function
                && call.cpu < fault
                && (last.code != 0 || last.cpu < call.cpu)
        }
    }
}

impl<'a> Reading<'a> {
    /// Where a processor stands.
    fn at(&self, cpu: u32) -> Option<u32> {
        match self.at.get(cpu as usize) {
            Some(at) => *at,
            None => None,
        }
    }

    fn stand(&mut self, cpu: u32, at: u32) {
        if let Some(place) = self.at.get_mut(cpu as usize) {
            *place = Some(at);
        }
    }

    /// The walk of a processor that may go on: the last deed.
    fn open_walk(&self, cpu: u32) -> Option<Walk> {
        let walk = self.deeds.last()?.walk?;
        if walk.cpu == cpu && walk.open {
            Some(walk)
        } else {
            None
        }
    }

    fn begin(&mut self, walk: Option<Walk>) -> Result<(), AllocError> {
        let calls = Vec::new(self.alloc);
        self.deeds.push(Deed { walk, calls })?;
        Ok(())
    }

    /// Changes the walk that is the last deed.
    fn set(&mut self, walk: Walk) {
        if let Some(deed) = self.deeds.last_mut() {
            deed.walk = Some(walk);
        }
    }

    /// Puts a call behind those of the last deed.
    fn add(&mut self, call: &Call<'a>) -> Result<(), AllocError> {
        if let Some(deed) = self.deeds.last_mut() {
            deed.calls.push(*call)?;
        }
        Ok(())
    }

    /// A call of a registration.
    fn registers(&mut self, call: &Call<'a>) -> Result<(), AllocError> {
        let more = match self.deeds.last() {
            Some(deed) => deed.walk.is_none() && goes_on(&deed.calls, call),
            None => false,
        };
        if !more {
            self.begin(None)?;
        }
        self.add(call)
    }

    /// The walk that a call goes on with, or begins; where it begins one, true.
    fn walk_for(&self, sight: &Sight<'_>, call: &Call<'a>, dir: Dir) -> (Walk, bool) {
        let Some(walk) = self.open_walk(call.cpu) else {
            return (Walk::by(call, dir, self.at(call.cpu)), true);
        };
        let turned = walk.fault || walk.hidden;
        if dir == walk.dir {
            if turned {
                return (Walk::by(call, dir, self.at(call.cpu)), true);
            }
            return (walk, false);
        }
        if turned {
            return (walk, false);
        }
        let (hidden, fail) = walk.turns(sight, call);
        if hidden {
            (
                Walk {
                    hidden,
                    fail,
                    ..walk
                },
                false,
            )
        } else {
            (Walk::by(call, dir, Some(walk.target)), true)
        }
    }

    /// A call of a walk.
    fn walks(&mut self, sight: &Sight<'_>, call: &Call<'a>, dir: Dir) -> Result<(), AllocError> {
        let (walk, begins) = self.walk_for(sight, call, dir);
        if begins {
            self.begin(Some(walk))?;
        }
        let walk = walk.after(call, dir);
        self.set(walk);
        self.add(call)?;
        self.stand(call.cpu, walk.stands_at(sight, call, dir));
        Ok(())
    }

    /// Whether a call whose exit is that of a startup is one of a registration: its processor stands at the state.
    fn is_at_rest(&self, call: &Call<'a>, dir: Dir) -> bool {
        match dir {
            Dir::Up => {
                self.open_walk(call.cpu).is_none() && self.at(call.cpu) == Some(call.step)
            }
            Dir::Down => false,
        }
    }

    fn call(&mut self, sight: &Sight<'_>, call: &Call<'a>) -> Result<(), AllocError> {
        if sight.is_border(call.step) {
            self.stand(call.cpu, call.after);
            return Ok(());
        }
        match call.dir {
            Some(dir) if !self.is_at_rest(call, dir) => self.walks(sight, call, dir),
            _ => self.registers(call),
        }
    }

    fn kick(&mut self, cpu: u32, from: u32, target: u32) -> Result<(), AllocError> {
        let dir = if target < from { Dir::Down } else { Dir::Up };
        self.begin(Some(Walk {
            cpu,
            dir,
            start: from,
            target,
            fail: None,
            last: None,
            kicked: true,
            open: true,
            failed: false,
            hidden: false,
            fault: false,
        }))
    }

    /// A function has ended in which others are called.
    fn end(&mut self, sight: &Sight<'_>, cpu: u32, mark: Mark, after: u32, failed: bool) {
        self.stand(cpu, after);
        let Some(walk) = self.open_walk(cpu) else {
            return;
        };
        let open = match mark {
            Mark::Kick => !(walk.kicked && failed),
            Mark::TakeDown => true,
            Mark::BringUp => failed || walk.dir == Dir::Down,
        };
        let fail = if failed && !walk.fault && !walk.hidden {
            sight.next_with(walk.dir, walk.last.unwrap_or(walk.start), walk.target)
        } else {
            walk.fail
        };
        self.set(Walk {
            open,
            failed: walk.failed || failed,
            fail,
            ..walk
        });
    }

    fn take(&mut self, sight: &Sight<'_>, shown: &Move<'a>) -> Result<(), AllocError> {
        match shown {
            Move::Kick {
                cpu,
                from,
                target,
                ..
            } => self.kick(*cpu, *from, *target),
            Move::Ended {
                cpu,
                mark,
                after,
                failed,
                ..
            } => {
                self.end(sight, *cpu, *mark, *after, *failed);
                Ok(())
            }
            Move::Called(call) => self.call(sight, call),
        }
    }
}

/// The walks and the registrations of a trace, in their order.
pub(crate) fn deeds_of<'a>(
    alloc: Global,
    sight: &Sight<'_>,
    moves: &[Move<'a>],
) -> Result<Vec<Deed<'a>>, AllocError> {
    let mut reading = Reading {
        alloc,
        deeds: Vec::new(alloc),
        at: vec![in alloc; None; MOST_CPUS as usize]?,
    };
    for shown in moves {
        reading.take(sight, shown)?;
    }
    let Reading { deeds, .. } = reading;
    Ok(deeds)
}
