//! Which state of the machine stands for which of the kernel.

use crate::call::MOST_STEPS;
use crate::item::{Act, Item, Plan};
use crate::sight::Sight;
use hp_states::{AP_ONLINE, BRINGUP_CPU, OFFLINE, ONLINE, TEARDOWN_CPU};
use std::alloc::{AllocError, Global};

/// A state of the machine, and the kernel's for which it stands.
#[derive(Clone, Copy)]
pub struct Numbered {
    /// The number of the kernel's.
    pub step: u32,
    /// The machine's.
    pub state: u32,
}

/// The first states that a subsystem can have in STARTING and in ONLINE.
const STARTING: u32 = BRINGUP_CPU + 3;

const ABOVE_TEARDOWN: u32 = TEARDOWN_CPU + 2;

/// The numbers that are given next in PREPARE, STARTING and ONLINE.
#[derive(Clone, Copy)]
struct Next {
    prepare: u32,
    starting: u32,
    online: u32,
}

impl Next {
    /// The number of a state behind those of the states below it. None where there are too many.
    fn give(&mut self, sight: &Sight<'_>, step: u32) -> Option<u32> {
        if step < sight.boot_or_so() {
            let state = self.prepare;
            self.prepare = one_more(state, BRINGUP_CPU)?;
            Some(state)
        } else if step < sight.take_or_so() {
            let state = self.starting;
            self.starting = one_more(state, AP_ONLINE)?;
            Some(state)
        } else {
            let state = self.online;
            self.online = one_more(state, ONLINE - 1)?;
            Some(state)
        }
    }
}

/// One more than a state that is below an end. None of any other.
fn one_more(state: u32, end: u32) -> Option<u32> {
    if state < end { Some(state + 1) } else { None }
}

/// Which states of the kernel a plan speaks of.
fn spoken_of(alloc: Global, plan: &Plan<'_>) -> Result<Vec<bool>, AllocError> {
    let mut spoken = vec![in alloc; false; MOST_STEPS as usize]?;
    for sub in &plan.subs {
        speak(&mut spoken, sub.step);
    }
    for item in &plan.items {
        let Item::Act(Act::Walk(walk)) = item else {
            continue;
        };
        speak(&mut spoken, walk.target);
        if let Some(fail) = walk.fail {
            speak(&mut spoken, fail);
        }
    }
    Ok(spoken)
}

fn speak(spoken: &mut Vec<bool>, step: u32) {
    if let Some(place) = spoken.get_mut(step as usize) {
        *place = true;
    }
}

/// The state of the machine that stands for one of the kernel that a plan speaks of. None where there are too many.
fn state_for(next: &mut Next, sight: &Sight<'_>, step: u32) -> Option<u32> {
    if step == 0 {
        Some(OFFLINE)
    } else if step == sight.online && sight.take_or_so() < step {
        Some(ONLINE)
    } else if sight.boot_or_so() == step {
        Some(BRINGUP_CPU)
    } else if sight.take_or_so() == step {
        Some(TEARDOWN_CPU)
    } else {
        next.give(sight, step)
    }
}

/// Which state of the machine stands for each of the kernel that a plan speaks of: those of a section in their order.
pub(crate) fn numbers_of(
    alloc: Global,
    sight: &Sight<'_>,
    plan: &Plan<'_>,
) -> Result<Vec<Numbered>, AllocError> {
    let mut spoken = spoken_of(alloc, plan)?;
    speak(&mut spoken, sight.boot_or_so());
    speak(&mut spoken, sight.take_or_so());
    let mut next = Next {
        prepare: OFFLINE + 1,
        starting: STARTING,
        online: ABOVE_TEARDOWN,
    };
    let mut numbers = Vec::new(alloc);
    for step in 0..MOST_STEPS {
        if spoken.get(step as usize).copied().unwrap_or(false) {
            if let Some(state) = state_for(&mut next, sight, step) {
                numbers.push(Numbered { step, state })?;
            }
        }
    }
    Ok(numbers)
}

/// The state of the machine that stands for one of the kernel, or for the next below that has one.
pub(crate) fn state_at(numbers: &[Numbered], step: u32) -> u32 {
    let mut state = OFFLINE;
    for numbered in numbers {
        if numbered.step <= step {
            state = numbered.state;
        }
    }
    state
}

/// Whether one stands for this one of the kernel.
pub(crate) fn has_number(numbers: &[Numbered], step: u32) -> bool {
    let mut has = false;
    for numbered in numbers {
        has = has || numbered.step == step;
    }
    has
}
