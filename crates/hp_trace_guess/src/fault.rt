//! The rules by which the callbacks of subsystems fault: at which call of a processor.

use crate::call::MOST_CPUS;
use crate::item::{Act, Item, Plan, Sub};
use crate::sight::Sight;
use hp_states::{Dir, MAX_SUBS};
use std::alloc::{AllocError, Global};

/// A rule of a subsystem: the call of this number, of one processor in a direction, answers a code.
#[derive(Clone, Copy)]
pub(crate) struct Fault {
    pub sub: usize,
    pub dir: Dir,
    pub cpu: u32,
    pub nth: u32,
    pub code: u32,
}

/// How many calls there were, of each subsystem, processor and direction.
#[derive(Drop)]
struct Counts {
    made: Vec<u32>,
}

/// The place of a count. None of a subsystem that no script can have.
fn place_of(sub: usize, cpu: u32, dir: Dir) -> Option<usize> {
    if sub >= MAX_SUBS as usize || cpu >= MOST_CPUS {
        return None;
    }
    let way = match dir {
        Dir::Up => 0,
        Dir::Down => 1,
    };
    Some((sub * MOST_CPUS as usize + cpu as usize) * 2 + way)
}

impl Counts {
    /// Counts calls, and answers how many there were with them.
    fn count(&mut self, sub: usize, cpu: u32, dir: Dir, more: u32) -> u32 {
        let Some(at) = place_of(sub, cpu, dir) else {
            return 0;
        };
        match self.made.get_mut(at) {
            Some(made) => {
                *made = made.saturating_add(more);
                *made
            }
            None => 0,
        }
    }
}

/// How often a subsystem that was registered before the first line is called where a processor crosses its state.
fn crossing(sub: &Sub<'_>, dir: Dir) -> u32 {
    if !sub.old || sub.callbacks.of(dir).is_none() {
        0
    } else if sub.multi {
        sub.instances
    } else {
        1
    }
}

/// Counts the calls before the first line: each processor but the first is booted, and goes down to where its first walk
/// finds it.
fn count_before(counts: &mut Counts, sight: &Sight<'_>, plan: &Plan<'_>, starts: &[Option<u32>]) {
    for (number, sub) in plan.subs.iter().enumerate() {
        for cpu in 1..MOST_CPUS {
            counts.count(number, cpu, Dir::Up, crossing(sub, Dir::Up));
            if let Some(Some(start)) = starts.get(cpu as usize) {
                if *start < sub.step && *start != sight.online {
                    counts.count(number, cpu, Dir::Down, crossing(sub, Dir::Down));
                }
            }
        }
    }
}

/// Of each processor where its first walk finds it.
pub(crate) fn starts_of(alloc: Global, plan: &Plan<'_>) -> Result<Vec<Option<u32>>, AllocError> {
    let mut starts = vec![in alloc; None; MOST_CPUS as usize]?;
    for item in &plan.items {
        let Item::Act(Act::Walk(walk)) = item else {
            continue;
        };
        if let Some(start) = starts.get_mut(walk.cpu as usize) {
            if start.is_none() {
                *start = Some(walk.start);
            }
        }
    }
    Ok(starts)
}

/// The rules by which the calls of a plan fault.
pub(crate) fn faults_of(
    alloc: Global,
    sight: &Sight<'_>,
    plan: &Plan<'_>,
    starts: &[Option<u32>],
) -> Result<Vec<Fault>, AllocError> {
    let mut counts = Counts {
        made: vec![in alloc; 0; (MAX_SUBS * MOST_CPUS * 2) as usize]?,
    };
    count_before(&mut counts, sight, plan, starts);
    let mut faults = Vec::new(alloc);
    for item in &plan.items {
        let Item::Call {
            sub,
            cpu,
            dir,
            code,
        } = item
        else {
            continue;
        };
        let nth = counts.count(*sub, *cpu, *dir, 1);
        if *code != 0 {
            faults.push(Fault {
                sub: *sub,
                dir: *dir,
                cpu: *cpu,
                nth,
                code: *code,
            })?;
        }
    }
    Ok(faults)
}
