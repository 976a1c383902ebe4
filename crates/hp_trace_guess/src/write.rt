//! The text of a script.

use crate::call::{MOST_CPUS, Move};
use crate::deed::Walk;
use crate::fault::Fault;
use crate::item::{Act, Item, Plan, Sub};
use crate::numbers::{Numbered, has_number, state_at};
use crate::sight::Sight;
use hp_states::{Dir, MAX_NAME_LEN, MAX_SUBS, is_name_byte};
use std::alloc::{AllocError, Global};

/// What a script is written of.
#[derive(Clone, Copy)]
pub(crate) struct Matter<'a, 'b> {
    pub sight: &'a Sight<'b>,
    pub plan: &'a Plan<'b>,
    pub numbers: &'a [Numbered],
    pub faults: &'a [Fault],
    pub starts: &'a [Option<u32>],
}

fn dir_word(dir: Dir) -> &'static str {
    match dir {
        Dir::Up => "up",
        Dir::Down => "down",
    }
}

/// Which callbacks there are.
fn calls_word(sub: &Sub<'_>) -> &'static str {
    match (sub.callbacks.up.is_some(), sub.callbacks.down.is_some()) {
        (true, true) => "both",
        (true, false) => "up",
        (false, true) => "down",
        (false, false) => "none",
    }
}

fn kind_word(multi: bool) -> &'static str {
    if multi { "multi" } else { "single" }
}

fn quiet_word(quiet: bool) -> &'static str {
    if quiet { " nocalls" } else { "" }
}

/// The function by which a subsystem is named.
fn function_of<'a>(sub: &Sub<'a>) -> &'a [u8] {
    match (sub.callbacks.up, sub.callbacks.down) {
        (Some(up), _) => up,
        (None, Some(down)) => down,
        (None, None) => b"",
    }
}

/// Appends the name of a subsystem: the number of the kernel's state, and a function.
fn append_name(text: &mut String, sub: &Sub<'_>) -> Result<(), AllocError> {
    let step = sub.step;
    write!(text, "{step}:")?;
    let mut room = MAX_NAME_LEN.saturating_sub(4);
    for byte in function_of(sub) {
        if room == 0 {
            break;
        }
        room -= 1;
        let shown = if is_name_byte(*byte) {
            char::from(*byte)
        } else {
            '_'
        };
        text.push(shown)?;
    }
    Ok(())
}

/// How many processors there are: those up to the highest that is shown, and two at least.
fn cpus_of(moves: &[Move<'_>]) -> u32 {
    let mut cpus: u32 = 2;
    for shown in moves {
        cpus = cpus.max(cpu_of(shown).saturating_add(1));
    }
    cpus
}

fn cpu_of(shown: &Move<'_>) -> u32 {
    match shown {
        Move::Kick { cpu, .. } | Move::Ended { cpu, .. } => *cpu,
        Move::Called(call) => call.cpu,
    }
}

/// Which processors are shown.
fn shown_cpus(alloc: Global, moves: &[Move<'_>]) -> Result<Vec<bool>, AllocError> {
    let mut shown = vec![in alloc; false; MOST_CPUS as usize]?;
    for one in moves {
        if let Some(place) = shown.get_mut(cpu_of(one) as usize) {
            *place = true;
        }
    }
    Ok(shown)
}

/// Appends the processors: those that no line shows, between some that are shown, are absent. Answers how many are
/// present.
fn append_cpus(alloc: Global, text: &mut String, moves: &[Move<'_>]) -> Result<u32, AllocError> {
    let cpus = cpus_of(moves);
    writeln!(text, "cpus {cpus}")?;
    let shown = shown_cpus(alloc, moves)?;
    let mut present: u32 = 1;
    let mut absent = String::new(alloc);
    for cpu in 1..cpus {
        if cpus == 2 || shown.get(cpu as usize).copied().unwrap_or(false) {
            present = present.saturating_add(1);
        } else {
            write!(absent, " {cpu}")?;
        }
    }
    if !absent.is_empty() {
        writeln!(text, "absent{absent}")?;
    }
    Ok(present)
}

/// Appends a subsystem with its rules.
fn append_sub(
    text: &mut String,
    number: usize,
    sub: &Sub<'_>,
    faults: &[Fault],
) -> Result<(), AllocError> {
    write!(text, "sub ")?;
    append_name(text, sub)?;
    let calls = calls_word(sub);
    let kind = kind_word(sub.multi);
    writeln!(text, " {calls} {kind}")?;
    for fault in faults {
        if fault.sub != number {
            continue;
        }
        let dir = dir_word(fault.dir);
        let Fault { cpu, nth, code, .. } = *fault;
        writeln!(text, "rule {dir} {cpu} * {nth} {code}")?;
    }
    Ok(())
}

/// The states that walks go to and no subsystem is at: the machine wants them to have a name.
fn bare_targets(alloc: Global, matter: &Matter<'_, '_>) -> Result<Vec<u32>, AllocError> {
    let mut bare = Vec::new(alloc);
    for item in &matter.plan.items {
        let Item::Act(Act::Walk(walk)) = item else {
            continue;
        };
        let step = walk.target;
        if step != 0
            && step != matter.sight.online
            && !matter.sight.is_border(step)
            && !is_at_some(matter.plan, step)
            && has_number(matter.numbers, step)
            && !bare.contains(&step)
        {
            bare.push(step)?;
        }
    }
    Ok(bare)
}

fn is_at_some(plan: &Plan<'_>, step: u32) -> bool {
    let mut is = false;
    for sub in &plan.subs {
        is = is || sub.step == step;
    }
    is
}

/// Appends what brings the machine to where the first line finds it.
fn append_before(
    text: &mut String,
    matter: &Matter<'_, '_>,
    bare: &[u32],
    present: u32,
) -> Result<(), AllocError> {
    let mut number = 1usize;
    for sub in &matter.plan.subs {
        if sub.old {
            let state = state_at(matter.numbers, sub.step);
            writeln!(text, "setup {state} {number} nocalls")?;
            for inst in 0..sub.instances {
                let inst = inst.saturating_add(1);
                writeln!(text, "add {state} {inst} nocalls")?;
            }
        }
        number = number.saturating_add(1);
    }
    for step in bare {
        let state = state_at(matter.numbers, *step);
        writeln!(text, "setup {state} {number} nocalls")?;
        number = number.saturating_add(1);
    }
    writeln!(text, "boot {present}")?;
    for (cpu, start) in matter.starts.iter().enumerate() {
        if let Some(start) = start {
            if *start != matter.sight.online {
                let state = state_at(matter.numbers, *start);
                writeln!(text, "target {cpu} {state}")?;
            }
        }
    }
    writeln!(text, "show states")
}

/// Where a walk goes: what the processor's own thread is asked for on the way down to 0 is to go to cpu:teardown.
fn goal_of(matter: &Matter<'_, '_>, walk: &Walk) -> u32 {
    if walk.target == matter.sight.take_or_so() {
        0
    } else {
        state_at(matter.numbers, walk.target)
    }
}

/// Appends a walk.
fn append_walk(text: &mut String, matter: &Matter<'_, '_>, walk: &Walk) -> Result<(), AllocError> {
    let cpu = walk.cpu;
    if let Some(fail) = walk.fail {
        let state = state_at(matter.numbers, fail);
        writeln!(text, "fail {cpu} {state}")?;
    }
    let goal = goal_of(matter, walk);
    writeln!(text, "target {cpu} {goal}")
}

/// Appends an operation.
fn append_act(text: &mut String, matter: &Matter<'_, '_>, act: &Act) -> Result<(), AllocError> {
    let at = |sub: &usize| match matter.plan.subs.get(*sub) {
        Some(sub) => state_at(matter.numbers, sub.step),
        None => 0,
    };
    match act {
        Act::Setup { sub, quiet } => {
            let state = at(sub);
            let number = sub.saturating_add(1);
            let quiet = quiet_word(*quiet);
            writeln!(text, "setup {state} {number}{quiet}")
        }
        Act::Remove { sub, quiet } => {
            let state = at(sub);
            let quiet = quiet_word(*quiet);
            writeln!(text, "remove {state}{quiet}")
        }
        Act::Add { sub, inst, quiet } => {
            let state = at(sub);
            let quiet = quiet_word(*quiet);
            writeln!(text, "add {state} {inst}{quiet}")
        }
        Act::Del { sub, inst, quiet } => {
            let state = at(sub);
            let quiet = quiet_word(*quiet);
            writeln!(text, "del {state} {inst}{quiet}")
        }
        Act::Walk(walk) => append_walk(text, matter, walk),
    }
}

/// The text of a script. One of too many subsystems ends with the first that is too many, where a reader refuses it.
pub(crate) fn text_of(
    alloc: Global,
    moves: &[Move<'_>],
    matter: &Matter<'_, '_>,
) -> Result<String, AllocError> {
    let mut text = String::new(alloc);
    writeln!(text, "# A real kernel's run, by its trace.")?;
    let present = append_cpus(alloc, &mut text, moves)?;
    for (number, sub) in matter.plan.subs.iter().enumerate() {
        append_sub(&mut text, number, sub, matter.faults)?;
        if number >= MAX_SUBS as usize {
            return Ok(text);
        }
    }
    let bare = bare_targets(alloc, matter)?;
    for step in &bare {
        writeln!(text, "sub {step}: none single")?;
    }
    writeln!(text, "actor trace")?;
    append_before(&mut text, matter, &bare, present)?;
    for item in &matter.plan.items {
        if let Item::Act(act) = item {
            append_act(&mut text, matter, act)?;
        }
    }
    Ok(text)
}
