//! What a script would do, act for act, and the calls that each act is to make.

use crate::call::Call;
use crate::deed::{Deed, Walk};
use crate::sight::{Callbacks, Sight, is_that};
use hp_states::Dir;
use std::alloc::{AllocError, Global};

/// A subsystem as it is registered once, at a state of the kernel.
#[derive(Clone, Copy)]
pub(crate) struct Sub<'a> {
    pub step: u32,
    pub multi: bool,
    /// The functions that its calls were of.
    pub callbacks: Callbacks<'a>,
    /// Whether it was registered before the first line.
    pub old: bool,
    /// How many instances it had then.
    pub instances: u32,
    /// How many it has.
    now: u32,
}

/// An operation of a script.
#[derive(Clone, Copy)]
pub(crate) enum Act {
    Setup { sub: usize, quiet: bool },
    Remove { sub: usize, quiet: bool },
    Add { sub: usize, inst: u32, quiet: bool },
    Del { sub: usize, inst: u32, quiet: bool },
    Walk(Walk),
}

/// An operation, or a call that the last operation is to make.
#[derive(Clone, Copy)]
pub(crate) enum Item {
    Act(Act),
    Call {
        sub: usize,
        cpu: u32,
        dir: Dir,
        code: u32,
    },
}

/// What a script would do.
#[derive(Drop)]
pub(crate) struct Plan<'a> {
    pub subs: Vec<Sub<'a>>,
    pub items: Vec<Item>,
}

/// The subsystems that are registered while the deeds of a trace are gone through.
#[derive(Drop)]
struct Planning<'a> {
    plan: Plan<'a>,
    /// At each state the subsystem that is registered, where one is known.
    at: Vec<Option<usize>>,
}

/// How many of the first calls of a state, among those of a walk, are of one processor's crossing.
fn instances_in(calls: &[Call<'_>], step: u32, dir: Dir) -> u32 {
    let mut count: u32 = 0;
    for call in calls {
        if call.step == step && call.dir == Some(dir) {
            count = count.saturating_add(1);
        }
    }
    count
}

/// More calls of one walk aren't looked through again and again.
const MOST_OF_A_WALK: usize = 16384;

/// Whether a call of a state faults.
fn faults_at(calls: &[Call<'_>], step: u32) -> bool {
    let mut faults = false;
    for call in calls {
        faults = faults || (call.step == step && call.code != 0);
    }
    faults
}

impl<'a> Planning<'a> {
    fn sub_at(&self, step: u32) -> Option<usize> {
        match self.at.get(step as usize) {
            Some(at) => *at,
            None => None,
        }
    }

    fn put(&mut self, step: u32, sub: Option<usize>) {
        if let Some(place) = self.at.get_mut(step as usize) {
            *place = sub;
        }
    }

    fn act(&mut self, act: Act) -> Result<(), AllocError> {
        self.plan.items.push(Item::Act(act))?;
        Ok(())
    }

    /// A new subsystem at a state.
    fn add_sub(&mut self, step: u32, multi: bool, old: bool) -> Result<usize, AllocError> {
        let number = self.plan.subs.len();
        self.plan.subs.push(Sub {
            step,
            multi,
            callbacks: Callbacks::none(),
            old,
            instances: 0,
            now: 0,
        })?;
        self.put(step, Some(number));
        Ok(number)
    }

    /// Notes a call of a subsystem.
    fn call(&mut self, sub: usize, call: &Call<'a>, dir: Dir) -> Result<(), AllocError> {
        if let Some(sub) = self.plan.subs.get_mut(sub) {
            sub.callbacks.note(dir, call.function);
        }
        self.plan.items.push(Item::Call {
            sub,
            cpu: call.cpu,
            dir,
            code: call.code,
        })?;
        Ok(())
    }

    /// Whether a call in a walk is of another subsystem than the one that is known at its state.
    fn is_other(&self, sub: usize, call: &Call<'a>, dir: Dir) -> bool {
        match self.plan.subs.get(sub) {
            Some(sub) => match sub.callbacks.of(dir) {
                Some(function) => function != call.function,
                None => false,
            },
            None => false,
        }
    }

    /// The subsystem of a call in a walk: where none is known it was registered before the first line.
    fn sub_for(&mut self, deed: &Deed<'a>, call: &Call<'a>, dir: Dir) -> Result<usize, AllocError> {
        if let Some(sub) = self.sub_at(call.step) {
            return Ok(sub);
        }
        let sub = self.add_sub(call.step, call.multi, true)?;
        if call.multi {
            let count = instances_in(&deed.calls, call.step, dir);
            if let Some(sub) = self.plan.subs.get_mut(sub) {
                sub.instances = count;
                sub.now = count;
            }
        }
        Ok(sub)
    }

    /// Before a walk, what no line shows of a state that it calls: that another subsystem was set up there than the one
    /// that is known, without calls.
    fn replace(&mut self, sub: usize, call: &Call<'a>, dir: Dir) -> Result<(), AllocError> {
        if !self.is_other(sub, call, dir) {
            return Ok(());
        }
        self.act(Act::Remove { sub, quiet: true })?;
        let sub = self.add_sub(call.step, false, false)?;
        self.act(Act::Setup { sub, quiet: true })
    }

    /// Before a walk, what no line shows of a state with instances that it crosses: that some were added or taken away,
    /// without calls.
    fn recount(&mut self, sub: usize, count: u32) -> Result<(), AllocError> {
        let had = match self.plan.subs.get(sub) {
            Some(sub) => sub.now,
            None => 0,
        };
        for _ in had..count {
            let inst = self.count(sub, Dir::Up);
            self.act(Act::Add {
                sub,
                inst,
                quiet: true,
            })?;
        }
        for _ in count..had {
            let inst = self.count(sub, Dir::Down);
            self.act(Act::Del {
                sub,
                inst,
                quiet: true,
            })?;
        }
        Ok(())
    }

    /// Before a walk, what no line shows of the states that it calls; of one with too many calls for a walk nothing.
    fn catch_up(&mut self, deed: &Deed<'a>, walk: &Walk) -> Result<(), AllocError> {
        if deed.calls.len() > MOST_OF_A_WALK {
            return Ok(());
        }
        for call in &deed.calls {
            let (Some(dir), Some(sub)) = (call.dir, self.sub_at(call.step)) else {
                continue;
            };
            if !call.multi {
                self.replace(sub, call, dir)?;
            } else if dir == walk.dir && !faults_at(&deed.calls, call.step) {
                self.recount(sub, instances_in(&deed.calls, call.step, dir))?;
            }
        }
        Ok(())
    }

    fn walk(&mut self, deed: &Deed<'a>, walk: Walk) -> Result<(), AllocError> {
        self.catch_up(deed, &walk)?;
        self.act(Act::Walk(walk))?;
        for call in &deed.calls {
            if let Some(dir) = call.dir {
                let sub = self.sub_for(deed, call, dir)?;
                self.call(sub, call, dir)?;
            }
        }
        Ok(())
    }

    /// The direction of a registration, by its first call: that of its function, where it is known; else it adds
    /// something, but where it is of a state without instances that is registered, and nothing fails.
    fn dir_of(&self, sight: &Sight<'a>, deed: &Deed<'a>, first: &Call<'a>) -> Dir {
        let mut faults = false;
        for call in &deed.calls {
            faults = faults || call.code != 0;
        }
        let known = match self.sub_at(first.step) {
            Some(sub) => match self.plan.subs.get(sub) {
                Some(sub) => sub.callbacks.dir_of(first.function),
                None => None,
            },
            None => sight.callbacks_of(first.step).dir_of(first.function),
        };
        match known {
            Some(dir) => dir,
            None if self.sub_at(first.step).is_some() && !first.multi && !faults => Dir::Down,
            None => Dir::Up,
        }
    }

    /// The calls of a registration: those of another function than the first go the other way.
    fn calls(
        &mut self,
        sub: usize,
        deed: &Deed<'a>,
        first: &Call<'a>,
        dir: Dir,
    ) -> Result<(), AllocError> {
        for call in &deed.calls {
            let way = if call.function == first.function {
                dir
            } else {
                dir.opposite()
            };
            self.call(sub, call, way)?;
        }
        Ok(())
    }

    /// The number of the instance that comes next, or that was added last.
    fn count(&mut self, sub: usize, dir: Dir) -> u32 {
        let Some(sub) = self.plan.subs.get_mut(sub) else {
            return 0;
        };
        let had = sub.now;
        match dir {
            Dir::Up => {
                sub.now = had.saturating_add(1);
                sub.now
            }
            Dir::Down => {
                sub.now = had.saturating_sub(1);
                had
            }
        }
    }

    /// A registration of an instance.
    fn instance(&mut self, deed: &Deed<'a>, first: &Call<'a>, dir: Dir) -> Result<(), AllocError> {
        let sub = match self.sub_at(first.step) {
            Some(sub) => sub,
            None => {
                let sub = self.add_sub(first.step, true, dir == Dir::Down)?;
                match dir {
                    Dir::Up => self.act(Act::Setup { sub, quiet: false })?,
                    Dir::Down => {}
                }
                sub
            }
        };
        let inst = self.count(sub, dir);
        self.act(match dir {
            Dir::Up => Act::Add {
                sub,
                inst,
                quiet: false,
            },
            Dir::Down => Act::Del {
                sub,
                inst,
                quiet: false,
            },
        })?;
        self.calls(sub, deed, first, dir)?;
        if fails(deed) {
            self.count(sub, dir.opposite());
        }
        Ok(())
    }

    /// A setup, of a subsystem that is then registered unless a call faults.
    fn setup(&mut self, deed: &Deed<'a>, first: &Call<'a>) -> Result<(), AllocError> {
        if let Some(sub) = self.sub_at(first.step) {
            self.act(Act::Remove { sub, quiet: true })?;
        }
        let sub = self.add_sub(first.step, false, false)?;
        self.act(Act::Setup { sub, quiet: false })?;
        self.calls(sub, deed, first, Dir::Up)?;
        if fails(deed) {
            self.put(first.step, None);
        }
        Ok(())
    }

    /// A removal, of a subsystem that is registered, or was before the first line.
    fn remove(&mut self, deed: &Deed<'a>, first: &Call<'a>) -> Result<(), AllocError> {
        let sub = match self.sub_at(first.step) {
            Some(sub) => sub,
            None => self.add_sub(first.step, false, true)?,
        };
        self.act(Act::Remove { sub, quiet: false })?;
        self.calls(sub, deed, first, Dir::Down)?;
        self.put(first.step, None);
        Ok(())
    }

    fn registration(&mut self, sight: &Sight<'a>, deed: &Deed<'a>) -> Result<(), AllocError> {
        let Some(first) = deed.calls.first() else {
            return Ok(());
        };
        let first = *first;
        let dir = self.dir_of(sight, deed, &first);
        if first.multi {
            return self.instance(deed, &first, dir);
        }
        match dir {
            Dir::Up => self.setup(deed, &first),
            Dir::Down => self.remove(deed, &first),
        }
    }
}

/// Whether a registration was undone: its last calls are of another function than its first, or its last answered a code.
fn fails(deed: &Deed<'_>) -> bool {
    match (deed.calls.first(), deed.calls.last()) {
        (Some(first), Some(last)) => {
            last.code != 0 || !is_that(Some(first.function), last.function)
        }
        _ => false,
    }
}

/// What a script would do.
pub(crate) fn plan_of<'a>(
    alloc: Global,
    sight: &Sight<'a>,
    deeds: &[Deed<'a>],
) -> Result<Plan<'a>, AllocError> {
    let mut planning = Planning {
        plan: Plan {
            subs: Vec::new(alloc),
            items: Vec::new(alloc),
        },
        at: vec![in alloc; None; crate::call::MOST_STEPS as usize]?,
    };
    for deed in deeds {
        match deed.walk {
            Some(walk) => planning.walk(deed, walk)?,
            None => planning.registration(sight, deed)?,
        }
    }
    let Planning { plan, .. } = planning;
    Ok(plan)
}
