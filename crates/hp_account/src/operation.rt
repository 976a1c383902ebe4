//! The operation that holds the map lock.

ghost use Rattle.std.specs.Prelude.{◌≡◌, ◌≤◌, ◌<◌, true, None, length};
ghost use Rattle.hp_states.specs.declared.limits.TheConstants.{MAX_CPUS};
ghost use Rattle.hp_event.specs.Ops.{is_map_op, is_upmany};
ghost use Rattle.hp_model.specs.Sequence.{target_of};
ghost use Rattle.hp_suspend.specs.Asked.{meaning};
ghost use Rattle.hp_suspend.specs.Tables.{AreOnline};
ghost use Rattle.hp_account.specs.Operations.{CountsFit, IsFew};
ghost use Rattle.hp_account.specs.OperationChanges.{EntersWith, WentPast, BeganWalk, IsNextOfOperation, next_of_single, EndedWith};

use crate::processors::Processors;
use crate::suspended::Suspended;
use hp_event::{Answer, Op};
use hp_states::{OFFLINE, ONLINE};
use hp_suspend::{Asked, Batch, Boot, Freeze, Thaw, WalkAsk};

/// One walk of a processor to a state, with its answer once it has ended.
#[derive(Clone, Copy)]
pub struct OneWalk {
    /// The processor.
    pub cpu: u32,
    /// The state.
    pub to: u32,
    /// What the walk answered.
    pub answer: Option<Answer>,
}

/// The walks of an operation of the map lock.
#[derive(Clone, Copy)]
pub enum Walks {
    /// An up, a down or a target: one walk, unless the processor stands there already.
    Single(OneWalk),
    /// A freeze.
    Freeze(Freeze),
    /// A thaw.
    Thaw(Thaw),
    /// A boot.
    Boot(Boot),
    /// An upmany, whose walks are in flight together.
    Batch(Batch),
    /// A disable or an enable.
    NoWalk,
}

/// The operation that holds the map lock: whose it is, and how far it is.
#[derive(Clone, Copy)]
pub struct MapOperation {
    /// The seat that holds the lock.
    pub seat: u32,
    /// The operation.
    pub op: Op,
    /// Its walks.
    pub sequence: Walks,
}

impl Walks {
    /// The walks of an operation that has just entered, with none behind it.
    ///
    /// The processors say where each stands and whether it is online. Of an operation that doesn't take
    /// the map lock there are none. Takes no memory. After `_cpu_up`, `_cpu_down` and their callers in
    /// `kernel/cpu.c`.
    pub fn begin(op: &Op, processors: &Processors) -> Walks
        requires map { is_map_op op.now ≡ true }
        ensures { EntersWith op.now processors.now result }
    {
        match *op {
            Op::Up(cpu) => one_walk(cpu, ONLINE),
            Op::Down(cpu) => one_walk(cpu, OFFLINE),
            Op::Target(cpu, value) => one_walk(cpu, target_of(value)),
            Op::Boot(max) => Walks::Boot(Boot::begin(max)),
            Op::Freeze(primary) => Walks::Freeze(Freeze::begin(primary, processors.online())),
            Op::Thaw => Walks::Thaw(Thaw::begin()),
            Op::UpMany(ref set) => Walks::Batch(Batch::begin(set, processors.settled())),
            _ => Walks::NoWalk,
        }
    }

    /// Goes on past a walk of it, which answered this.
    ///
    /// Its counts are below `MAX_EVENTS`. Takes no memory. After `_cpu_up`, `_cpu_down` and the loops of
    /// `kernel/cpu.c` over processors.
    pub fn took(&mut self, answer: Answer)
        requires { CountsFit self.old }
        ensures { WentPast answer self.old self.new }
    {
        match self {
            Walks::Single(walk) => walk.took(answer),
            Walks::Freeze(freeze) => freeze.took(answer),
            Walks::Thaw(thaw) => thaw.took(answer),
            Walks::Boot(boot) => boot.took(answer),
            Walks::Batch(batch) => batch.took(answer),
            Walks::NoWalk => {}
        }
    }
}

impl MapOperation {
    /// Whether it is an upmany.
    pub(crate) fn is_upmany(&self) -> bool
        ensures { result ≡ is_upmany self.now.op }
    {
        matches!(self.op, Op::UpMany(_))
    }

    /// Goes on past the begin of the walk of a processor, which came next of it. Takes no memory.
    pub(crate) fn began(&mut self, cpu: u32)
        requires { cpu < MAX_CPUS }
        ensures { BeganWalk cpu self.old self.new }
    {
        if let Walks::Batch(batch) = &mut self.sequence {
            batch.began(cpu);
        }
    }

    /// What comes next: a walk, or the end with its answer.
    ///
    /// While nothing walks it is what the journal says of the operation, where the processors and the
    /// suspension are the journal's. All lists are as long. Takes no memory, and a time linear in the
    /// processors. After `_cpu_up`, `_cpu_down` and the loops of `kernel/cpu.c` over processors.
    pub fn next(&self, processors: &Processors, suspended: &Suspended) -> Asked
        requires few { IsFew self.now.sequence }
        requires frozen { length suspended.now.frozen ≡ length processors.now.settled }
        requires present { length processors.now.present ≡ length processors.now.settled }
        ensures { IsNextOfOperation self.now processors.now suspended.now (meaning result) }
    {
        let settled = processors.settled();
        match &self.sequence {
            Walks::Single(walk) => walk.next(settled),
            Walks::Freeze(freeze) => freeze.next(processors.online(), suspended.wakeup()),
            Walks::Thaw(thaw) => thaw.next(suspended.frozen(), settled),
            Walks::Boot(boot) => boot.next(processors.present(), processors.online()),
            Walks::Batch(batch) => match batch.next() {
                Some(cpu) => Asked::Walk(WalkAsk { cpu, to: ONLINE }),
                None => Asked::Ended(Answer::Ok(batch.failed() as i32)),
            },
            Walks::NoWalk => Asked::Ended(Answer::Ok(0)),
        }
    }
}

impl OneWalk {
    /// What comes next: the walk, where the processor stands elsewhere; else the end with Ok(0), or with
    /// the answer of the walk.
    fn next(&self, settled: &[u32]) -> Asked
        ensures { meaning result ≡ next_of_single self.now settled.now }
    {
        let stands = settled.get(self.cpu as usize).copied().unwrap_or(OFFLINE);
        match self.answer {
            Some(answer) => Asked::Ended(answer),
            None if stands == self.to => Asked::Ended(Answer::Ok(0)),
            None => Asked::Walk(WalkAsk {
                cpu: self.cpu,
                to: self.to,
            }),
        }
    }

    /// The walk has ended with this answer, unless it had before.
    fn took(&mut self, answer: Answer)
        ensures { EndedWith answer self.old self.new }
    {
        if self.answer.is_none() {
            self.answer = Some(answer);
        }
    }
}

/// The state that was written to a `target` file: 0 for a number below it.
pub(crate) fn target_of(value: i32) -> u32
    ensures { result ≡ target_of value }
{
    if value < 0 { OFFLINE } else { value as u32 }
}

/// One walk, which hasn't ended.
fn one_walk(cpu: u32, to: u32) -> Walks
    ensures { result ≡ Walks.Single (record { cpu = cpu; to = to; answer = None }) }
{
    Walks::Single(OneWalk {
        cpu,
        to,
        answer: None,
    })
}
