//! What stood before a line, in short, and what may stand after it.

ghost use Rattle.std.specs.Prelude.{◌≡◌, false, Some};
ghost use Rattle.hp_script.specs.Before.{start, after};
ghost use Rattle.hp_model.specs.Scripts.{lock_step};
ghost use Rattle.hp_script.specs.Refusals.{is_first, is_cpus, is_actor, can_stand, is_behind_cpus, is_among_subs, is_among_actors, is_before_schedule, names_no_sub, is_too_many, refusal_at_end};
ghost use Rattle.hp_script.specs.LineAnswers.{AnswersPlace, AnswersRoom};

use crate::error::ScriptKind;
use crate::statement::Statement;
use crate::verb::Verb;
use hp_event::Op;
use hp_states::{MAX_ACTORS, MAX_OPERATIONS, MAX_RULES, MAX_SUBS};

/// The group of lines that a script has come to.
#[derive(Clone, Copy)]
pub enum Group {
    /// Each line so far was skipped.
    Nothing,
    /// The processors were said.
    Cpus,
    /// The absent processors too.
    Absent,
    /// Among the subsystems and their rules.
    Subs,
    /// The schedule was said.
    Schedule,
    /// Among the actors and their operations.
    Actors,
}

/// What a line is judged by, beside its own bytes.
#[derive(Clone, Copy)]
pub struct Before {
    /// The group that the lines have come to.
    pub group: Group,
    /// How many processors are possible.
    pub possible: u32,
    /// How many subsystems there are.
    pub subs: u32,
    /// How many rules the last of them has.
    pub rules: u32,
    /// How many actors there are.
    pub actors: u32,
    /// How many operations the last of them has.
    pub ops: u32,
    /// How many of all operations are setups.
    pub setups: u32,
    /// Whether the last `lock` or `unlock` of the last actor is a `lock`.
    pub locked: bool,
}

/// Whether an actor is locked after an operation: where the last `lock` or `unlock` is a `lock`.
fn locked_after(locked: bool, op: &Op) -> bool
    ensures { result ≡ lock_step locked op.now }
{
    match op {
        Op::Lock => true,
        Op::Unlock => false,
        _ => locked,
    }
}

impl Group {
    fn is_first(self) -> bool
        ensures { result ≡ is_first self }
    {
        matches!(self, Group::Nothing)
    }

    fn is_behind_cpus(self) -> bool
        ensures { result ≡ is_behind_cpus self }
    {
        matches!(self, Group::Cpus)
    }

    fn is_among_subs(self) -> bool
        ensures { result ≡ is_among_subs self }
    {
        matches!(self, Group::Subs)
    }

    fn is_among_actors(self) -> bool
        ensures { result ≡ is_among_actors self }
    {
        matches!(self, Group::Actors)
    }

    fn is_before_schedule(self) -> bool
        ensures { result ≡ is_before_schedule self }
    {
        matches!(self, Group::Cpus | Group::Absent | Group::Subs)
    }

    /// Whether a line of this first word can stand behind these.
    fn can_stand(self, verb: Verb) -> bool
        ensures { result ≡ can_stand self verb }
    {
        match verb {
            Verb::Cpus => self.is_first(),
            Verb::Absent => self.is_behind_cpus(),
            Verb::Sub | Verb::Schedule => self.is_before_schedule(),
            Verb::Rule => self.is_among_subs(),
            Verb::Actor => !self.is_first(),
            _ => self.is_among_actors(),
        }
    }
}

fn is_cpus(verb: Option<Verb>) -> bool
    ensures { result ≡ is_cpus verb }
{
    matches!(verb, Some(Verb::Cpus))
}

fn is_actor(verb: Verb) -> bool
    ensures { result ≡ is_actor (Some verb) }
{
    matches!(verb, Verb::Actor)
}

impl Before {
    /// Before the first line.
    pub fn start() -> Before
        ensures { result ≡ start }
    {
        Before {
            group: Group::Nothing,
            possible: 0,
            subs: 0,
            rules: 0,
            actors: 0,
            ops: 0,
            setups: 0,
            locked: false,
        }
    }

    /// The verb, where a line of it can stand here; else why not.
    pub fn place(&self, verb: Option<Verb>) -> Result<Verb, ScriptKind>
        ensures { AnswersPlace self.now verb result }
    {
        if self.group.is_first() && !is_cpus(verb) {
            return Err(ScriptKind::NoCpus);
        }
        let Some(verb) = verb else {
            return Err(ScriptKind::BadWord);
        };
        if !self.group.can_stand(verb) {
            return Err(ScriptKind::BadOrder);
        }
        if is_actor(verb) && self.locked {
            return Err(ScriptKind::StillLocked);
        }
        Ok(verb)
    }

    fn names_no_sub(&self, statement: &Statement) -> bool
        ensures { result ≡ names_no_sub self.now.subs statement.now }
    {
        match statement {
            Statement::Operation(Op::Setup { sub, .. }) => self.subs < *sub,
            _ => false,
        }
    }

    fn is_too_many(&self, hooks: u32, statement: &Statement) -> bool
        ensures { result ≡ is_too_many hooks self.now statement.now }
    {
        match statement {
            Statement::Sub(_) => self.subs >= MAX_SUBS,
            Statement::Rule(_) => self.rules >= MAX_RULES,
            Statement::Actor => self.actors >= MAX_ACTORS,
            Statement::Operation(op) => {
                self.ops >= MAX_OPERATIONS || (op.is_setup() && self.setups >= hooks)
            }
            _ => false,
        }
    }

    /// Whether there is room for a statement; else why not.
    pub fn room(&self, hooks: u32, statement: &Statement) -> Result<(), ScriptKind>
        ensures { AnswersRoom hooks self.now statement.now result }
    {
        if self.names_no_sub(statement) {
            return Err(ScriptKind::NoSub);
        }
        if self.is_too_many(hooks, statement) {
            return Err(ScriptKind::TooMany);
        }
        Ok(())
    }

    /// One statement more, for which there is room.
    pub fn after(&self, hooks: u32, statement: &Statement) -> Before
        requires { is_too_many hooks self.now statement.now ≡ false }
        ensures { result ≡ after self.now statement.now }
    {
        let mut next = *self;
        match statement {
            Statement::Cpus(n) => {
                next.group = Group::Cpus;
                next.possible = *n;
            }
            Statement::Absent(_) => next.group = Group::Absent,
            Statement::Sub(_) => {
                next.group = Group::Subs;
                next.subs += 1;
                next.rules = 0;
            }
            Statement::Rule(_) => next.rules += 1,
            Statement::Schedule(_) => next.group = Group::Schedule,
            Statement::Actor => {
                next.group = Group::Actors;
                next.actors += 1;
                next.ops = 0;
                next.locked = false;
            }
            Statement::Operation(op) => {
                next.ops += 1;
                next.setups += op.is_setup() as u32;
                next.locked = locked_after(self.locked, op);
            }
        }
        next
    }

    /// What is refused where the input ends here.
    pub fn refusal_at_end(&self) -> Option<ScriptKind>
        ensures { result ≡ refusal_at_end self.now }
    {
        if self.group.is_first() {
            return Some(ScriptKind::NoCpus);
        }
        if !self.group.is_among_actors() {
            return Some(ScriptKind::NoActor);
        }
        if self.locked {
            return Some(ScriptKind::StillLocked);
        }
        None
    }
}
