//! A script as it grows.

ghost use Rattle.std.specs.Prelude.{◌≡◌, ◌<◌, ◌≤◌, [], vec_len, OnOk};
ghost use Rattle.hp_states.specs.declared.limits.TheConstants.{MAX_RULES, MAX_ACTORS};
ghost use Rattle.hp_script.specs.declared.statement.Statement.TheVariants as says;
ghost use Rattle.hp_script.specs.Script.{script_in};
ghost use Rattle.hp_script.specs.Drafts.{contents_of, contents_and, with_last, one_rule_more, one_op_more, last_rules, HasPlace, subs_and, actors_and, ops_of};

use crate::schedule::Schedule;
use crate::script::Script;
use crate::statement::Statement;
use hp_event::{Head, Numbers, Op, Sub, Subs};
use hp_states::{HookPlan, NoMemory, Rule};
use std::alloc::Global;

/// What the lines so far say.
#[derive(Drop)]
pub struct Draft {
    pub alloc: Global,
    pub possible: u32,
    pub absent: Numbers,
    pub subs: Vec<Sub>,
    pub actors: Vec<Vec<Op>>,
    pub schedule: Schedule,
}

fn add_sub(subs: &mut Vec<Sub>, sub: Sub) -> Result<(), NoMemory>
    ensures { OnOk result (subs.new.items ≡ subs_and subs.old.items (says.Sub sub)) }
{
    let plan = HookPlan::none();
    subs.push(Sub { plan, ..sub })?;
    Ok(())
}

fn add_rule(subs: &mut Vec<Sub>, rule: Rule)
    requires { last_rules subs.old.items < MAX_RULES }
    ensures { subs.new.items ≡ with_last (one_rule_more rule) subs.old.items }
{
    if let Some(sub) = subs.last_mut() {
        sub.plan.add(rule);
    }
}

fn add_actor(alloc: Global, actors: &mut Vec<Vec<Op>>) -> Result<(), NoMemory>
    ensures { OnOk result (ops_of actors.new ≡ actors_and (ops_of actors.old) says.Actor) }
{
    actors.push(Vec::new(alloc))?;
    Ok(())
}

fn add_op(actors: &mut Vec<Vec<Op>>, op: Op) -> Result<(), NoMemory>
    ensures { OnOk result (ops_of actors.new ≡ with_last (one_op_more op) (ops_of actors.old)) }
{
    if let Some(ops) = actors.last_mut() {
        ops.push(op)?;
    }
    Ok(())
}

impl Draft {
    /// Before the first line.
    pub fn new(alloc: Global) -> Draft
        ensures { contents_of result ≡ script_in [] }
    {
        Draft {
            alloc,
            possible: 0,
            absent: Numbers::new(alloc),
            subs: Vec::new(alloc),
            actors: Vec::new(alloc),
            schedule: Schedule::Rounds,
        }
    }

    /// One statement more.
    pub fn add(&mut self, statement: Statement) -> Result<(), NoMemory>
        requires { HasPlace self.old.subs.items statement }
        ensures { OnOk result (contents_of self.new
            ≡ contents_and (contents_of self.old) statement) }
    {
        match statement {
            Statement::Cpus(n) => self.possible = n,
            Statement::Absent(absent) => self.absent = absent,
            Statement::Sub(sub) => add_sub(&mut self.subs, sub)?,
            Statement::Rule(rule) => add_rule(&mut self.subs, rule),
            Statement::Schedule(schedule) => self.schedule = schedule,
            Statement::Actor => add_actor(self.alloc, &mut self.actors)?,
            Statement::Operation(op) => add_op(&mut self.actors, op)?,
        }
        Ok(())
    }

    /// The script.
    pub fn finish(self) -> Script
        requires { vec_len self.actors ≤ MAX_ACTORS }
        ensures { result ≡ contents_of self }
    {
        let Draft {
            alloc: _,
            possible,
            absent,
            subs,
            actors,
            schedule,
        } = self;
        let subs = Subs::from_vec(subs);
        Script {
            head: Head {
                possible,
                absent,
                subs,
            },
            actors,
            schedule,
        }
    }
}
