//! What one line says.

ghost use Rattle.std.specs.Prelude.{◌≡◌, IfOk};
ghost use Rattle.hp_script.specs.Ranges.{judged};
ghost use Rattle.hp_script.specs.Statements.{mix as mix_at, schedule_of_kind as schedule_of_kind_at, schedule as schedule_at, label as label_at, statement_by};
ghost use Rattle.hp_text.specs.Readings.{alone};
ghost use Rattle.hp_script.specs.LineAnswers.{Gives, GivesStatement};

use crate::error::ScriptKind;
use crate::ranges::is_in_range;
use crate::schedule::Schedule;
use crate::stop::Stop;
use crate::verb::Verb;
use crate::words::LineWords;
use hp_event::{Numbers, Op, Sub};
use hp_states::{NoMemory, Rule};
use hp_text::{
    Unread, Words, both, done, is_name, long_number, number_alone, number_list, read_op_behind,
    rule, sub,
};
use std::alloc::Global;

/// What a line says that isn't skipped.
#[derive(Drop)]
pub enum Statement {
    /// So many processors are possible.
    Cpus(u32),
    /// These of them are absent.
    Absent(Numbers),
    /// A subsystem, as yet without rules.
    Sub(Sub),
    /// A rule of the subsystem above.
    Rule(Rule),
    /// The schedule.
    Schedule(Schedule),
    /// An actor, as yet without operations. Its label isn't kept.
    Actor,
    /// An operation of the actor above.
    Operation(Op),
}

/// What stands behind `schedule mix`.
fn mix(words: &mut LineWords<'_>) -> Result<Schedule, Unread>
    ensures { result ≡ mix_at words.old }
{
    let Some(word) = words.next_word() else {
        return Err(Unread::NotOfForm);
    };
    let turns = number_alone(words);
    let (seed, turns) = both(long_number(word), turns)?;
    Ok(Schedule::Mix { seed, turns })
}

/// The words behind the name of a kind of schedule.
#[tactic(auto, unfolding(crate::specs::Statements::schedule_of_kind))]
fn schedule_of_kind(
    alloc: Global,
    name: &[u8],
    words: &mut LineWords<'_>,
) -> Result<Result<Schedule, Unread>, NoMemory>
    ensures { IfOk result (λ r. r ≡ schedule_of_kind_at name.now words.old) }
{
    if name == b"rounds".as_slice() {
        return Ok(match done(words, ()) {
            Ok(()) => Ok(Schedule::Rounds),
            Err(unread) => Err(unread),
        });
    }
    if name == b"turns".as_slice() {
        return Ok(match number_list(alloc, words)? {
            Ok(seats) => Ok(Schedule::Turns(seats)),
            Err(unread) => Err(unread),
        });
    }
    if name == b"mix".as_slice() {
        return Ok(mix(words));
    }
    Ok(Err(Unread::NotOfForm))
}

/// The words behind `schedule`: `rounds`, `turns S S ..` or `mix SEED N`.
#[tactic(auto, unfolding(crate::specs::Statements::schedule))]
fn schedule(alloc: Global, words: &mut LineWords<'_>) -> Result<Result<Schedule, Unread>, NoMemory>
    ensures { IfOk result (λ r. r ≡ schedule_at words.old) }
{
    match words.next_word() {
        Some(name) => schedule_of_kind(alloc, name, words),
        None => Ok(Err(Unread::NotOfForm)),
    }
}

/// The label of an actor.
fn label(words: &mut LineWords<'_>) -> Result<(), Unread>
    ensures { result ≡ alone label_at words.old }
{
    let Some(word) = words.next_word() else {
        return Err(Unread::NotOfForm);
    };
    done(words, ())?;
    if is_name(word) {
        Ok(())
    } else {
        Err(Unread::NotOfForm)
    }
}

/// What the words behind this first word say.
fn said_by(alloc: Global, verb: Verb, words: &mut LineWords<'_>) -> Result<Statement, Stop>
    ensures { Gives result (judged (statement_by verb words.old)) }
{
    Ok(match verb {
        Verb::Cpus => Statement::Cpus(number_alone(words)?),
        Verb::Absent => Statement::Absent(number_list(alloc, words)??),
        Verb::Sub => Statement::Sub(sub(alloc, words)??),
        Verb::Rule => Statement::Rule(rule(words)?),
        Verb::Schedule => Statement::Schedule(schedule(alloc, words)??),
        Verb::Actor => {
            label(words)?;
            Statement::Actor
        }
        Verb::Operation(first) => Statement::Operation(read_op_behind(first, words)?),
    })
}

/// What the words behind this first word say, where so many processors are possible and each number
/// is in its range.
pub fn read_statement(
    alloc: Global,
    possible: u32,
    verb: Verb,
    words: &mut LineWords<'_>,
) -> Result<Statement, Stop>
    ensures { GivesStatement possible result (statement_by verb words.old) }
{
    let said = said_by(alloc, verb, words)?;
    if is_in_range(possible, &said) {
        Ok(said)
    } else {
        Err(Stop::Bad(ScriptKind::BadNumber))
    }
}
