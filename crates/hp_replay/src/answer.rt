//! The answers that words say, and how an entry was made.

ghost use Rattle.std.specs.Prelude.{◌≡◌};
ghost use Rattle.hp_event.specs.declared.how.How.TheVariants as how;
ghost use Rattle.hp_event.specs.declared.answer.Answer.TheVariants as answer;
ghost use Rattle.hp_replay.specs.Tails.{numbered};
ghost use Rattle.hp_replay.specs.EventAt.{how as how_at, ok_tail, stuck_tail, answer as answer_at, walk_answer as walk_answer_at};

use crate::words::Words;
use hp_event::{Answer, How};
use hp_text::integer;

/// The words behind `fault`, of an entry.
fn ran_fault(words: &mut Words<'_>) -> Option<How>
    ensures { result ≡ numbered (λ code. how.RanFault code) words.old }
{
    let code = words.number()?;
    words.done(How::RanFault(code))
}

/// The words behind `overruled`.
fn overruled(words: &mut Words<'_>) -> Option<How>
    ensures { result ≡ numbered (λ code. how.Overruled code) words.old }
{
    let code = words.number()?;
    words.done(How::Overruled(code))
}

/// How an entry was made, as the words say which are left.
#[tactic(auto, unfolding(crate::specs::EventAt::how))]
#[inline(always)]
pub fn how(words: &mut Words<'_>) -> Option<How>
    ensures { result ≡ how_at words.old }
{
    // Most entries ran, and `ok` ends their lines.
    if words.are_ok() {
        return Some(How::RanOk);
    }
    any_how(words)
}

/// How an entry was made, by the table of the words.
#[tactic(auto, unfolding(crate::specs::EventAt::how))]
fn any_how(words: &mut Words<'_>) -> Option<How>
    ensures { result ≡ how_at words.old }
{
    match words.next()? {
        b"ok" => words.done(How::RanOk),
        b"fault" => ran_fault(words),
        b"injected" => words.done(How::Injected),
        b"empty" => words.done(How::Empty),
        b"presumed" => words.done(How::Presumed),
        b"overruled" => overruled(words),
        _ => None,
    }
}

/// The words behind `ok`.
fn ok(words: &mut Words<'_>) -> Option<Answer>
    ensures { result ≡ ok_tail words.old }
{
    let value = integer(words.next()?).ok()?;
    words.done(Answer::Ok(value))
}

/// The words behind `refused`.
fn refused(words: &mut Words<'_>) -> Option<Answer>
    ensures { result ≡ numbered (λ errno. answer.Refused errno) words.old }
{
    let errno = words.number()?;
    words.done(Answer::Refused(errno))
}

/// The words behind `fault`, of an answer.
fn fault(words: &mut Words<'_>) -> Option<Answer>
    ensures { result ≡ numbered (λ code. answer.Fault code) words.old }
{
    let code = words.number()?;
    words.done(Answer::Fault(code))
}

/// The words behind `stuck`.
fn stuck(words: &mut Words<'_>) -> Option<Answer>
    ensures { result ≡ stuck_tail words.old }
{
    let first = words.number()?;
    let second = words.number()?;
    let at = words.number()?;
    words.done(Answer::Stuck { first, second, at })
}

/// The answer of an operation or a registration, as the words say which are left.
#[tactic(auto, unfolding(crate::specs::EventAt::answer))]
pub fn answer(words: &mut Words<'_>) -> Option<Answer>
    ensures { result ≡ answer_at words.old }
{
    match words.next()? {
        b"ok" => ok(words),
        b"refused" => refused(words),
        b"fault" => fault(words),
        b"stuck" => stuck(words),
        b"full" => words.done(Answer::LogFull),
        _ => None,
    }
}

/// The answer of a walk, as the words say which are left: where it is ok, no number follows.
#[tactic(auto, unfolding(crate::specs::EventAt::walk_answer))]
pub fn walk_answer(words: &mut Words<'_>) -> Option<Answer>
    ensures { result ≡ walk_answer_at words.old }
{
    match words.next()? {
        b"ok" => words.done(Answer::Ok(0)),
        b"fault" => fault(words),
        b"stuck" => stuck(words),
        _ => None,
    }
}
