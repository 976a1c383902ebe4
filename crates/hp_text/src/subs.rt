//! Subsystems and their rules.

ghost use Rattle.std.specs.Prelude.{◌≡◌, ◌≤◌, ◌<◌, ◌^◌, ◌+◌, [], Ok, IfOk};
ghost use Rattle.hp_states.specs.declared.limits.TheConstants.{MAX_RULE_CPU, MAX_INSTANCE, MAX_EVENTS, MAX_CODE};
ghost use Rattle.hp_states.specs.Names.{IsName};
ghost use Rattle.hp_states.specs.declared.plan.Rule.{Rule};
ghost use Rattle.hp_event.specs.declared.head.Sub.{Sub};
ghost use Rattle.hp_model.specs.Heads.{IsRule};
ghost use Rattle.hp_text.specs.Numbers.{number_from as number_from_at};
ghost use Rattle.hp_text.specs.Choices.{any_from as any_from_at};
ghost use Rattle.hp_text.specs.Readings.{of_form as of_form_at, said, both as both_at, alone, in_front};
ghost use Rattle.hp_text.specs.Subs.{name, kind, calls_and_kind as calls_and_kind_at, fresh_sub as fresh_sub_at, sub as sub_at, behind_sub, nth_and_code as nth_and_code_at, inst_and_call as inst_and_call_at, cpu_and_call as cpu_and_call_at, rule as rule_at, behind_rule};

use crate::choices::{any_from, calls_of, dir_of, kind_of, name_of};
use crate::numbers::number_from;
use crate::tails::{both, done};
use crate::unread::Unread;
use crate::words::Words;
use hp_event::{Name, Sub};
use hp_states::{HookPlan, MAX_CODE, MAX_EVENTS, MAX_INSTANCE, MAX_RULE_CPU, NoMemory, Rule};
use std::alloc::Global;

/// What a word says that has a form alone, and no range.
fn of_form<A: Copy>(said: Option<A>) -> Result<A, Unread>
    ensures { result ≡ of_form_at said }
{
    match said {
        Some(a) => Ok(a),
        None => Err(Unread::NotOfForm),
    }
}

/// Whether there are instances.
fn kind_alone<'a, W: Words<'a>>(words: &mut W) -> Result<bool, Unread>
    ensures { result ≡ alone kind (W.left words.old) }
{
    let Some(word) = words.next_word() else {
        return Err(Unread::NotOfForm);
    };
    done(words, ())?;
    of_form(kind_of(word))
}

/// Which callbacks there are, and whether there are instances.
fn calls_and_kind<'a, W: Words<'a>>(words: &mut W) -> Result<((bool, bool), bool), Unread>
    ensures { result ≡ calls_and_kind_at (W.left words.old) }
{
    let Some(word) = words.next_word() else {
        return Err(Unread::NotOfForm);
    };
    let kind = kind_alone(words);
    both(of_form(calls_of(word)), kind)
}

/// The subsystem of a name, where that is one and the words behind it are of their form.
fn fresh_sub(
    alloc: Global,
    word: &[u8],
    behind: Result<((bool, bool), bool), Unread>,
) -> Result<Result<Sub, Unread>, NoMemory>
    ensures { IfOk result (λ r. r ≡ said fresh_sub_at (both_at (name word.now) behind)) }
{
    let Some(name) = name_of(word) else {
        return Ok(Err(Unread::NotOfForm));
    };
    let ((up, down), multi) = match behind {
        Ok(behind) => behind,
        Err(unread) => return Ok(Err(unread)),
    };
    let name = Name::from_vec(Vec::from_slice(alloc, name)?);
    Ok(Ok(Sub {
        name,
        up,
        down,
        multi,
        plan: HookPlan::none(),
    }))
}

/// The words of a subsystem.
#[tactic(auto, unfolding(crate::specs::Subs::sub))]
fn any_sub<'a, W: Words<'a>>(alloc: Global, words: &mut W) -> Result<Result<Sub, Unread>, NoMemory>
    ensures { IfOk result (λ r. r ≡ sub_at (W.left words.old)) }
{
    let Some(word) = words.next_word() else {
        return Ok(Err(Unread::NotOfForm));
    };
    let behind = calls_and_kind(words);
    fresh_sub(alloc, word, behind)
}

/// The subsystem that the words behind `sub` say, as yet without rules.
///
/// - `NotOfForm` where they are the words of no subsystem.
///
/// There is no condition. Takes memory for the name; where there is none: `NoMemory`. The form is
/// this project's own.
#[tactic(auto, using(crate::proofs::SubLaws::sub_spelled, crate::proofs::SubLaws::sub_read))]
pub fn sub<'a, W: Words<'a>>(alloc: Global, words: &mut W) -> Result<Result<Sub, Unread>, NoMemory>
    ensures said { IfOk result (λ r. r ≡ sub_at (W.left words.old)) }
    // Words that are read are the spelling of their subsystem, and the spelling of one is read.
    ensures spelled { IfOk result (λ r. IfOk r (λ s. W.left words.old ≡ behind_sub s)) }
    ensures read { (s : Sub) → IsName s.name → s.plan ≡ [] → W.left words.old ≡ behind_sub s →
        IfOk result (λ r. r ≡ Ok s) }
{
    any_sub(alloc, words)
}

/// The code that a rule answers with.
fn code_alone<'a, W: Words<'a>>(words: &mut W) -> Result<u32, Unread>
    ensures { result ≡ alone (number_from_at 1 (MAX_CODE + 1)) (W.left words.old) }
{
    let Some(word) = words.next_word() else {
        return Err(Unread::NotOfForm);
    };
    done(words, ())?;
    number_from(1, MAX_CODE as u64 + 1, word)
}

/// Which call of a hook a rule speaks of, and its code.
fn nth_and_code<'a, W: Words<'a>>(words: &mut W) -> Result<(Option<u32>, u32), Unread>
    ensures { result ≡ nth_and_code_at (W.left words.old) }
{
    let Some(word) = words.next_word() else {
        return Err(Unread::NotOfForm);
    };
    let code = code_alone(words);
    both(any_from(1, MAX_EVENTS as u64 + 1, word), code)
}

/// Of which instance a rule speaks, and what stands behind that.
fn inst_and_call<'a, W: Words<'a>>(
    words: &mut W,
) -> Result<(Option<u32>, (Option<u32>, u32)), Unread>
    ensures { result ≡ inst_and_call_at (W.left words.old) }
{
    let Some(word) = words.next_word() else {
        return Err(Unread::NotOfForm);
    };
    let call = nth_and_code(words);
    both(any_from(0, MAX_INSTANCE as u64 + 1, word), call)
}

/// Of which processor a rule speaks, and what stands behind that.
fn cpu_and_call<'a, W: Words<'a>>(
    words: &mut W,
) -> Result<(Option<u32>, (Option<u32>, (Option<u32>, u32))), Unread>
    ensures { result ≡ cpu_and_call_at (W.left words.old) }
{
    let Some(word) = words.next_word() else {
        return Err(Unread::NotOfForm);
    };
    let call = inst_and_call(words);
    both(any_from(0, MAX_RULE_CPU as u64 + 1, word), call)
}

/// The words of a rule.
#[tactic(auto, unfolding(crate::specs::Subs::rule))]
fn any_rule<'a, W: Words<'a>>(words: &mut W) -> Result<Rule, Unread>
    ensures { result ≡ rule_at (W.left words.old) }
{
    let Some(word) = words.next_word() else {
        return Err(Unread::NotOfForm);
    };
    let call = cpu_and_call(words);
    let (dir, (cpu, (inst, (nth, code)))) = both(of_form(dir_of(word)), call)?;
    Ok(Rule {
        dir,
        cpu,
        inst,
        nth,
        code,
    })
}

/// The rule that the words behind `rule` say.
///
/// - `NotOfForm` where they are the words of no rule.
/// - `OutOfRange` where they are, and a number is out of the range that a rule has for it.
///
/// There is no condition. Takes no memory. The form and the ranges are this project's own.
#[tactic(auto, using(crate::proofs::SubLaws::rule_spelled, crate::proofs::SubLaws::rule_read))]
pub fn rule<'a, W: Words<'a>>(words: &mut W) -> Result<Rule, Unread>
    ensures said { result ≡ rule_at (W.left words.old) }
    // Words that are read are the spelling of their rule, and the spelling of one is read.
    ensures spelled { IfOk result (λ r. W.left words.old ≡ behind_rule r) }
    ensures read { (r : Rule) → IsRule r → W.left words.old ≡ behind_rule r → result ≡ Ok r }
{
    any_rule(words)
}
