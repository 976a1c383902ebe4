//! Which heads a machine can be started with.

ghost use Rattle.std.specs.Prelude.{◌≡◌, ◌↔◌, ◌≤◌, IsTrue, All, IfSome};
ghost use Rattle.hp_model.specs.Heads.{IsRule, IsSub, IsHead};

use hp_event::{Head, Sub};
use hp_machine::head_fault;
use hp_states::{MAX_CODE, MAX_EVENTS, MAX_INSTANCE, MAX_RULE_CPU, MAX_RULES, Rule, is_name};

/// Whether a number is absent or in a range.
fn is_within(number: Option<u32>, low: u32, high: u32) -> bool
    ensures { IsTrue result ↔ (IfSome number (λ n. low ≤ n) × IfSome number (λ n. n ≤ high)) }
{
    match number {
        None => true,
        Some(number) => low <= number && number <= high,
    }
}

/// Whether a rule has the form of one.
fn is_rule(rule: &Rule) -> bool
    ensures { IsTrue result ↔ IsRule rule.now }
{
    is_within(rule.cpu, 0, MAX_RULE_CPU)
        && is_within(rule.inst, 0, MAX_INSTANCE)
        && is_within(rule.nth, 1, MAX_EVENTS)
        && (0 < rule.code && rule.code <= MAX_CODE)
}

/// Whether each of some rules has the form of one.
fn are_rules(rules: &[Rule]) -> bool
    ensures { IsTrue result ↔ All IsRule rules.now }
{
    rules.iter().all(|rule| is_rule(rule))
}

/// Whether a subsystem has the form of one.
fn is_sub(sub: &Sub) -> bool
    ensures { IsTrue result ↔ IsSub sub.now }
{
    let rules = sub.plan.rules();
    is_name(sub.name.as_slice()) && rules.len() <= MAX_RULES as usize && are_rules(rules)
}

/// Whether each of some subsystems has the form of one.
fn are_subs(subs: &[Sub]) -> bool
    ensures { IsTrue result ↔ All IsSub subs.now }
{
    subs.iter().all(|sub| is_sub(sub))
}

/// Whether a machine can be started with a head.
///
/// The head may be any. It is one where all of this holds:
///
/// - There are 1 to `MAX_CPUS` possible processors.
/// - The absent ones rise and are possible, and processor 0 isn't among them.
/// - There are at most `MAX_SUBS` subsystems. The name of each has the form that `is_name` asks for,
///   and is up to `MAX_NAME_LEN` bytes long; each has up to `MAX_RULES` rules.
/// - Of each rule the processor is at most `MAX_RULE_CPU`, the instance at most `MAX_INSTANCE`, and the
///   number of the call 1 to `MAX_EVENTS`, each of them where the rule names one; its code is 1 to
///   `MAX_CODE`.
///
/// Takes no memory, and time for the length of the head. That processor 0 is there is after
/// `boot_cpu_init` of `kernel/cpu.c`; the limits and the forms are this project's own.
pub fn is_head(head: &Head) -> bool
    ensures { IsTrue result ↔ IsHead head.now }
{
    head_fault(head).is_none() && are_subs(head.subs.as_slice())
}
