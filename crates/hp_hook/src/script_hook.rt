//! The hook that answers by the rules of a script, and the plan with its counts by which it does.

ghost use Rattle.std.specs.Prelude.{◌≡◌, ◌<◌, ◌≤◌, ◌+◌, ◌&&◌, [], All, length, take};
ghost use Rattle.hp_states.specs.declared.limits.TheConstants.{MAX_EVENTS};
ghost use Rattle.hp_states.specs.Rules.{allows, counts_of, matches, raised, site_at};
ghost use Rattle.hp_hook.specs.Counted.{answer_to, count_after, counts_in, loaded, next_answer};

use crate::hook::Hook;
use hp_states::{Dir, HookPlan, MAX_RULES, Rule};
use std::marker::Model;

/// The places for counts: one for each rule of a plan.
const PLACES: usize = MAX_RULES as usize;

/// A plan, and for each of its rules how many calls it has matched.
///
/// It is plain data: what it would answer to a call can be asked without counting the call
/// (`answer_to`), and a call can be counted (`count`). Contracts see the rules and the counts. It
/// stands whole in its struct and takes no memory. This project's own.
#[derive(Clone, Debug, Drop)]
pub struct CountedPlan {
    plan: HookPlan,
    seen: [u32; PLACES],
}

impl Model for CountedPlan {
    ghost use Rattle.std.specs.Prelude.{◌≤◌, take, length};
    ghost use Rattle.hp_states.specs.declared.limits.TheConstants.{MAX_RULES};
    ghost use Rattle.hp_hook.specs.Counted.{PlanCounts};

    ghost Value = { PlanCounts };

    ghost view = { λ c. record { plan = c.plan; seen = take (length c.plan) c.seen } };

    ghost invariant = { λ c. length c.plan ≤ MAX_RULES };
}

impl CountedPlan {
    /// The plan with all counts 0. Any plan will do. Takes no memory. This project's own.
    pub fn new(plan: HookPlan) -> CountedPlan
        ensures { result ≡ record { plan = plan; seen = counts_of plan [] } }
    {
        prove!(plan.rules().len() <= PLACES);
        CountedPlan {
            plan,
            seen: [0; PLACES],
        }
    }

    /// The plan, in the order in which its rules are tried. Takes no memory. This project's own.
    pub fn plan(&self) -> &HookPlan
        ensures { result.now ≡ self.now.plan }
    {
        &self.plan
    }

    /// What the plan answers to a call that comes next: the code of the first rule that matches it
    /// and whose `nth` is absent or is the rule's count with this call, and 0 where there is none.
    ///
    /// There is no condition, and nothing is counted: asked again it answers the same. Takes no
    /// memory, and time for at most 8 rules. This project's own.
    pub fn answer_to(&self, cpu: u32, inst: u32, dir: Dir) -> u32
        ensures { result ≡ next_answer self.now.plan self.now.seen (site_at cpu inst dir) }
    {
        first_answer(self.plan.rules(), &self.seen, cpu, inst, dir)
    }

    /// Counts a call: the count of each rule that matches it is raised by one, and the plan stays.
    ///
    /// No count is at 1,048,576 or above, the most events of a journal. Takes no memory, and time
    /// for at most 8 rules. This project's own.
    pub fn count(&mut self, cpu: u32, inst: u32, dir: Dir)
        requires { All (λ n. n < MAX_EVENTS) self.old.seen }
        ensures plan { self.new.plan ≡ self.old.plan }
        ensures seen { self.new.seen ≡ raised self.old.plan self.old.seen (site_at cpu inst dir) }
    {
        let _answer = self.count_and_answer(cpu, inst, dir);
    }

    /// Counts a call as `count` does, and answers it as `answer_to` did before, in one pass.
    ///
    /// No count is at 1,048,576 or above. Takes no memory, and time for at most 8 rules. This
    /// project's own.
    pub fn count_and_answer(&mut self, cpu: u32, inst: u32, dir: Dir) -> u32
        requires { All (λ n. n < MAX_EVENTS) self.old.seen }
        ensures plan { self.new.plan ≡ self.old.plan }
        ensures seen { self.new.seen ≡ raised self.old.plan self.old.seen (site_at cpu inst dir) }
        ensures answer { result ≡ next_answer self.old.plan self.old.seen (site_at cpu inst dir) }
    {
        count_rules(self.plan.rules(), &mut self.seen, cpu, inst, dir)
    }
}

/// The hook that answers by its plan alone, as a script gives it.
///
/// Contracts see its plan, a count for each rule of the plan, the calls made and the faults among
/// them. It stands whole in its struct and takes no memory. This project's own.
#[derive(Debug, Drop)]
pub struct ScriptHook {
    counted: CountedPlan,
    made: u64,
    faults: u64,
}

impl Model for ScriptHook {
    ghost use Rattle.hp_hook.specs.Counted.{Counts};

    ghost Value = { Counts };

    ghost view = { λ h. record {
      plan = h.counted.plan;
      seen = h.counted.seen;
      made = h.made;
      faults = h.faults;
    } };

    ghost use Rattle.hp_hook.specs.Inside.{IsSound};

    ghost invariant = { IsSound };
}

impl ScriptHook {
    /// The hook with no rules and all counts 0: it answers 0 to every call. Takes no memory. This
    /// project's own.
    pub fn new() -> ScriptHook
        ensures { result ≡ loaded [] }
    {
        ScriptHook {
            counted: CountedPlan::new(HookPlan::none()),
            made: 0,
            faults: 0,
        }
    }

    /// What `Hook::call` would answer to this call if it came next: nothing is counted, and asked
    /// again it answers the same.
    ///
    /// There is no condition. Takes no memory, and time for at most 8 rules. This project's own.
    pub fn answer_to(&self, cpu: u32, inst: u32, dir: Dir) -> u32
        ensures { result ≡ answer_to self.now (site_at cpu inst dir) }
    {
        self.counted.answer_to(cpu, inst, dir)
    }
}

impl Default for ScriptHook {
    ghost is_default = { λ h. h ≡ loaded [] };

    /// The hook of `ScriptHook::new`.
    fn default() -> ScriptHook {
        ScriptHook::new()
    }
}

impl Hook for ScriptHook {
    ghost counts = { λ h. h };

    fn load(&mut self, rules: HookPlan) {
        self.counted = CountedPlan::new(rules);
        self.made = 0;
        self.faults = 0;
    }

    fn call(&mut self, cpu: u32, inst: u32, dir: Dir) -> u32 {
        let answer = self.counted.count_and_answer(cpu, inst, dir);
        self.made += 1;
        if answer != 0 {
            self.faults += 1;
        }
        answer
    }

    fn made(&self) -> u64 {
        self.made
    }

    fn faults(&self) -> u64 {
        self.faults
    }
}

/// Whether a rule answers the site that comes next: it matches the site, and its `nth` is absent or
/// is one more than what it has matched.
fn answers_next(rule: &Rule, count: u32, cpu: u32, inst: u32, dir: Dir) -> bool
    ensures { result ≡ (matches rule.now (site_at cpu inst dir) && allows rule.now.nth (count + 1)) }
{
    rule.matches(cpu, inst, dir)
        && rule
            .nth
            .is_none_or(|nth| u64::from(nth) == u64::from(count) + 1)
}

/// The code of the first rule that answers the site that comes next, 0 where there is none.
fn first_answer(rules: &[Rule], seen: &[u32], cpu: u32, inst: u32, dir: Dir) -> u32
    requires { length rules.now ≤ length seen.now }
    ensures { result ≡ next_answer rules.now (counts_in rules.now seen.now) (site_at cpu inst dir) }
{
    for i in 0..rules.len() {
        if answers_next(&rules[i], seen[i], cpu, inst, dir) {
            return rules[i].code;
        }
    }
    0
}

/// Counts a site that a rule matches, and says whether the rule answers there: it matches the site,
/// and its `nth` is absent or is the raised count.
fn count_site(rule: &Rule, count: &mut u32, cpu: u32, inst: u32, dir: Dir) -> bool
    requires { count.old < MAX_EVENTS }
    ensures count { count.new ≡ count_after rule.now (site_at cpu inst dir) count.old }
    ensures answers { result
        ≡ (matches rule.now (site_at cpu inst dir) && allows rule.now.nth count.new) }
{
    if !rule.matches(cpu, inst, dir) {
        return false;
    }
    *count += 1;
    let now = *count;
    rule.nth.is_none_or(|nth| nth == now)
}

/// Counts a site at each rule that matches it, and answers it: from the last rule to the first, so
/// that the first one that answers has the last word.
fn count_rules(rules: &[Rule], seen: &mut [u32], cpu: u32, inst: u32, dir: Dir) -> u32
    requires enough { length rules.now ≤ length seen.old }
    requires room { All (λ n. n < MAX_EVENTS) (counts_in rules.now seen.old) }
    ensures seen { counts_in rules.now seen.new
        ≡ raised rules.now (counts_in rules.now seen.old) (site_at cpu inst dir) }
    ensures answer { result ≡ next_answer rules.now (counts_in rules.now seen.old) (site_at cpu inst dir) }
{
    let mut answer = 0;
    for i in (0..rules.len()).rev() {
        let rule = &rules[i];
        if count_site(rule, &mut seen[i], cpu, inst, dir) {
            answer = rule.code;
        }
    }
    answer
}
