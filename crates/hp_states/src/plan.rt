//! The plan of a callback: the rules by which it answers.

ghost use Rattle.std.specs.Prelude.{◌≡◌, ◌<◌, ◌≤◌, ◌++◌, ◌∷◌, [], length, IsTrue, ◌↔◌, if◌then◌else◌, List};
ghost use Rattle.hp_states.specs.Rules.{site_at, matches as matches_of, CountsGoOn, CountsAnswer};

use crate::dir::Dir;
use crate::limits::MAX_RULES;
use std::marker::Model;

/// One rule of a plan: at which calls the callback answers which code. An absent field matches every
/// call. This project's own.
#[derive(Clone, Copy, Debug, PartialEq, Eq)]
pub struct Rule {
    /// The direction of the call.
    pub dir: Dir,
    /// The processor that is called for.
    pub cpu: Option<u32>,
    /// The instance that is called for, 0 at a state without instances.
    pub inst: Option<u32>,
    /// The number of the call among those that match, counted from 1.
    pub nth: Option<u32>,
    /// The code that is answered, 1 to 4,095.
    pub code: u32,
}

impl Rule {
    /// Whether the rule matches a call: it has the call's direction, and the processor and the
    /// instance that it asks for, if it asks for one.
    ///
    /// Which calls matched before is not looked at: whether the rule answers is decided by `nth`
    /// too. Takes no memory. This project's own.
    pub fn matches(&self, cpu: u32, inst: u32, dir: Dir) -> bool
        ensures { result ≡ matches_of self.now (site_at cpu inst dir) }
    {
        self.dir == dir
            && self.cpu.is_none_or(|only| only == cpu)
            && self.inst.is_none_or(|only| only == inst)
    }
}

/// The places of a plan.
const PLACES: usize = MAX_RULES as usize;

/// The rule that stands in the places past a plan's end.
const BLANK: Rule = Rule {
    dir: Dir::Up,
    cpu: None,
    inst: None,
    nth: None,
    code: 0,
};

/// The rules of a callback, at most 8, in the order in which they are tried. This project's own.
///
/// Contracts see the list. Two plans are equal where their lists are.
#[derive(Clone, Copy, Debug, PartialEq, Eq)]
pub struct HookPlan {
    rules: [Rule; PLACES],
    len: usize,
}

impl Model for HookPlan {
    ghost use Rattle.std.specs.Prelude.{List, take};
    ghost use Rattle.hp_states.specs.declared.plan.Rule.{Rule};

    ghost Value = { List Rule };

    ghost view = { λ p. take p.len p.rules };

    ghost use Rattle.hp_states.specs.Plans.{IsPadded, fields_of};

    ghost invariant = { IsPadded };

    ghost inverse = { fields_of };

    ghost inverse_ok = { λ p h. h.same };
}

impl Default for HookPlan {
    ghost is_default = { λ p. p ≡ [] };

    /// The plan without rules.
    fn default() -> HookPlan {
        HookPlan::none()
    }
}

impl HookPlan {
    /// The plan without rules: every call answers 0. Takes no memory. This project's own.
    pub fn none() -> HookPlan
        ensures { result ≡ [] }
    {
        HookPlan {
            rules: [BLANK; PLACES],
            len: 0,
        }
    }

    /// Adds a rule behind the others, and answers true. Where 8 rules are there already it answers
    /// false, and the plan is as before.
    ///
    /// Any rule may be added, also one that no call reaches. Takes no memory. This project's own.
    pub fn add(&mut self, rule: Rule) -> bool
        ensures added { IsTrue result ↔ (length self.old < MAX_RULES) }
        ensures rules { self.new ≡ (if result then self.old ++ rule ∷ [] else self.old) }
    {
        if self.len >= PLACES {
            return false;
        }
        self.rules[self.len] = rule;
        self.len += 1;
        true
    }

    /// The rules in their order, at most 8. Takes no memory. This project's own.
    pub fn rules(&self) -> &[Rule]
        ensures all { result.now ≡ self.now }
        ensures few { length self.now ≤ MAX_RULES }
    {
        &self.rules[..self.len]
    }
}

/// The law of counted answers: to answer a call it is enough to keep a count for each rule, raised
/// call by call.
///
/// Where the counts are those of the sites of all earlier calls, the counts raised at a site are
/// those with this site (`counts`), and what they answer is what the sites themselves determine: the
/// code of the first rule that matches the site and whose `nth` is absent or is the number of sites
/// that it matched, the earlier ones and this one, and 0 where there is none (`answer`).
///
/// The law holds of every list of rules. The function does nothing, and takes no memory. This
/// project's own.
#[tactic(auto, using(crate::proofs::RuleCounts::raised_counts, crate::proofs::RuleCounts::answer_of_raised))]
pub fn answer_by_counts(plan: &[Rule])
    ensures counts { CountsGoOn plan.now }
    ensures answer { CountsAnswer plan.now }
{}
