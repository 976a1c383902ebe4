//! What a hook is.

ghost use Rattle.std.specs.Prelude.{◌≡◌, ◌<◌};
ghost use Rattle.hp_states.specs.Rules.{site_at};
ghost use Rattle.hp_hook.specs.Counted.{Counts, answer_to, counted, loaded};

use hp_states::{Dir, HookPlan, MAX_EVENTS};

/// The callback of a subsystem, for all its startups and teardowns.
///
/// A hook is dropped where its owner is. A boxed one has the type `Box<dyn Hook + Send>`, which is
/// a `Hook` too and can move between threads. No method takes memory, and none refuses anything.
/// In the machine's terms it stands for the `startup` and `teardown` functions of a `cpuhp_step`
/// (`core-api/cpu_hotplug.rst`); that it answers by a plan of rules is this project's own.
pub trait Hook: Drop {
    /// Its plan, for each rule how many calls it has matched since the plan was set, how many calls
    /// were made since, and how many of them were answered by another code than 0.
    ghost counts: { Self → Counts };

    /// Sets the plan, and begins all counts again at 0.
    ///
    /// There is no condition: any plan may be set at any time, and the one before is gone. Takes
    /// no memory. This project's own.
    fn load(&mut self, rules: HookPlan)
        ensures { counts self.new ≡ loaded rules };

    /// One call, for a processor, an instance and a direction: the answer is 0 or a fault's code.
    ///
    /// `made` is below 1,048,576, the most events of a journal. `inst` is 0 at a state without
    /// instances.
    ///
    /// The counts of the rules that match the call are raised by one, this call's included. The
    /// answer is the code of the first matching rule whose `nth` is absent or equals its raised
    /// count, and 0 where there is none. `made` rises by one, and `faults` by one exactly where
    /// the answer isn't 0. The plan stays. Takes no memory, and time for at most 8 rules.
    ///
    /// As in `cpuhp_invoke_callback` of `kernel/cpu.c`, 0 says that the callback succeeded; which
    /// calls fail is for the plan to say, which is this project's own.
    fn call(&mut self, cpu: u32, inst: u32, dir: Dir) -> u32
        requires { (counts self.old).made < MAX_EVENTS }
        ensures answer { result ≡ answer_to (counts self.old) (site_at cpu inst dir) }
        ensures counted { counts self.new ≡ counted (counts self.old) (site_at cpu inst dir) };

    /// How many calls were made since the plan was set. Takes no memory. This project's own.
    fn made(&self) -> u64
        ensures { result ≡ (counts self.now).made };

    /// How many calls since the plan was set were answered by another code than 0. Takes no
    /// memory. This project's own.
    fn faults(&self) -> u64
        ensures { result ≡ (counts self.now).faults };
}

/// A boxed hook is the hook in the box.
impl Hook for Box<dyn Hook + Send> {
    ghost counts = { λ b. (Hook-box b).counts b.value };

    fn load(&mut self, rules: HookPlan) {
        (**self).load(rules)
    }

    fn call(&mut self, cpu: u32, inst: u32, dir: Dir) -> u32 {
        (**self).call(cpu, inst, dir)
    }

    fn made(&self) -> u64 {
        (**self).made()
    }

    fn faults(&self) -> u64 {
        (**self).faults()
    }
}
