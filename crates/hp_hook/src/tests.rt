use crate::{CountedPlan, Hook, ScriptHook};
use hp_states::{Dir, HookPlan, MAX_EVENTS, Rule};
use std::alloc::AllocError;

/// A hook of the test's own, which answers as a script's hook does.
#[derive(Drop)]
struct OwnHook {
    inner: ScriptHook,
}

impl Hook for OwnHook {
    ghost counts = { λ h. h.inner };

    fn load(&mut self, rules: HookPlan) {
        self.inner.load(rules)
    }

    fn call(&mut self, cpu: u32, inst: u32, dir: Dir) -> u32 {
        self.inner.call(cpu, inst, dir)
    }

    fn made(&self) -> u64 {
        self.inner.made()
    }

    fn faults(&self) -> u64 {
        self.inner.faults()
    }
}

/// The second startup for processor 0 fails with 5, each teardown of instance 2 with 16, and every
/// other startup for processor 0 with 11.
fn three_rules() -> HookPlan {
    let mut plan = HookPlan::none();
    let up = Rule {
        dir: Dir::Up,
        cpu: Some(0),
        inst: None,
        nth: None,
        code: 11,
    };
    plan.add(Rule {
        nth: Some(2),
        code: 5,
        ..up
    });
    plan.add(Rule {
        dir: Dir::Down,
        cpu: None,
        inst: Some(2),
        nth: None,
        code: 16,
    });
    plan.add(up);
    plan
}

/// Six calls and what they are to answer.
fn answers<H: Hook>(rt: &impl std::process::Abort, hook: &mut H) {
    hook.load(three_rules());
    for (cpu, inst, dir, want) in [
        (0, 0, Dir::Up, 11),
        (1, 0, Dir::Up, 0),
        (0, 3, Dir::Up, 5),
        (0, 2, Dir::Down, 16),
        (0, 1, Dir::Down, 0),
        (0, 0, Dir::Up, 11),
    ] {
        assert!(rt; hook.made() < u64::from(MAX_EVENTS));
        assert!(rt; hook.call(cpu, inst, dir) == want);
    }
    assert!(rt; hook.made() == 6);
    assert!(rt; hook.faults() == 4);
}

#[test]
fn a_scripts_hook_answers(rt: HostRuntime) {
    answers(&rt, &mut ScriptHook::new());
}

#[test]
fn a_hook_in_a_box_answers(rt: HostRuntime) -> Result<(), AllocError> {
    let inner = ScriptHook::default();
    let mut hook: Box<dyn Hook + Send> = Box::new(rt.alloc(), OwnHook { inner })?;
    answers(&rt, &mut hook);
    Ok(())
}

#[test]
fn a_plan_is_copied(rt: HostRuntime) -> Result<(), AllocError> {
    let copy = CountedPlan::new(three_rules()).clone()?;
    assert!(&rt; copy.answer_to(0, 1, Dir::Up) == 11);
    Ok(())
}
