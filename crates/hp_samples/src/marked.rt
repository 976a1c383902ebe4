//! A hook that tests tell from others.

ghost use Rattle.std.specs.Prelude.{◌≡◌, [], None, Some};
ghost use Rattle.hp_hook.specs.Counted.{loaded};

use hp_hook::{Hook, ScriptHook};
use hp_states::{Dir, HookPlan};
use std::alloc::Global;
use std::sync::Arc;
use std::sync::atomic::{AtomicU64, Ordering};

/// A hook that carries a mark, and answers as a script's hook does. It counts its calls where a test sees them too,
/// if it is to.
#[derive(Drop)]
pub struct Marked {
    pub mark: u32,
    pub hook: ScriptHook,
    pub calls: Option<Arc<AtomicU64, Global>>,
}

impl Marked {
    /// A hook with this mark, whose calls it counts alone.
    pub fn new(mark: u32) -> Marked
        ensures mark { result.mark ≡ mark }
        ensures hook { result.hook ≡ loaded [] }
        ensures alone { result.calls ≡ None }
    {
        Marked {
            mark,
            hook: ScriptHook::new(),
            calls: None,
        }
    }

    /// A hook with this mark, whose calls are counted here too.
    pub fn counted(mark: u32, calls: Arc<AtomicU64, Global>) -> Marked
        ensures mark { result.mark ≡ mark }
        ensures hook { result.hook ≡ loaded [] }
        ensures shared { result.calls ≡ Some calls }
    {
        Marked {
            mark,
            hook: ScriptHook::new(),
            calls: Some(calls),
        }
    }
}

impl Hook for Marked {
    ghost counts = { λ m. m.hook };

    fn load(&mut self, rules: HookPlan) {
        self.hook.load(rules);
    }

    fn call(&mut self, cpu: u32, inst: u32, dir: Dir) -> u32 {
        if let Some(calls) = &self.calls {
            calls.fetch_add(1, Ordering::SeqCst);
        }
        self.hook.call(cpu, inst, dir)
    }

    fn made(&self) -> u64 {
        self.hook.made()
    }

    fn faults(&self) -> u64 {
        self.hook.faults()
    }
}
