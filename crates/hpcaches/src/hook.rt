//! The hook that opens and closes caches.

use crate::shared::SharedStock;
use hp_hook::{Hook, ScriptHook};
use hp_states::{Dir, HookPlan};
use std::alloc::Global;
use std::sync::{Arc, Wait};

/// The hook of the caches: a startup opens the cache of its processor, and a teardown closes it, where the plan's answer is 0.
///
/// It carries what it waits with for the lock of the stock. Who has that lock waits for nobody.
#[derive(Drop)]
pub(crate) struct CacheHook<R: Wait> {
    by_plan: ScriptHook,
    stock: Arc<SharedStock, Global>,
    rt: R,
}

impl<R: Wait> CacheHook<R> {
    /// The hook with no rules and all counts 0.
    pub(crate) fn new(rt: R, stock: Arc<SharedStock, Global>) -> CacheHook<R> {
        CacheHook {
            by_plan: ScriptHook::new(),
            stock,
            rt,
        }
    }
}

impl<R: Wait + Drop> Hook for CacheHook<R> {
    ghost counts = { λ h. h.by_plan };

    fn load(&mut self, rules: HookPlan) {
        self.by_plan.load(rules);
    }

    fn call(&mut self, cpu: u32, inst: u32, dir: Dir) -> u32 {
        let answer = self.by_plan.call(cpu, inst, dir);
        if answer == 0 {
            match dir {
                Dir::Up => self.stock.open(&self.rt, cpu),
                Dir::Down => self.stock.close(&self.rt, cpu),
            }
        }
        answer
    }

    fn made(&self) -> u64 {
        self.by_plan.made()
    }

    fn faults(&self) -> u64 {
        self.by_plan.faults()
    }
}
