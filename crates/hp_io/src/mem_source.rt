//! A source in memory.

ghost use Rattle.std.specs.Prelude.{◌≡◌, ◌↔◌, ◌+◌, ◌-◌, ◌<◌, ◌≤◌, ◌⊎◌, [], ◌++◌, min, Some, length, take, drop, vec_len, IsErr, IfOk, OnErr};
ghost use Rattle.hp_io.specs.Calls.{calls_after, IsToFail};
ghost use Rattle.hp_io.specs.Faults.{CountsFault};

use crate::calls::count_call;
use crate::failed::Failed;
use crate::source::Source;
use std::alloc::Global;

/// A source in memory, which tells its bytes and fails at the calls that it is told to.
#[derive(Debug, Drop)]
pub struct MemSource {
    /// All of its bytes.
    pub bytes: Vec<u8>,
    /// The place of the next byte.
    pub at: usize,
    /// How many bytes one read gives at most.
    pub step: usize,
    /// The numbers of the calls that fail, counted from 1.
    pub fails: Vec<u64>,
    /// How many calls were made. It stands at the largest `u64`, and from then on no call fails.
    pub calls: u64,
    /// How many calls have failed.
    pub faults: u64,
    pub ghost within: { at ≤ length bytes.items },
    pub ghost steps: { 0 < step },
}

impl MemSource {
    /// A source of these bytes that gives as many as are asked for and never fails. It takes no memory.
    pub fn new(alloc: Global, bytes: Vec<u8>) -> MemSource
        ensures bytes { result.bytes ≡ bytes }
        ensures at { result.at ≡ 0 }
        ensures step { result.step ≡ usize.MAX }
        ensures fails { result.fails.items ≡ [] }
        ensures calls { result.calls ≡ 0 }
        ensures faults { result.faults ≡ 0 }
    {
        MemSource {
            bytes,
            at: 0,
            step: usize::MAX,
            fails: Vec::new(alloc),
            calls: 0,
            faults: 0,
        }
    }
}

impl Source for MemSource {
    ghost left = { λ m. Some (drop m.at m.bytes.items) };

    ghost faults = { λ m. m.faults };

    /// Gives as many bytes as `buf` has room for and the source has left, at most `step`.
    ///
    /// `Failed` comes exactly where the call's number is in `fails`. Then no byte is given and `at` stays.
    fn read(&mut self, buf: &mut [u8]) -> Result<usize, Failed>
        requires { self.old.faults < u64.MAX }
        ensures fails { IsErr result ↔ IsToFail self.old.calls self.old.fails.items }
        ensures count { IfOk result (λ n. n ≡ min (min self.old.step (length buf.old))
            (length self.old.bytes.items - self.old.at)) }
        ensures within { IfOk result (λ n. n ≤ length buf.new) }
        ensures next { IfOk result (λ n. drop self.old.at self.old.bytes.items
            ≡ take n buf.new ++ drop self.new.at self.new.bytes.items) }
        ensures past { IfOk result (λ n. drop n buf.new ≡ drop n buf.old) }
        ensures moved { IfOk result (λ n. self.new.at ≡ self.old.at + n) }
        ensures stays { OnErr result (self.new.at ≡ self.old.at) }
        ensures untouched { OnErr result (buf.new ≡ buf.old) }
        ensures counted { CountsFault result self.old.faults self.new.faults }
        ensures calls { self.new.calls ≡ calls_after self.old.calls }
        ensures same { (self.new.bytes ≡ self.old.bytes) × (self.new.step ≡ self.old.step)
            × (self.new.fails ≡ self.old.fails) }
    {
        if count_call(&mut self.calls, &self.fails) {
            self.faults += 1;
            return Err(Failed);
        }
        let left = &self.bytes[self.at..];
        let count = self.step.min(buf.len()).min(left.len());
        buf[..count].copy_from_slice(&left[..count]);
        self.at += count;
        Ok(count)
    }
}
