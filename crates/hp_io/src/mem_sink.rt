//! A sink in memory.

ghost use Rattle.std.specs.Prelude.{◌≡◌, ◌+◌, ◌<◌, ◌⊎◌, [], ◌++◌, min, Some, length, take, IsErr, IfOk, OnErr};
ghost use Rattle.hp_io.specs.Calls.{calls_after, IsToFail, LacksRoom};
ghost use Rattle.hp_io.specs.Faults.{CountsFault};

use crate::calls::count_call;
use crate::failed::Failed;
use crate::sink::Sink;
use std::alloc::Global;

/// A sink in memory, which tells the bytes that it has taken and fails at the calls that it is told to.
#[derive(Debug, Drop)]
pub struct MemSink {
    /// The bytes that it has taken.
    pub bytes: Vec<u8>,
    /// How many bytes one write takes at most.
    pub step: usize,
    /// The numbers of the calls that fail, counted from 1.
    pub fails: Vec<u64>,
    /// How many calls were made. It stands at the largest `u64`, and from then on none fails but for want of memory.
    pub calls: u64,
    /// How many calls have failed.
    pub faults: u64,
    pub ghost steps: { 0 < step },
}

impl MemSink {
    /// A sink with no bytes that takes as many as it is given and fails only for want of memory. It takes no memory.
    pub fn new(alloc: Global) -> MemSink
        ensures bytes { result.bytes.items ≡ [] }
        ensures step { result.step ≡ usize.MAX }
        ensures fails { result.fails.items ≡ [] }
        ensures calls { result.calls ≡ 0 }
        ensures faults { result.faults ≡ 0 }
    {
        MemSink {
            bytes: Vec::new(alloc),
            step: usize::MAX,
            fails: Vec::new(alloc),
            calls: 0,
            faults: 0,
        }
    }
}

impl Sink for MemSink {
    ghost taken = { λ m. Some m.bytes.items };

    ghost faults = { λ m. m.faults };

    /// Takes as many bytes as `buf` has, at most `step`. It takes memory for them.
    ///
    /// `Failed` comes where the call's number is in `fails`, and where there is no memory for the bytes. Then no byte
    /// is taken.
    fn write(&mut self, buf: &[u8]) -> Result<usize, Failed>
        requires some { 0 < length buf.now }
        requires countable { self.old.faults < u64.MAX }
        ensures fails { IsToFail self.old.calls self.old.fails.items → IsErr result }
        ensures only { OnErr result (IsToFail self.old.calls self.old.fails.items
            ⊎ LacksRoom self.old.bytes (min self.old.step (length buf.now))) }
        ensures count { IfOk result (λ n. n ≡ min self.old.step (length buf.now)) }
        ensures taken { IfOk result (λ n. self.new.bytes.items ≡ self.old.bytes.items ++ take n buf.now) }
        ensures refused { OnErr result (self.new.bytes.items ≡ self.old.bytes.items) }
        ensures counted { CountsFault result self.old.faults self.new.faults }
        ensures calls { self.new.calls ≡ calls_after self.old.calls }
        ensures same { (self.new.step ≡ self.old.step) × (self.new.fails ≡ self.old.fails) }
    {
        let is_to_fail = count_call(&mut self.calls, &self.fails);
        let count = self.step.min(buf.len());
        if is_to_fail || self.bytes.extend_from_slice(&buf[..count]).is_err() {
            self.faults += 1;
            return Err(Failed);
        }
        Ok(count)
    }
}
