//! What bytes are written to.

ghost use Rattle.std.specs.Prelude.{◌≡◌, ◌<◌, ◌≤◌, ℕ, List, Option, length, take, IfOk, OnOk, OnErr};
ghost use Rattle.std.specs.Io.KnownBytes.{append_known};
ghost use Rattle.hp_io.specs.Faults.{CountsFault};
ghost use Rattle.hp_io.specs.Told.{TookPart};

use crate::failed::Failed;

/// What bytes are written to.
pub trait Sink {
    /// The bytes that it has taken so far, where the sink tells them.
    ghost taken: { Self → Option (List ℕ) };

    /// How often a write has failed, from 0 for a new sink. It never falls.
    ghost faults: { Self → ℕ };

    /// Takes some bytes from the front of `buf`, at least one, and says how many.
    ///
    /// `Failed` comes where the other side refuses, and only there: the count of faults is one more. Then a sink that
    /// tells its bytes has taken none of these.
    fn write(&mut self, buf: &[u8]) -> Result<usize, Failed>
        requires some { 0 < length buf.now }
        requires countable { faults self.old < u64.MAX }
        ensures least { IfOk result (λ n. 0 < n) }
        ensures within { IfOk result (λ n. n ≤ length buf.now) }
        ensures first { IfOk result (λ n. taken self.new ≡ append_known (taken self.old) (take n buf.now)) }
        ensures refused { OnErr result (taken self.new ≡ taken self.old) }
        ensures counted { CountsFault result (faults self.old) (faults self.new) };
}

/// Writes all of the bytes, in as many writes as the sink wants. No bytes are written without a call of the sink.
///
/// `Failed` comes where a write fails, and only there: the count of faults is one more, and the sink has taken the
/// first of the bytes, not all of them. It takes no memory of its own.
pub fn write_all<K: Sink>(sink: &mut K, bytes: &[u8]) -> Result<(), Failed>
    requires { K.faults sink.old < u64.MAX }
    ensures all { OnOk result (K.taken sink.new ≡ append_known (K.taken sink.old) bytes.now) }
    ensures part { OnErr result (TookPart bytes.now (K.taken sink.old) (K.taken sink.new)) }
    ensures counted { CountsFault result (K.faults sink.old) (K.faults sink.new) }
{
    let mut at = 0;
    while at < bytes.len() {
        at += sink.write(&bytes[at..])?;
    }
    Ok(())
}
