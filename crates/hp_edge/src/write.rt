//! What is written.

ghost use Rattle.std.specs.Prelude.{◌≡◌, ◌≢◌, ◌<◌};
ghost use Rattle.hp_edge.specs.Writing.{WroteAll, WrotePart};

use crate::status::WRITE_FAULT;
use hp_io::{Failed, Sink, write_all};

/// Writes bytes, and answers a status: this one, or that a write failed.
///
/// The status is another than that of a failed write. Where a write fails, some first bytes were written, and not
/// all; the sink's count of faults rose by one then. Takes no memory.
pub fn write_answer<K: Sink>(sink: &mut K, bytes: &[u8], status: u8) -> u8
    requires faults { K.faults sink.old < u64.MAX }
    requires status { status ≢ WRITE_FAULT }
    ensures written { result ≢ WRITE_FAULT → WroteAll K.Sink sink.old sink.new bytes.now status result }
    ensures fault { result ≡ WRITE_FAULT → WrotePart K.Sink sink.old sink.new bytes.now }
{
    match write_all(sink, bytes) {
        Ok(()) => status,
        Err(Failed) => WRITE_FAULT,
    }
}
