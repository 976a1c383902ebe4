//! What is read.

ghost use Rattle.std.specs.Prelude.{◌≡◌, ◌<◌, IfOk, OnOk, IfErr};
ghost use Rattle.hp_edge.specs.Reading.{Reads, CountsIfFailed, KeepsIfNoMemory};

use hp_io::{ReadError, Source, read_up_to};
use std::alloc::Global;

/// Reads a source to its end, or to one byte past the most bytes that an input has.
///
/// - `Failed` where a read failed; the source's count of faults rose by one then.
/// - `NoMemory` where memory was wanting.
///
/// Takes memory for the bytes. After an error what was read is lost.
pub fn read_input<S: Source>(
    alloc: Global,
    source: &mut S,
    limit: u32,
) -> Result<Vec<u8>, ReadError>
    requires { S.faults source.old < u64.MAX }
    ensures read { IfOk result (λ bytes. Reads S.Source limit source.old source.new bytes.items) }
    ensures faults { OnOk result (S.faults source.new ≡ S.faults source.old) }
    ensures failed { IfErr result (λ error. CountsIfFailed S.Source source.old source.new error) }
    ensures no_memory { IfErr result (λ error. KeepsIfNoMemory S.Source source.old source.new error) }
{
    read_up_to(alloc, source, limit as usize)
}
