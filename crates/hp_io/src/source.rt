//! What bytes are read from.

ghost use Rattle.std.specs.Prelude.{◌≡◌, ◌+◌, ◌<◌, ◌≤◌, ◌^◌, ℕ, List, Option, Some, length, take, vec_len, IfOk, IfSome, OnOk, OnErr};
ghost use Rattle.std.specs.Io.KnownBytes.{prepend_known, IsAtEnd};
ghost use Rattle.hp_io.specs.Faults.{CountsFault, CountsReadFault, message_of};
ghost use Rattle.hp_io.specs.Told.{GaveAtMost, MovesBytes};
ghost use Rattle.hp_io.specs.declared.source.ReadError.TheVariants.{NoMemory, Failed as SourceFailed};

use crate::failed::Failed;
use std::alloc::{AllocError, Global};
use std::error::Error;
use std::fmt;

/// What bytes are read from.
pub trait Source {
    /// The bytes that are still to come, where the source tells them.
    ghost left: { Self → Option (List ℕ) };

    /// How often a read has failed, from 0 for a new source. It never falls.
    ghost faults: { Self → ℕ };

    /// Reads the next bytes into the front of `buf`, and says how many. 0 is the end of the input.
    ///
    /// `Failed` comes where the other side refuses, and only there: the count of faults is one more. Then a source
    /// that tells its bytes has the same bytes left. Nothing is said of `buf` past the bytes that were read.
    fn read(&mut self, buf: &mut [u8]) -> Result<usize, Failed>
        requires some { 0 < length buf.old }
        requires countable { faults self.old < u64.MAX }
        ensures within { IfOk result (λ n. n ≤ length buf.new) }
        ensures next { IfOk result (λ n. left self.old ≡ prepend_known (take n buf.new) (left self.new)) }
        ensures end { IfOk result (λ n. n ≡ 0 → IsAtEnd (left self.new)) }
        ensures refused { OnErr result (left self.new ≡ left self.old) }
        ensures counted { CountsFault result (faults self.old) (faults self.new) };
}

/// Why a source could not be read up to a limit.
#[derive(Clone, Copy, Debug, PartialEq, Eq)]
pub enum ReadError {
    /// A read failed: the source's count of faults is one more than before the call.
    Failed,
    /// There was no memory for the bytes. The source's count of faults is as before the call.
    NoMemory,
}

impl fmt::Display for ReadError {
    ghost output = { λ e. Some (message_of e) };

    fn fmt<W: fmt::Write>(&self, f: &mut fmt::Formatter<W>) -> fmt::Result {
        match self {
            ReadError::Failed => write!(f, "a read failed"),
            ReadError::NoMemory => write!(f, "there is no memory for the bytes"),
        }
    }
}

impl Error for ReadError {}

impl From<Failed> for ReadError {
    ghost from_gives = { λ _ e. e ≡ SourceFailed };

    fn from(_e: Failed) -> ReadError {
        ReadError::Failed
    }
}

impl From<AllocError> for ReadError {
    ghost from_gives = { λ _ e. e ≡ NoMemory };

    fn from(_e: AllocError) -> ReadError {
        ReadError::NoMemory
    }
}

/// How many bytes one read asks for at most: what a pipe of Linux holds.
const CHUNK: usize = 65_536;

/// Reads a source to its end, or to one byte past `most`, whichever comes first.
///
/// So a result of at most `most` bytes is all that the source held, and a longer one says that there was too much.
/// It takes memory for the bytes and for one buffer. After an error, the bytes that were read so far are lost: they
/// are gone from the source. A limit is below 2^62.
pub fn read_up_to<S: Source>(
    alloc: Global,
    source: &mut S,
    most: usize,
) -> Result<Vec<u8>, ReadError>
    requires limit { most < 2 ^ 62 }
    requires countable { S.faults source.old < u64.MAX }

    // What was read stood first in the source, and the rest is still to come.
    ensures bytes { IfOk result (λ v. S.left source.old ≡ prepend_known v.items (S.left source.new)) }
    ensures first { IfOk result (λ v. IfSome (S.left source.old)
        (λ bs. v.items ≡ take (most + 1) bs)) }
    ensures limited { IfOk result (λ v. vec_len v ≤ most + 1) }
    ensures end { IfOk result (λ v. vec_len v ≤ most → IsAtEnd (S.left source.new)) }

    // An error has its cause, and what was read before it is gone from the front of what was left.
    ensures counted { CountsReadFault result (S.faults source.old) (S.faults source.new) }
    ensures lost { OnErr result (GaveAtMost (most + 1) (S.left source.old) (S.left source.new)) }
{
    let mut chunk = vec![in alloc; 0u8; CHUNK.min(most + 1)]?;
    let mut bytes = Vec::new(alloc);
    fill(source, &mut chunk, &mut bytes, most)?;
    Ok(bytes)
}

/// Reads until the source is at its end or there is one byte past `most`. Each byte read is appended, also before an
/// error.
fn fill<S: Source>(
    source: &mut S,
    chunk: &mut [u8],
    bytes: &mut Vec<u8>,
    most: usize,
) -> Result<(), ReadError>
    requires chunk { 0 < length chunk.old }
    requires room { vec_len bytes.old ≤ most + 1 }
    requires limit { most < 2 ^ 62 }
    requires countable { S.faults source.old < u64.MAX }
    ensures kept { MovesBytes bytes.old.items (S.left source.old) bytes.new.items (S.left source.new) }
    ensures limited { vec_len bytes.new ≤ most + 1 }
    ensures end { OnOk result (vec_len bytes.new ≤ most → IsAtEnd (S.left source.new)) }
    ensures counted { CountsReadFault result (S.faults source.old) (S.faults source.new) }
{
    while bytes.len() <= most {
        if read_more(source, chunk, bytes, most)? == 0 {
            return Ok(());
        }
    }
    Ok(())
}

/// Reads once, at most to one byte past `most`, and appends what was read. Says how many bytes it was, 0 at the end.
fn read_more<S: Source>(
    source: &mut S,
    chunk: &mut [u8],
    bytes: &mut Vec<u8>,
    most: usize,
) -> Result<usize, ReadError>
    requires chunk { 0 < length chunk.old }
    requires room { vec_len bytes.old ≤ most }
    requires limit { most < 2 ^ 62 }
    requires countable { S.faults source.old < u64.MAX }
    ensures kept { MovesBytes bytes.old.items (S.left source.old) bytes.new.items (S.left source.new) }
    ensures limited { vec_len bytes.new ≤ most + 1 }
    ensures more { IfOk result (λ n. vec_len bytes.new ≡ vec_len bytes.old + n) }
    ensures end { IfOk result (λ n. n ≡ 0 → IsAtEnd (S.left source.new)) }
    ensures counted { CountsReadFault result (S.faults source.old) (S.faults source.new) }
{
    let room = chunk.len().min(most + 1 - bytes.len());
    bytes.reserve(room)?;
    let count = source.read(&mut chunk[..room])?;
    bytes.extend_from_slice(&chunk[..count]).unwrap();
    Ok(count)
}
