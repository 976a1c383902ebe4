//! A source that keeps what it gave.

ghost use Rattle.std.specs.Prelude.{◌≡◌};

use hp_io::{Failed, Source};
use std::alloc::Global;

/// A source that keeps the first bytes that it gives, for the hint of a script that is refused. It gives the bytes of the source
/// that it is made of, and fails where that does.
#[derive(Drop)]
pub struct Kept<S> {
    source: S,
    bytes: Vec<u8>,
    most: usize,
}

impl<S: Source> Kept<S> {
    /// A source over this one, which keeps so many bytes at most. Takes no memory.
    pub fn new(alloc: Global, source: S, most: usize) -> Kept<S>
        ensures { S.faults result.source ≡ S.faults source }
    {
        Kept {
            source,
            bytes: Vec::new(alloc),
            most,
        }
    }

    /// The bytes that are kept: the first that were given, none where these were too many, or where memory was wanting. Takes no
    /// memory.
    pub fn bytes(&self) -> &[u8] {
        self.bytes.as_slice()
    }

    /// Keeps these bytes too.
    fn keep(&mut self, bytes: &[u8])
        ensures { self.new.source ≡ self.old.source }
    {
        let has_room = bytes.len() <= self.most;
        if !has_room || self.bytes.extend_from_slice(bytes).is_err() {
            self.bytes.clear();
            self.most = 0;
        } else {
            self.most -= bytes.len();
        }
    }
}

impl<S: Source> Source for Kept<S> {
    ghost left = { λ k. S.left k.source };

    ghost faults = { λ k. S.faults k.source };

    fn read(&mut self, buf: &mut [u8]) -> Result<usize, Failed> {
        let count = self.source.read(buf)?;
        self.keep(&buf[..count]);
        Ok(count)
    }
}
