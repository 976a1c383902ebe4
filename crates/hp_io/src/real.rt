//! Sources and sinks over readers and writers of std.

ghost use Rattle.std.specs.Prelude.{◌≡◌, ◌<◌, ◌≤◌, None, length, IfOk};
ghost use Rattle.std.specs.Io.KnownBytes.{ReadConsumes, WriteAppends};
ghost use Rattle.hp_io.specs.Faults.{CountsFault};

use crate::failed::Failed;
use crate::sink::Sink;
use crate::source::Source;
use std::io::{Read, Write};

/// A source over a reader of std, as standard input. It tells no bytes, and each error of the reader is a fault,
/// also one that says that the read was interrupted.
#[derive(Debug, Drop)]
pub struct RealSource<R> {
    /// The reader.
    pub reader: R,
    /// How many reads have failed.
    pub faults: u64,
}

impl<R> RealSource<R> {
    /// A source over this reader, which has not failed yet.
    pub fn new(reader: R) -> RealSource<R>
        ensures { result ≡ record { reader = reader; faults = 0 } }
    {
        RealSource { reader, faults: 0 }
    }
}

impl<R: Read> Source for RealSource<R> {
    ghost left = { λ _. None };

    ghost faults = { λ s. s.faults };

    /// `Failed` comes where the reader gives an error, and only there. What the reader tells of its bytes holds
    /// here too.
    fn read(&mut self, buf: &mut [u8]) -> Result<usize, Failed>
        requires some { 0 < length buf.old }
        requires countable { self.old.faults < u64.MAX }
        ensures within { IfOk result (λ n. n ≤ length buf.new) }
        ensures bytes { ReadConsumes (R.remaining self.old.reader) (R.remaining self.new.reader) result buf.new }
        ensures counted { CountsFault result self.old.faults self.new.faults }
    {
        match self.reader.read(buf) {
            Ok(count) => Ok(count),
            Err(_) => {
                self.faults += 1;
                Err(Failed)
            }
        }
    }
}

/// A sink over a writer of std, as standard output. It tells no bytes. Each error of the writer is a fault, also one
/// that says that the write was interrupted, and so is a write that takes nothing.
#[derive(Debug, Drop)]
pub struct RealSink<W> {
    /// The writer.
    pub writer: W,
    /// How many writes have failed.
    pub faults: u64,
}

impl<W> RealSink<W> {
    /// A sink over this writer, which has not failed yet.
    pub fn new(writer: W) -> RealSink<W>
        ensures { result ≡ record { writer = writer; faults = 0 } }
    {
        RealSink { writer, faults: 0 }
    }
}

impl<W: Write> Sink for RealSink<W> {
    ghost taken = { λ _. None };

    ghost faults = { λ s. s.faults };

    /// `Failed` comes where the writer gives an error or takes nothing, and only there. What the writer tells of its
    /// bytes holds here too.
    fn write(&mut self, buf: &[u8]) -> Result<usize, Failed>
        requires some { 0 < length buf.now }
        requires countable { self.old.faults < u64.MAX }
        ensures least { IfOk result (λ n. 0 < n) }
        ensures within { IfOk result (λ n. n ≤ length buf.now) }
        ensures bytes { WriteAppends (W.contents self.old.writer) (W.contents self.new.writer) result buf.now }
        ensures counted { CountsFault result self.old.faults self.new.faults }
    {
        match self.writer.write(buf) {
            Ok(count) if count > 0 => Ok(count),
            _ => {
                self.faults += 1;
                Err(Failed)
            }
        }
    }
}
