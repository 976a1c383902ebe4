//! A writer that notes whether its reader is gone, and how what was written begins.

ghost use Rattle.std.specs.Prelude.{◌≡◌};

use std::io::{self, ErrorKind, Write};

/// How many of the first bytes are kept.
const KEPT: usize = 32;

/// A writer over another one, which notes whether a write found that nobody reads any more, as where output goes to `head`, and
/// keeps the first 32 bytes that were written.
#[derive(Drop)]
pub struct Noting<W> {
    writer: W,
    is_closed: bool,
    first: [u8; KEPT],
    kept: usize,
}

impl<W: Write> Noting<W> {
    /// A writer over this one. Takes no memory.
    pub fn new(writer: W) -> Noting<W> {
        Noting {
            writer,
            is_closed: false,
            first: [0; KEPT],
            kept: 0,
        }
    }

    /// Whether a write found that nobody reads any more. Takes no memory.
    pub fn is_closed(&self) -> bool {
        self.is_closed
    }

    /// The first bytes that were written, 32 at most. Takes no memory.
    pub fn first(&self) -> &[u8] {
        &self.first[..self.kept.min(KEPT)]
    }
}

/// Keeps what is written behind what is kept, as far as there is room for it: how much is kept then.
fn keep(first: &mut [u8; KEPT], kept: usize, written: &[u8]) -> usize {
    let mut kept = kept;
    for byte in written {
        if kept >= KEPT {
            return kept;
        }
        first[kept] = *byte;
        kept += 1;
    }
    kept
}

impl<W: Write> Write for Noting<W> {
    ghost contents = { λ n. W.contents n.writer };

    fn write(&mut self, buf: &[u8]) -> io::Result<usize> {
        match self.writer.write(buf) {
            Ok(count) => {
                self.kept = keep(&mut self.first, self.kept, &buf[..count.min(buf.len())]);
                Ok(count)
            }
            Err(error) => {
                self.is_closed = error.kind() == ErrorKind::BrokenPipe;
                Err(error)
            }
        }
    }

    fn flush(&mut self) -> io::Result<()> {
        self.writer.flush()
    }
}
