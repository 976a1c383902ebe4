//! What no clause says of hp_io: how sources and sinks fail in mid-stream, and that the system's own take and give bytes.

ghost use Rattle.std.specs.Prelude.{◌<◌};

use hp_io::{
    Failed, MemSink, MemSource, ReadError, RealSink, RealSource, Source, read_up_to, write_all,
};
use std::alloc::Global;
use std::io;
use std::io::{ErrorKind, Read, Write};
use std::process::Abort;

/// A source is read to its end, and is to give these bytes.
fn gives<S: Source>(rt: &impl Abort, alloc: Global, source: &mut S, wanted: &[u8])
    requires { S.faults source.old < u64.MAX }
{
    let Ok(bytes) = read_up_to(alloc, source, 100) else {
        panic!(rt; "a read fails");
    };
    assert!(rt; bytes.as_slice() == wanted);
}

/// A read of a source is to fail.
fn fails<S: Source>(rt: &impl Abort, alloc: Global, source: &mut S)
    requires { S.faults source.old < u64.MAX }
{
    let Err(ReadError::Failed) = read_up_to(alloc, source, 100) else {
        panic!(rt; "no read fails");
    };
}

#[test]
fn a_read_fails_in_mid_stream(rt: HostRuntime) {
    let alloc = rt.alloc();
    let Ok(bytes) = b"cpus 2\n".to_vec(alloc) else {
        panic!(rt; "memory for bytes");
    };
    let mut source = MemSource::new(alloc, bytes);
    source.step = 1;
    assert!(rt; source.fails.push(3).is_ok());
    fails(&rt, alloc, &mut source);
    assert!(rt; (source.at, source.calls) == (2, 3));
    assert!(rt; source.faults == 1);
    gives(&rt, alloc, &mut source, b"us 2\n");
}

#[test]
fn a_write_fails_in_mid_stream(rt: HostRuntime) {
    let mut sink = MemSink::new(rt.alloc());
    sink.step = 1;
    assert!(rt; sink.fails.push(2).is_ok());
    assert!(rt; write_all(&mut sink, b"cpus 2\n") == Err(Failed));
    assert!(rt; sink.bytes.as_slice() == b"c".as_slice());
    assert!(rt; (sink.calls, sink.faults) == (2, 1));
    assert!(rt; write_all(&mut sink, b"up") == Ok(()));
    assert!(rt; sink.bytes.as_slice() == b"cup".as_slice());
}

/// What the reader below gives.
const LETTERS: &[u8] = b"abcdefghijklmnopqrstuvwxyz";

/// A reader of std that gives the letters, one in its first read, two in the next, and so on, and fails in one call.
#[derive(Drop)]
struct Letters {
    calls: u8,
    at: usize,
    fails: u8,
}

impl Read for Letters {
    fn read(&mut self, buf: &mut [u8]) -> io::Result<usize> {
        self.calls = self.calls.saturating_add(1);
        if self.calls == self.fails {
            return Err(io::Error::from(ErrorKind::BrokenPipe));
        }
        let left = &LETTERS[self.at.min(LETTERS.len())..];
        let count = buf.len().min(left.len()).min(self.calls as usize);
        buf[..count].copy_from_slice(&left[..count]);
        self.at = self.at.saturating_add(count);
        Ok(count)
    }
}

/// No clause says of a reader that tells no bytes that a read of the source gives its bytes and fails only where the
/// reader does.
#[test]
fn a_real_source_gives_what_its_reader_gives(rt: HostRuntime) {
    let mut source = RealSource::new(Letters {
        calls: 0,
        at: 0,
        fails: 0,
    });
    gives(&rt, rt.alloc(), &mut source, LETTERS);
    assert!(rt; (source.reader.calls, source.faults) == (8, 0));
}

#[test]
fn an_error_of_a_reader_is_a_fault(rt: HostRuntime) {
    let mut source = RealSource::new(Letters {
        calls: 0,
        at: 0,
        fails: 2,
    });
    fails(&rt, rt.alloc(), &mut source);
    assert!(rt; source.faults == 1);
    gives(&rt, rt.alloc(), &mut source, &LETTERS[1..]);
}

/// A writer of std that takes three bytes in a write at most, none in one call, and fails from the next call on.
#[derive(Drop)]
struct Narrow {
    bytes: Vec<u8>,
    calls: u8,
    full: u8,
}

impl Write for Narrow {
    fn write(&mut self, buf: &[u8]) -> io::Result<usize> {
        self.calls = self.calls.saturating_add(1);
        if self.calls > self.full {
            return Err(io::Error::from(ErrorKind::BrokenPipe));
        }
        if self.calls == self.full {
            return Ok(0);
        }
        let count = buf.len().min(3);
        self.bytes.extend_from_slice(&buf[..count])?;
        Ok(count)
    }

    fn flush(&mut self) -> io::Result<()> {
        Ok(())
    }
}

/// No clause says of a writer that tells no bytes that a write of the sink hands it these and fails only where the
/// writer does.
#[test]
fn a_real_sink_hands_on_what_it_is_given(rt: HostRuntime) {
    let mut sink = RealSink::new(Narrow {
        bytes: Vec::new(rt.alloc()),
        calls: 0,
        full: 5,
    });
    assert!(rt; write_all(&mut sink, b"cpus 2\nup 1\n") == Ok(()));
    assert!(rt; sink.writer.bytes.as_slice() == b"cpus 2\nup 1\n".as_slice());
    assert!(rt; (sink.writer.calls, sink.faults) == (4, 0));
}

#[test]
fn a_writer_that_takes_nothing_is_a_fault(rt: HostRuntime) {
    let mut sink = RealSink::new(Narrow {
        bytes: Vec::new(rt.alloc()),
        calls: 0,
        full: 2,
    });
    for faults in 1..3 {
        assert!(rt; sink.faults < faults);
        assert!(rt; write_all(&mut sink, b"cpus") == Err(Failed));
        assert!(rt; sink.faults == faults);
    }
    assert!(rt; sink.writer.bytes.as_slice() == b"cpu".as_slice());
}

/// What the system does with the bytes can't be seen here: only that it takes them.
#[test]
fn standard_output_takes_bytes(rt: HostRuntime) {
    let mut sink = RealSink::new(rt.stdout());
    assert!(rt; write_all(&mut sink, b"up 1\n") == Ok(()));
}

#[test]
fn standard_input_is_read_to_its_end(rt: HostRuntime) {
    let mut source = RealSource::new(rt.stdin());
    gives(&rt, rt.alloc(), &mut source, b"");
}
