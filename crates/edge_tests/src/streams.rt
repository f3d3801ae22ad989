//! What no clause says: that there is memory for each call, what a stream gives, and rows worked by hand.
ghost use Rattle.std.specs.Prelude.{◌<◌};

use edge::{Failed, MemSink, MemSource, ReadFault, Sink, Source, StdSink, StdSource, read_through};
use std::alloc::Global;
use std::io;
use std::io::{ErrorKind, Read, Write};
use std::test::Fail;

/// A source of so many bytes a call, in which one call fails, and none for 0.
fn source(alloc: Global, bytes: &[u8], piece: usize, failing: u64) -> Result<MemSource, Fail>
    requires { 0 < piece }
{
    let mut calls = Vec::new(alloc);
    calls.push(failing)?;
    let bytes = bytes.to_vec(alloc)?;
    Ok(MemSource::new(alloc, bytes, piece, calls)?)
}

#[test]
fn sinks(rt: HostRuntime) -> Result<(), Fail> {
    let alloc = rt.alloc();
    let mut held = MemSink::new(alloc, 2, 3, Vec::new(alloc))?;
    assert_eq!(rt; held.write(b"abcde"), Ok(2));
    assert_eq!(rt; held.write(b"cde"), Ok(1));
    assert_eq!(rt; held.write(b"de"), Err(Failed));
    assert_eq!(rt; held.written(), b"abc".as_slice());
    assert_eq!(rt; held.faults(), 1);
    let mut stream = StdSink::new(Vec::new(alloc));
    assert_eq!(rt; stream.write(b"abc"), Ok(3));
    Ok(())
}

#[test]
fn sources(rt: HostRuntime) -> Result<(), Fail> {
    let alloc = rt.alloc();
    let mut into = [b'-'; 3];
    let mut held = source(alloc, b"abcde", 5, 1)?;
    assert_eq!(rt; held.read(&mut into), Err(Failed));
    assert_eq!(rt; into.as_slice(), b"---".as_slice());
    assert_eq!(rt; held.read(&mut into), Ok(3));
    assert_eq!(rt; into.as_slice(), b"abc".as_slice());
    assert_eq!(rt; held.left(), b"de".as_slice());
    assert_eq!(rt; held.read(&mut into), Ok(2));
    assert_eq!(rt; into.as_slice(), b"dec".as_slice());
    assert_eq!(rt; held.read(&mut into), Ok(0));
    assert_eq!(rt; held.faults(), 1);
    let mut stream = StdSource::new(b"ab".as_slice());
    assert_eq!(rt; stream.read(&mut into), Ok(2));
    assert_eq!(rt; stream.read(&mut into), Ok(0));
    Ok(())
}

#[test]
fn reads_through(rt: HostRuntime) -> Result<(), Fail> {
    let alloc = rt.alloc();
    for (piece, limit, bytes, left) in [
        (1, 9, "abcde", ""),
        (5, 9, "abcde", ""),
        (5, 5, "abcde", ""),
        (5, 4, "abcd", "e"),
        (1, 4, "abcd", "e"),
        (1, 0, "", "abcde"),
    ] {
        let mut held = source(alloc, b"abcde", piece, 0)?;
        let read = read_through(alloc, &mut held, limit)?;
        assert_eq!(rt; read.as_slice(), bytes.as_bytes(), "at {limit}");
        assert_eq!(rt; held.left(), left.as_bytes(), "at {limit}");
        assert_eq!(rt; held.faults(), 0);
    }
    let long = [b'x'; 5000];
    let mut held = source(alloc, long.as_slice(), 4500, 0)?;
    let read = read_through(alloc, &mut held, 9000)?;
    assert_eq!(rt; read.as_slice(), long.as_slice());
    Ok(())
}

#[test]
fn reports_failed_reads(rt: HostRuntime) -> Result<(), Fail> {
    let alloc = rt.alloc();
    for (failing, left) in [(1, "abcde"), (3, "cde"), (6, "")] {
        let mut held = source(alloc, b"abcde", 1, failing)?;
        let read = read_through(alloc, &mut held, 9);
        assert!(rt; matches!(read, Err(ReadFault::Failed)));
        assert_eq!(rt; held.left(), left.as_bytes(), "at {failing}");
        assert_eq!(rt; held.faults(), 1);
    }
    Ok(())
}

/// A reader that is interrupted so many times, then fails once, and then is at its end.
#[derive(Drop)]
struct Broken {
    interrupts: u32,
    failed: bool,
}

impl Read for Broken {
    fn read(&mut self, _buf: &mut [u8]) -> io::Result<usize> {
        if self.interrupts > 0 {
            self.interrupts -= 1;
            return Err(ErrorKind::Interrupted.into());
        }
        if self.failed {
            return Ok(0);
        }
        self.failed = true;
        Err(ErrorKind::BrokenPipe.into())
    }
}

/// A writer that takes one byte a call, and is interrupted before each.
#[derive(Drop)]
struct Narrow {
    taken: Vec<u8>,
    interrupted: bool,
}

impl Write for Narrow {
    fn write(&mut self, buf: &[u8]) -> io::Result<usize> {
        self.interrupted = !self.interrupted;
        if self.interrupted {
            return Err(ErrorKind::Interrupted.into());
        }
        match buf.first() {
            Some(byte) => {
                self.taken.push(*byte)?;
                Ok(1)
            }
            None => Ok(0),
        }
    }

    fn flush(&mut self) -> io::Result<()> {
        Ok(())
    }
}

#[test]
fn streams_that_take_one_byte_a_call(rt: HostRuntime) -> Result<(), Fail> {
    let mut writer = Narrow {
        taken: Vec::new(rt.alloc()),
        interrupted: false,
    };
    let mut stream = StdSink::new(&mut writer);
    assert_eq!(rt; stream.write(b"abc"), Ok(1));
    assert_eq!(rt; stream.write(b"bc"), Ok(1));
    assert_eq!(rt; stream.write(b"c"), Ok(1));
    assert_eq!(rt; writer.taken.as_slice(), b"abc".as_slice());
    Ok(())
}

#[test]
fn streams_that_fail(rt: HostRuntime) -> Result<(), Fail> {
    let alloc = rt.alloc();
    let mut stream = StdSource::new(Broken {
        interrupts: 3,
        failed: false,
    });
    let read = read_through(alloc, &mut stream, 9);
    assert!(rt; matches!(read, Err(ReadFault::Failed)));
    let mut stream = StdSource::new(Broken {
        interrupts: 3,
        failed: true,
    });
    let read = read_through(alloc, &mut stream, 9)?;
    assert_eq!(rt; read.len(), 0);
    Ok(())
}

// For runs in which one allocation is refused: all that is left, or the error for it.
#[test]
fn reads_without_memory(rt: HostRuntime) -> Result<(), Fail> {
    let alloc = rt.alloc();
    let mut stream = StdSource::new(b"abcde".as_slice());
    match read_through(alloc, &mut stream, 9) {
        Ok(read) => assert_eq!(rt; read.as_slice(), b"abcde".as_slice()),
        Err(fault) => assert_eq!(rt; fault, ReadFault::Memory),
    }
    Ok(())
}
