//! Readers and writers that fail, each at one of the calls that a run makes.

use super::run;
use std::alloc::Global;
use std::io;
use std::io::{Read, Write};
use std::process::Abort;
use std::test::Fail;

/// A reader that gives an input byte by byte, and fails after this many reads.
#[derive(Drop)]
struct FailingReader<'x> {
    left: &'x [u8],
    reads: u32,
}

impl Read for FailingReader<'_> {
    fn read(&mut self, buf: &mut [u8]) -> io::Result<usize> {
        if self.reads == 0 {
            return Err(io::Error::from(io::ErrorKind::BrokenPipe));
        }
        self.reads -= 1;
        if self.left.is_empty() || buf.is_empty() {
            return Ok(0);
        }
        buf[0] = self.left[0];
        self.left = &self.left[1..];
        Ok(1)
    }
}

/// A writer that takes this many bytes, one by one, and then fails.
#[derive(Drop)]
struct FailingWriter {
    writes: u32,
}

impl Write for FailingWriter {
    fn write(&mut self, buf: &[u8]) -> io::Result<usize> {
        if self.writes == 0 {
            return Err(io::Error::from(io::ErrorKind::BrokenPipe));
        }
        if buf.is_empty() {
            return Ok(0);
        }
        self.writes -= 1;
        Ok(1)
    }

    fn flush(&mut self) -> io::Result<()> {
        Ok(())
    }
}

const INPUT: &str = "package a=1\npackage b=2\nrequires a=1 b\nrequire a\n";

const OUTPUT: &str = "a=1\nb=2\n";

const CLASH: &str = "package a=1\nrequires a=1 b\nrequire a\n";

/// The end of a run: its status, its output and its errors.
type Ended = (u8, Vec<u8>, Vec<u8>);

fn run_with_reads(alloc: Global, reads: u32) -> Ended {
    let mut written = Vec::new(alloc);
    let mut complaints = Vec::new(alloc);
    let reader = FailingReader {
        left: INPUT.as_bytes(),
        reads,
    };
    let status = run(alloc, reader, &mut written, &mut complaints);
    (status, written, complaints)
}

/// Returns whether a run that fails at a read reports this, and writes nothing else.
fn is_unread(ended: &Ended) -> bool {
    (ended.0 == 3)
        & ended.1.is_empty()
        & (ended.2.as_slice() == b"resolve: cannot read input\n".as_slice())
}

fn is_answered(ended: &Ended) -> bool {
    (ended.0 == 0) & (ended.1.as_slice() == OUTPUT.as_bytes()) & ended.2.is_empty()
}

#[test]
fn each_read_may_fail(rt: HostRuntime) -> Result<(), Fail> {
    for reads in 0..50u32 {
        assert!(rt; is_unread(&run_with_reads(rt.alloc(), reads)), "{reads}");
    }
    assert_eq!(rt; INPUT.len(), 49);
    assert!(rt; is_answered(&run_with_reads(rt.alloc(), 50)));
    Ok(())
}

/// Returns the status and the errors of a run whose output takes this many bytes.
fn run_with_writes(alloc: Global, input: &str, writes: u32) -> (u8, Vec<u8>) {
    let mut complaints: Vec<u8> = Vec::new(alloc);
    let mut output = FailingWriter { writes };
    let status = run(alloc, input.as_bytes(), &mut output, &mut complaints);
    (status, complaints)
}

/// Asserts that each write of an output may fail, up to this many, which are needed to end with another status.
fn expect_writes(rt: &impl Abort, alloc: Global, input: &str, needed: u32, status: u8) {
    for writes in 0..needed {
        let ended = run_with_writes(alloc, input, writes);
        assert_eq!(rt; ended.0, 3, "{writes}");
        assert_eq!(rt;
            ended.1.as_slice(),
            b"resolve: cannot write output\n".as_slice(),
            "{writes}"
        );
    }
    let ended = run_with_writes(alloc, input, needed);
    assert_eq!(rt; ended.0, status);
    assert!(rt; ended.1.is_empty());
}

#[test]
fn each_write_may_fail(rt: HostRuntime) {
    expect_writes(&rt, rt.alloc(), INPUT, 8, 0);
    expect_writes(&rt, rt.alloc(), CLASH, 137, 1);
}

/// A writer that keeps the bytes that it takes, one by one, and fails after this many.
#[derive(Drop)]
struct KeepingWriter {
    taken: Vec<u8>,
    writes: u32,
}

impl Write for KeepingWriter {
    fn write(&mut self, buf: &[u8]) -> io::Result<usize> {
        if self.writes == 0 {
            return Err(io::Error::from(io::ErrorKind::BrokenPipe));
        }
        let Some(byte) = buf.first() else {
            return Ok(0);
        };
        if self.taken.push(*byte).is_err() {
            return Err(io::Error::from(io::ErrorKind::OutOfMemory));
        }
        self.writes -= 1;
        Ok(1)
    }

    fn flush(&mut self) -> io::Result<()> {
        Ok(())
    }
}

#[test]
fn errors_are_written_up_to_the_first_failure(rt: HostRuntime) {
    let text = b"resolve: line 12: bad statement\n".as_slice();
    let input = b"#\n#\n#\n#\n#\n#\n#\n#\n#\n#\n#\nnonsense\n".as_slice();
    for writes in 0..40u32 {
        let mut written: Vec<u8> = Vec::new(rt.alloc());
        let taken = Vec::new(rt.alloc());
        let mut errors = KeepingWriter { taken, writes };
        let status = run(rt.alloc(), input, &mut written, &mut errors);
        let length = (writes as usize).min(text.len());
        assert_eq!(rt; status, 2);
        assert!(rt; written.is_empty());
        assert_eq!(rt; errors.taken.as_slice(), &text[..length], "{writes}");
    }
}
