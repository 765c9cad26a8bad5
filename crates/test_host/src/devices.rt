//! Input and output devices in memory, which count their calls and can fail at a chosen call.
ghost use Rattle.std.specs.Prelude.{◌≡◌, false};

use crate::expected::holds_at;
use checked_io::Told;
use realm_program::Fault;
use std::alloc::Global;
use std::io;
use std::io::{Read, Write};
use std::process::Abort;

// An error after which a caller might try again. Its kind alternates with the number of the call.
fn failure(call: u64) -> io::Error {
    if call % 2 == 0 {
        io::Error::from(io::ErrorKind::Interrupted)
    } else {
        io::Error::from(io::ErrorKind::WouldBlock)
    }
}

/// An in-memory input device for tests, which can fail at a chosen read. A read gives at most `most` bytes. Reads are
/// counted from 0.
#[derive(Drop)]
pub(crate) struct Source<'a> {
    pub rest: &'a [u8],
    most: usize,
    reads: u64,
    fails_at: Option<u64>,
}

impl Read for Source<'_> {
    fn read(&mut self, buf: &mut [u8]) -> io::Result<usize> {
        let read = self.reads;
        self.reads = read.saturating_add(1);
        if self.fails_at == Some(read) {
            return Err(failure(read));
        }
        let n = self.most.min(buf.len()).min(self.rest.len());
        buf[..n].copy_from_slice(&self.rest[..n]);
        self.rest = &self.rest[n..];
        Ok(n)
    }
}

/// An in-memory output device for tests, which can fail at a write or flush. A write takes at most `most` bytes. The
/// write that fails is chosen by its number, counted from 0.
#[derive(Drop)]
pub(crate) struct Sink {
    got: Vec<u8>,
    most: usize,
    writes: u64,
    flushes: u64,
    fails_at: Option<u64>,
    fails_to_flush: bool,
}

impl Sink {
    /// Returns whether exactly the given bytes were written to the output.
    pub(crate) fn has(&self, bytes: &[u8]) -> bool {
        self.got.as_slice() == bytes
    }
}

impl Write for Sink {
    fn write(&mut self, buf: &[u8]) -> io::Result<usize> {
        let write = self.writes;
        self.writes = write.saturating_add(1);
        if self.fails_at == Some(write) {
            return Err(failure(write));
        }
        let n = self.most.min(buf.len());
        self.got.extend_from_slice(&buf[..n])?;
        Ok(n)
    }

    fn flush(&mut self) -> io::Result<()> {
        let flush = self.flushes;
        self.flushes = flush.saturating_add(1);
        if self.fails_to_flush {
            return Err(failure(flush));
        }
        Ok(())
    }
}

/// The read, write or flush that fails, if any does. Reads and writes are counted from 0.
#[derive(Clone, Copy)]
pub(crate) enum Failing {
    Nothing,
    Read(usize),
    Write(usize),
    Flush,
}

impl Failing {
    // The number of the read or write that fails, and 0 if there is none.
    fn call(self) -> usize {
        match self {
            Failing::Read(call) | Failing::Write(call) => call,
            Failing::Nothing | Failing::Flush => 0,
        }
    }
}

/// The settings of a tested program's in-memory devices: the input, and the call that fails. A failed test is named by
/// the case.
///
/// If no call fails, each read and each write is of up to 1,000 bytes. Otherwise a read gives up to 25 bytes. A write
/// takes one byte if a write fails, and up to ten if the flush fails.
#[derive(Clone, Copy)]
pub(crate) struct Devices<'a> {
    pub case: &'a str,
    pub input: &'a [u8],
    pub failing: Failing,
}

impl<'a> Devices<'a> {
    pub(crate) fn source(&self) -> Told<Source<'a>>
        ensures { result.failed ≡ false }
    {
        let (most, fails_at) = match self.failing {
            Failing::Nothing => (1000, None),
            Failing::Read(read) => (25, Some(read as u64)),
            Failing::Write(_) | Failing::Flush => (25, None),
        };
        Told::new(Source {
            rest: self.input,
            most,
            reads: 0,
            fails_at,
        })
    }

    pub(crate) fn sink(&self, alloc: Global) -> Told<Sink>
        ensures { result.failed ≡ false }
    {
        let (most, fails_at) = match self.failing {
            Failing::Write(write) => (1, Some(write as u64)),
            Failing::Flush => (10, None),
            Failing::Nothing | Failing::Read(_) => (1000, None),
        };
        Told::new(Sink {
            got: Vec::new(alloc),
            most,
            writes: 0,
            flushes: 0,
            fails_at,
            fails_to_flush: matches!(self.failing, Failing::Flush),
        })
    }
}

/// The expected outcome of a tested program: its result, the input that it leaves unread, and its output. The unread
/// input is a number of bytes. With the output are the numbers of writes and flushes.
#[derive(Clone, Copy)]
pub(crate) struct Outcome<'a> {
    pub end: Result<(), Fault>,
    pub left: usize,
    pub text: &'a [u8],
    pub writes: u64,
    pub flushes: u64,
}

impl<'a> Outcome<'a> {
    /// Creates the expected outcome of a program that prints `text` and succeeds. The program prints all of `text` in
    /// `writes` writes.
    pub(crate) fn printed(text: &'a [u8], writes: u64) -> Outcome<'a> {
        Outcome {
            end: Ok(()),
            left: 0,
            text,
            writes,
            flushes: 1,
        }
    }

    /// Creates the expected outcome of a program that fails and prints nothing. The program ends with `fault`, and
    /// leaves `left` input bytes.
    pub(crate) fn nothing(fault: Fault, left: usize) -> Outcome<'a> {
        Outcome {
            end: Err(fault),
            left,
            text: b"",
            writes: 0,
            flushes: 0,
        }
    }

    /// Creates the expected outcome of a program that writes `text` and fails at the next write. The program writes
    /// `text` byte by byte.
    pub(crate) fn cut(text: &'a [u8]) -> Outcome<'a> {
        Outcome {
            end: Err(Fault::Device),
            left: 0,
            text,
            writes: (text.len() as u64).saturating_add(1),
            flushes: 0,
        }
    }

    // Whether a program ended with this outcome.
    fn is_outcome(&self, end: Result<(), Fault>, input: &Source<'_>, output: &Sink) -> bool {
        end == self.end
            && input.rest.len() == self.left
            && output.has(self.text)
            && output.writes == self.writes
            && output.flushes == self.flushes
    }

    /// Checks that a program ended with this outcome.
    pub(crate) fn check_outcome(
        &self,
        rt: &impl Abort,
        devices: &Devices<'_>,
        end: Result<(), Fault>,
        input: &Source<'_>,
        output: &Sink,
    ) {
        let is_so = self.is_outcome(end, input, output);
        holds_at(rt, devices.case, devices.failing.call(), is_so);
    }
}
