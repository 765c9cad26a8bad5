//! Streams that wait when a non-blocking pipe is not ready.
ghost use Rattle.std.specs.Prelude.{◌≡◌};

use std::io;
use std::io::{ErrorKind, Read, Write};
use std::thread::sleep;
use std::time::Duration;

// The pause before a call is tried again, in milliseconds.
const PAUSE: u64 = 2;

/// A stream that waits when a non-blocking pipe is not ready. A call that would block is tried again after a pause, for
/// which the stream keeps the runtime. Its bytes are those of `stream`.
#[derive(Drop)]
pub struct WaitingStream<'a, D> {
    rt: &'a HostRuntime,
    stream: D,
}

impl<'a, D> WaitingStream<'a, D> {
    /// Creates a stream that waits when `stream` is not ready.
    pub fn new(rt: &'a HostRuntime, stream: D) -> WaitingStream<'a, D>
        ensures { result.stream ≡ stream }
    {
        WaitingStream { rt, stream }
    }
}

impl<R: Read> Read for WaitingStream<'_, R> {
    ghost remaining = { λ s. R.remaining s.stream };

    fn read(&mut self, buf: &mut [u8]) -> io::Result<usize> {
        for _ in 0..u64::MAX {
            match self.stream.read(buf) {
                Err(error) if error.kind() == ErrorKind::WouldBlock => sleep(
                    self.rt,
                    Duration::from_millis(PAUSE),
                ),
                outcome => return outcome,
            }
        }
        Err(io::Error::from(ErrorKind::WouldBlock))
    }
}

impl<W: Write> Write for WaitingStream<'_, W> {
    ghost contents = { λ s. W.contents s.stream };

    fn write(&mut self, buf: &[u8]) -> io::Result<usize> {
        for _ in 0..u64::MAX {
            match self.stream.write(buf) {
                Err(error) if error.kind() == ErrorKind::WouldBlock => sleep(
                    self.rt,
                    Duration::from_millis(PAUSE),
                ),
                outcome => return outcome,
            }
        }
        Err(io::Error::from(ErrorKind::WouldBlock))
    }

    fn flush(&mut self) -> io::Result<()> {
        self.stream.flush()
    }
}
