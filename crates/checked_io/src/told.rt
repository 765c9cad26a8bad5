//! A reader or writer that remembers whether a call has failed. Nothing outside of this module calls the device or sets
//! the flag.
ghost use Rattle.std.specs.Prelude.{◌≡◌, ◌+◌, ◌-◌, ◌^◌, ◌<◌, ◌≤◌, ◌↔◌, min, false, true, is_err, IfOk, IfSome, OnOk, OnErr, Err, length};
ghost use Rattle.std.specs.Io.{ReadsAtMost, WritesAtMost};
ghost use Rattle.std.specs.Io.KnownBytes.{Appends, Keeps, ReadConsumes, WriteAppends};
ghost use Rattle.std.specs.IoError.{error_kind};
ghost use Rattle.checked_io.specs.Whole.{AppendsFront};

use std::alloc::Global;
use std::io::{Error, ErrorKind, Read, Write};
use std::marker::Model;

/// The error of a failed call to a reader or writer.
#[derive(Clone, Copy)]
pub struct DeviceFailed;

/// The reason why an input could not be read.
#[derive(Clone, Copy)]
pub enum ReadError {
    /// A failed allocation.
    Memory,
    /// A failed read.
    Device,
}

impl From<DeviceFailed> for ReadError {
    ghost use Rattle.std.specs.Prelude.{◌≡◌};
    ghost use Rattle.checked_io.specs.declared.told.ReadError.TheVariants.{Device};

    ghost from_gives = { λ _ error. error ≡ Device };

    fn from(_error: DeviceFailed) -> ReadError {
        ReadError::Device
    }
}

/// A reader or writer with a flag that says whether a call has failed.
#[derive(Drop)]
pub struct Told<D> {
    device: D,
    failed: bool,
    is_closed: bool,
    reads: u64,
}

impl<D> Model for Told<D> {
    ghost use Rattle.std.specs.Prelude.{◌≡◌, true};
    ghost use Rattle.checked_io.specs.Told.{ToldView};

    ghost Value = { ToldView D };

    ghost view = { λ t. record { device = t.device; failed = t.failed; is_closed = t.is_closed; reads = t.reads } };

    ghost invariant = { λ t. t.is_closed ≡ true → t.failed ≡ true };
}

impl<D> Told<D> {
    /// Wraps a reader or writer, with the flag for failed calls unset.
    pub fn new(device: D) -> Told<D>
        ensures { result ≡ record { device = device; failed = false; is_closed = false; reads = 0 } }
    {
        Told {
            device,
            failed: false,
            is_closed: false,
            reads: 0,
        }
    }

    /// Returns whether a call to the wrapped reader or writer has failed.
    pub fn has_failed(&self) -> bool
        ensures { result ≡ self.now.failed }
    {
        self.failed
    }

    /// Returns whether a write or flush failed because of a closed pipe. The device is then a pipe whose other end is
    /// closed.
    pub fn is_closed(&self) -> bool
        ensures value { result ≡ self.now.is_closed }
        ensures failed { result ≡ true → self.now.failed ≡ true }
    {
        self.is_closed
    }

    /// Returns a reference to the wrapped reader or writer.
    pub fn device(&self) -> &D
        ensures { result.now ≡ self.now.device }
    {
        &self.device
    }

    // Records a failure, and whether the cause is a closed pipe.
    fn fail(&mut self, is_closed: bool) -> DeviceFailed
        ensures { self.new ≡ record self.old { failed = true; is_closed = is_closed } }
    {
        self.failed = true;
        self.is_closed = is_closed;
        DeviceFailed
    }

    // Records a failed write or flush by its error, which says whether the pipe is closed.
    fn fail_by(&mut self, error: &Error) -> DeviceFailed
        ensures fails { self.new ≡ record self.old { failed = true; is_closed = self.new.is_closed } }
        ensures closed { (self.new.is_closed ≡ true) ↔ (error_kind error.now ≡ ErrorKind.BrokenPipe) }
    {
        self.fail(error.kind() == ErrorKind::BrokenPipe)
    }

    /// Returns the number of read calls made so far. The counter saturates at the greatest `u64`.
    pub fn reads(&self) -> u64
        ensures { result ≡ self.now.reads }
    {
        self.reads
    }
}

impl<R: Read> Told<R> {
    /// Reads bytes from the wrapped reader with one call. Every error of the device is a failure, and an `Err` sets
    /// `failed`. A failed read is never that of a closed pipe.
    pub fn read(&mut self, buf: &mut [u8]) -> Result<usize, DeviceFailed>
        requires { self.old.failed ≡ false }
        ensures told { self.new.failed ≡ is_err result }
        ensures not_closed { self.new.is_closed ≡ false }
        ensures counted { self.new.reads ≡ min (self.old.reads + 1) (2 ^ 64 - 1) }
        ensures not_lowered { self.old.reads ≤ self.new.reads }
        ensures bound { ReadsAtMost result buf.new }
        ensures bytes { ReadConsumes (R.remaining self.old.device) (R.remaining self.new.device) result buf.new }
    {
        self.reads = self.reads.saturating_add(1);
        match self.device.read(buf) {
            Ok(n) => Ok(n),
            Err(_) => Err(self.fail(false)),
        }
    }
}

impl<W: Write> Told<W> {
    /// Writes bytes to the wrapped writer with one call. If `buf` has any bytes, a successful call writes at least one.
    /// Every error of the device is a failure, and so is a write that takes none of the bytes. An `Err` sets `failed`.
    pub fn write(&mut self, buf: &[u8]) -> Result<usize, DeviceFailed>
        requires { self.old.failed ≡ false }
        ensures told { self.new.failed ≡ is_err result }
        ensures counted { self.new.reads ≡ self.old.reads }
        ensures bound { WritesAtMost result buf.now }
        ensures some { IfOk result (λ n. 0 < length buf.now → 0 < n) }
        ensures bytes { WriteAppends (W.contents self.old.device) (W.contents self.new.device) result buf.now }
    {
        match self.device.write(buf) {
            Ok(n) if n > 0 || buf.is_empty() => Ok(n),
            Ok(_) => Err(self.fail(false)),
            Err(error) => Err(self.fail_by(&error)),
        }
    }

    /// Flushes the wrapped writer. Every error of the device is a failure, and an `Err` sets `failed`.
    pub fn flush(&mut self) -> Result<(), DeviceFailed>
        requires { self.old.failed ≡ false }
        ensures told { self.new.failed ≡ is_err result }
        ensures counted { self.new.reads ≡ self.old.reads }
        ensures bytes { Keeps (W.contents self.old.device) (W.contents self.new.device) }
    {
        match self.device.flush() {
            Ok(()) => Ok(()),
            Err(error) => Err(self.fail_by(&error)),
        }
    }

    /// Writes the whole text, then flushes once. After an `Err`, a prefix of the text has been written.
    pub fn write_whole(&mut self, text: &[u8]) -> Result<(), DeviceFailed>
        requires { self.old.failed ≡ false }
        ensures told { self.new.failed ≡ is_err result }
        ensures counted { self.new.reads ≡ self.old.reads }
        ensures ok { OnOk result (Appends (W.contents self.old.device) (W.contents self.new.device) text.now) }
        ensures err { OnErr result (AppendsFront (W.contents self.old.device) (W.contents self.new.device) text.now) }
    {
        let mut rest = text;
        while !rest.is_empty() {
            let Ok(n) = self.write(rest) else {
                return Err(DeviceFailed);
            };
            let (_, after) = rest.split_at(n);
            rest = after;
        }
        self.flush()
    }
}
