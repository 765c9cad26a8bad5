//! A buffer through which an input is read line by line.
ghost use Rattle.std.specs.Prelude.{◌≡◌, ◌<◌, [], ◌∷◌, length, true, false, is_err, ◌↔◌, Err, IfOk, OnOk};
ghost use Rattle.std.specs.Io.KnownBytes.{Consumes, IsAtEnd, prepend_known};
ghost use Rattle.checked_io.specs.Lines.{IsNext};
ghost use Rattle.checked_io.specs.declared.told.ReadError.TheVariants.{Device};

use crate::{DeviceFailed, ReadError, Told};
use std::io::Read;
use std::marker::Model;

/// The outcome of an attempt to read the next line of an input.
#[derive(Clone, Copy)]
pub enum Next {
    /// A line that was read completely.
    Line,
    /// A line that is longer than the limit.
    TooLong,
    /// The end of the input.
    End,
}

/// A buffer for reading lines, with the bytes that were read from an input but not yet consumed.
#[derive(Drop)]
pub struct Lines {
    buffer: [u8; 4096],
    start: usize,
    end: usize,
}

impl Model for Lines {
    ghost use Rattle.std.specs.Prelude.{ℕ, ◌≤◌, List, drop, take};

    ghost Value = { List ℕ };

    ghost view = { λ l. drop l.start (take l.end l.buffer) };

    ghost invariant = { λ l. (l.start ≤ l.end) × (l.end ≤ 4096) };
}

impl Lines {
    /// Creates an empty buffer.
    pub fn new() -> Lines
        ensures { result ≡ [] }
    {
        Lines {
            buffer: [0; 4096],
            start: 0,
            end: 0,
        }
    }

    // Reads from the input if the buffer is empty, and returns whether the buffer then has a byte.
    fn fill<R: Read>(&mut self, input: &mut Told<R>) -> Result<bool, DeviceFailed>
        requires { input.old.failed ≡ false }
        ensures told { input.new.failed ≡ is_err result }
        ensures keeps { OnOk result (Consumes (prepend_known self.old (R.remaining input.old.device)) (prepend_known self.new (R.remaining input.new.device)) []) }
        ensures some { IfOk result (λ some. some ≡ true → 0 < length self.new) }
        ensures end { IfOk result (λ some. some ≡ false → IsAtEnd (prepend_known self.new (R.remaining input.new.device))) }
    {
        if self.start < self.end {
            return Ok(true);
        }
        let n = input.read(&mut self.buffer)?;
        self.start = 0;
        self.end = n;
        Ok(n > 0)
    }

    // Removes the first byte of the buffer, and returns it.
    fn take_byte(&mut self) -> u8
        requires { 0 < length self.old }
        ensures { self.old ≡ result ∷ self.new }
    {
        let byte = self.buffer[self.start];
        self.start += 1;
        byte
    }

    /// Reads the next line, without its line feed. Returns `TooLong` for a line of more than `most` bytes.
    ///
    /// The error is `Device` exactly if a read failed, and `Memory` only if allocation failed.
    pub fn next_line<R: Read>(
        &mut self,
        input: &mut Told<R>,
        most: u16,
        line: &mut Vec<u8>,
    ) -> Result<Next, ReadError>
        requires { input.old.failed ≡ false }
        ensures told { (input.new.failed ≡ true) ↔ (result ≡ Err Device) }
        ensures next { IfOk result (λ next. IsNext most (prepend_known self.old (R.remaining input.old.device)) next line.new.items
            (prepend_known self.new (R.remaining input.new.device))) }
    {
        line.clear();
        for _ in 0..u32::from(most) + 1 {
            if !self.fill(input)? {
                return Ok(if line.is_empty() {
                    Next::End
                } else {
                    Next::Line
                });
            }
            let byte = self.take_byte();
            if byte == b'\n' {
                return Ok(Next::Line);
            }
            if line.len() >= usize::from(most) {
                return Ok(Next::TooLong);
            }
            let Ok(()) = line.push(byte) else {
                return Err(ReadError::Memory);
            };
        }
        unreachable!()
    }
}
