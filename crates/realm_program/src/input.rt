//! A function that reads a whole input into memory. At most one byte more than a plan may have is read.
ghost use Rattle.std.specs.Prelude.{◌≡◌, ◌+◌, ◌≤◌, ◌↔◌, [], false, true, IfOk, IfSome, OnOk, Err};
ghost use Rattle.realm_program.specs.Whole.{kept_of, ReadsOnce};
ghost use Rattle.checked_io.specs.declared.told.ReadError.TheVariants.{Device};

use checked_io::{ReadError, Told};
use std::alloc::Global;
use std::io::Read;

/// The maximum number of input bytes that are kept, which is one more than a plan may have.
pub const KEPT: usize = 1_048_577;

/// The maximum number of read calls for one input.
pub const MOST_READS: usize = 1_048_578;

// An empty list of bytes, with capacity for `KEPT` bytes if there is memory for them. A list that grows is copied, and
// takes the memory of both meanwhile.
fn room(alloc: Global) -> Vec<u8>
    ensures { result.items ≡ [] }
{
    match Vec::with_capacity(alloc, KEPT) {
        Ok(bytes) => bytes,
        Err(_) => Vec::new(alloc),
    }
}

// Reads an input to its end, or up to `KEPT` bytes, into a list that is empty.
fn read_into<R: Read>(bytes: &mut Vec<u8>, input: &mut Told<R>) -> Result<(), ReadError>
    requires readable { input.old.failed ≡ false }
    requires empty { bytes.old.items ≡ [] }
    ensures told { (input.new.failed ≡ true) ↔ (result ≡ Err Device) }
    ensures asked { input.new.reads ≤ input.old.reads + 1048578 }
    ensures not_lowered { input.old.reads ≤ input.new.reads }
    ensures once { ReadsOnce (R.remaining input.old.device) input.old.reads input.new.reads }
    ensures bytes { OnOk result (IfSome (R.remaining input.old.device) (λ xs. bytes.new.items ≡ kept_of xs)) }
{
    let mut buf = [0u8; 4096];
    for _ in 0..MOST_READS {
        let room = (KEPT - bytes.len()).min(buf.len());
        let part = &mut buf[..room];
        let n = input.read(part)?;
        if n == 0 {
            return Ok(());
        }
        let Ok(()) = bytes.extend_from_slice(&part[..n]) else {
            return Err(ReadError::Memory);
        };
        if bytes.len() >= KEPT {
            return Ok(());
        }
    }
    unreachable!()
}

/// Reads an input to its end, or up to 1,048,577 bytes. Returns the bytes.
///
/// The error is `Device` exactly if a read failed, and `Memory` only if allocation failed.
pub fn read_whole<R: Read>(alloc: Global, input: &mut Told<R>) -> Result<Vec<u8>, ReadError>
    requires { input.old.failed ≡ false }
    ensures told { (input.new.failed ≡ true) ↔ (result ≡ Err Device) }
    ensures asked { input.new.reads ≤ input.old.reads + 1048578 }
    ensures not_lowered { input.old.reads ≤ input.new.reads }
    ensures once { ReadsOnce (R.remaining input.old.device) input.old.reads input.new.reads }
    ensures bytes { IfOk result (λ v. IfSome (R.remaining input.old.device) (λ xs. v.items ≡ kept_of xs)) }
{
    let mut bytes = room(alloc);
    read_into(&mut bytes, input)?;
    Ok(bytes)
}
