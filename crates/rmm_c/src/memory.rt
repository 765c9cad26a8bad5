//! The host's loads and stores of bytes within one granule.
ghost use Rattle.std.specs.Prelude.{◌≡◌, length};
ghost use Rattle.rmm.specs.Bytes.{loaded_bytes};
ghost use Rattle.rmm_c.specs.Memory as memory;
ghost use Rattle.rmm_c.specs.Reading.{Reports, Reads};

use crate::{PlainRmm, RmmHandle};
use std::alloc::Global;

// Loads the bytes from an address on, or leaves the buffer unchanged if the host faults.
fn load_bytes(plain: &PlainRmm, address: u64, bytes: &mut [u8]) -> bool
    ensures { Reports (loaded_bytes plain.now address (length bytes.old)) bytes.old result bytes.new }
{
    match plain.rmm.load_bytes(address, bytes.len()) {
        Some(loaded) => {
            bytes.copy_from_slice(loaded);
            true
        }
        None => false,
    }
}

/// Loads bytes within one granule. Returns false, and writes nothing, if the host faults, if the bytes are of more than
/// one granule, or if the handle is closed.
#[unsafe(no_mangle)]
pub extern "C" fn rmm_load(
    alloc: Global,
    handle: &mut RmmHandle,
    address: u64,
    bytes: &mut [u8],
) -> bool
    ensures read { Reads (λ m. loaded_bytes m address (length bytes.old)) handle.old.held.machine
        bytes.old result bytes.new }
    ensures same { handle.new.held.machine ≡ handle.old.held.machine }
{
    let Some(plain) = handle.take(alloc) else {
        return false;
    };
    let is_loaded = load_bytes(&plain, address, bytes);
    handle.give(plain);
    is_loaded
}

/// Stores bytes within one granule. Returns false, and changes nothing, if the host faults, if the bytes are of more
/// than one granule, or if the handle is closed.
#[unsafe(no_mangle)]
pub extern "C" fn rmm_store(
    alloc: Global,
    handle: &mut RmmHandle,
    address: u64,
    bytes: &[u8],
) -> bool
    ensures answer { result ≡ memory.can_access_on address (length bytes.now) handle.old.held.machine }
    ensures machine { handle.new.held.machine ≡ memory.after_store_on address bytes.now handle.old.held.machine }
{
    let Some(mut plain) = handle.take(alloc) else {
        return false;
    };
    let is_stored = plain.rmm.store_bytes(address, bytes);
    handle.give(plain);
    is_stored
}
