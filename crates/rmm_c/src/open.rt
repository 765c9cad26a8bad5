//! Functions that open and close a C program's handle to an RMM.
ghost use Rattle.std.specs.Prelude.{◌≡◌, ◌≢◌, ◌≤◌, ◌↔◌, true, false, None, Some, is_some};
ghost use Rattle.rmm_c.specs.Settings.{is_machine, opened_machine};

use crate::{PlainRmm, PlatformSettings, RmmHandle};
use std::alloc::Global;

// The return values of `rmm_open`.
const OPENED: u64 = 0;

const NO_MACHINE: u64 = 1;

const NO_MEMORY: u64 = 2;

const ALREADY_OPEN: u64 = 3;

/// Opens a closed handle with a fresh RMM that has the given settings. Each granule is UNDELEGATED, and its bytes are
/// 0.
///
/// Returns 0 if the handle is opened; otherwise nothing changes. The result is 3 exactly if the handle was open, and 2
/// if allocation failed. The result is 1 exactly if the handle was closed and no machine has these settings.
#[unsafe(no_mangle)]
pub extern "C" fn rmm_open(
    alloc: Global,
    handle: &mut RmmHandle,
    settings: &PlatformSettings,
) -> u64
    ensures done { result ≡ 0 → handle.new.held.machine ≡ Some (opened_machine settings.now) }
    ensures kept { result ≢ 0 → handle.new.held.machine ≡ handle.old.held.machine }
    ensures already_open { (result ≡ 3) ↔ (is_some handle.old.held.machine ≡ true) }
    ensures no_machine { (result ≡ 1)
        ↔ ((is_some handle.old.held.machine ≡ false) × (is_machine settings.now ≡ false)) }
    ensures no_other { result ≤ 3 }
{
    if handle.is_open() {
        return ALREADY_OPEN;
    }
    let count = settings.granules;
    if count < 1 || count > 4_096 {
        return NO_MACHINE;
    }
    let Some(platform) = settings.platform() else {
        return NO_MACHINE;
    };
    let Some(rmm) = PlainRmm::open(alloc, platform, count as u16) else {
        return NO_MEMORY;
    };
    let Ok(rmm) = Box::new(alloc, rmm) else {
        return NO_MEMORY;
    };
    handle.give(rmm);
    OPENED
}

/// Closes a handle, and frees the memory of its RMM. A handle that is already closed stays closed.
#[unsafe(no_mangle)]
pub extern "C" fn rmm_close(alloc: Global, handle: &mut RmmHandle)
    ensures { handle.new.held.machine ≡ None }
{
    let _rmm = handle.take(alloc);
}
