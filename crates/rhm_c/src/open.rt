//! Functions of the C interface that open and close a handle of a host.
ghost use Rattle.std.specs.Prelude.{◌≡◌, ◌≢◌, ◌≤◌, ◌↔◌, true, false, None, Some, is_some};
ghost use Rattle.rhm_c.specs.Settings.{are_settings, opened_host};

use crate::{HostHandle, HostSettings, PlacedHost};
use std::alloc::Global;

// The values that `rhm_open` returns.
const OPENED: u64 = 0;

const NO_HOST: u64 = 1;

const NO_MEMORY: u64 = 2;

const ALREADY_OPEN: u64 = 3;

/// Opens a closed handle with a new host. The host has the given settings. Each granule is UNDELEGATED and leased to no
/// build.
///
/// Returns 0 if the handle is open now; else nothing changes. Returns 3 exactly if the handle was open, and 1 exactly
/// if it was closed and a setting is out of its range. Returns 2 if allocation failed.
#[unsafe(no_mangle)]
pub extern "C" fn rhm_open(alloc: Global, handle: &mut HostHandle, settings: &HostSettings) -> u64
    ensures done { result ≡ 0 → handle.new.held.host ≡ Some (opened_host settings.now) }
    ensures kept { result ≢ 0 → handle.new.held.host ≡ handle.old.held.host }
    ensures already_open { (result ≡ 3) ↔ (is_some handle.old.held.host ≡ true) }
    ensures no_host { (result ≡ 1)
        ↔ ((is_some handle.old.held.host ≡ false) × (are_settings settings.now ≡ false)) }
    ensures no_other { result ≤ 3 }
{
    if handle.is_open() {
        return ALREADY_OPEN;
    }
    if !settings.are_settings() {
        return NO_HOST;
    }
    let Some(placed) = PlacedHost::open(alloc, settings) else {
        return NO_MEMORY;
    };
    let Ok(placed) = Box::new(alloc, placed) else {
        return NO_MEMORY;
    };
    handle.give(placed);
    OPENED
}

/// Closes a handle, and frees the memory of its host. A closed handle stays closed.
#[unsafe(no_mangle)]
pub extern "C" fn rhm_close(alloc: Global, handle: &mut HostHandle)
    ensures { handle.new.held.host ≡ None }
{
    let _placed = handle.take(alloc);
}
