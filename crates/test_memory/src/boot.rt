//! Functions that boot a host, and try again if an allocation fails.
ghost use Rattle.std.specs.Prelude.{◌≡◌, [], true, length, replicate, IfOk};
ghost use Rattle.granule_addr.specs.Page.{zero_page};

use crate::{Fault, tell_try};
use buddy::BuddyArena;
use page_arena::{BuildError, PageStore};
use realm_host::{Host, Settings};
use std::alloc::Global;

// Boots a host over a store, and tries again over the same store if an allocation fails.
fn boot<S: PageStore + Drop>(
    rt: &impl Print,
    alloc: Global,
    settings: Settings,
    store: S,
) -> Result<Host<S>, Fault>
    requires zero { S.page_bytes store ≡ replicate (length (S.page_bytes store)) zero_page }
    requires free { S.free_flags store ≡ replicate (length (S.page_bytes store)) true }
    ensures { IfOk result (λ host. host.history ≡ []) }
{
    let (host, is_second) = match Host::boot(alloc, settings, store) {
        Ok(host) => (host, false),
        Err((_, store)) => match Host::boot(alloc, settings, store) {
            Ok(host) => (host, true),
            Err((error, _)) => return Err(error.into()),
        },
    };
    tell_try(rt, "booted", is_second);
    Ok(host)
}

/// Boots a host of 16 pages and two builds.
pub(crate) fn booted(rt: &impl Print, alloc: Global) -> Result<Host<BuddyArena>, Fault>
    ensures { IfOk result (λ host. host.history ≡ []) }
{
    let settings = Settings::new(8, 0, 1024, 2).unwrap();
    match BuddyArena::build(alloc, 16) {
        Ok(store) => boot(rt, alloc, settings, store),
        Err(BuildError::Memory(error)) => Err(error.into()),
        Err(BuildError::BadSize) => Err(Fault::Other),
    }
}
