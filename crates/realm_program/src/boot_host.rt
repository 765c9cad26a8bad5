//! Boots a host, and creates the store of pages that it uses. All pages of a new store are free. The trait of the
//! stores that can be built is here too.
ghost use Rattle.std.specs.Prelude.{◌≡◌, ◌≤◌, IfOk, ◌⊎◌, ◌<◌, ◌↔◌, true, replicate, IsErrOf};
ghost use Rattle.realm_host.specs.Host.{booted_by};
ghost use Rattle.realm_plan.specs.PlanView.{plan_view};
ghost use Rattle.realm_program.specs.Replay.{opening_host};
ghost use Rattle.granule_addr.specs.Page.{zero_page};

use buddy::BuddyArena;
use page_arena::{BuildError, PageStore, PlainStore};
use realm_host::{Host, Settings};
use realm_plan::Plan;
use std::alloc::{AllocError, Global};

/// Boots a host with the given settings and a new store of pages. The store has `pages` pages, all free.
pub fn boot_by<S: BuildableStore>(
    alloc: Global,
    settings: Settings,
    pages: u16,
) -> Result<Host<S>, AllocError>
    requires some { 1 ≤ pages }
    requires few { pages ≤ 4096 }
    ensures { IfOk result (λ host. host ≡ booted_by settings pages) }
{
    let store = match S::built(alloc, pages) {
        Ok(store) => store,
        Err(BuildError::Memory(error)) => return Err(error),
        Err(BuildError::BadSize) => unreachable!(),
    };
    match Host::boot(alloc, settings, store) {
        Ok(host) => Ok(host),
        Err((error, _store)) => Err(error),
    }
}

/// Boots the host that a plan describes, and creates its store of pages. The settings and the number of pages are the
/// plan's, and all pages are free.
pub fn boot<S: BuildableStore>(alloc: Global, plan: &Plan) -> Result<Host<S>, AllocError>
    ensures { IfOk result (λ host. host ≡ opening_host (plan_view plan.now)) }
{
    let settings = Settings::new(
        plan.vmids,
        plan.aux,
        plan.history,
        plan.builds.len() as u8,
    ).unwrap();
    boot_by(alloc, settings, plan.pages)
}

/// A store of pages that can be created at a given size. The size is any number of pages that a machine can have.
pub trait BuildableStore: PageStore + Drop {
    /// Creates a store of `pages` pages, all of them free and filled with zeros. The error is `BadSize` exactly if
    /// `pages` is not 1 to 4,096; the only other error is `Memory`.
    fn built(alloc: Global, pages: u16) -> Result<Self, BuildError>
        ensures bad_size { IsErrOf result BuildError.BadSize ↔ ((pages < 1) ⊎ (4096 < pages)) }
        ensures zero { IfOk result (λ store. Self.page_bytes store ≡ replicate pages zero_page) }
        ensures free { IfOk result (λ store. Self.free_flags store ≡ replicate pages true) };
}

impl BuildableStore for PlainStore {
    fn built(alloc: Global, pages: u16) -> Result<PlainStore, BuildError> {
        PlainStore::build(alloc, pages)
    }
}

impl BuildableStore for BuddyArena {
    fn built(alloc: Global, pages: u16) -> Result<BuddyArena, BuildError> {
        BuddyArena::build(alloc, pages)
    }
}
