//! The printed map of a host: its pages and realms.
ghost use Rattle.std.specs.Prelude.{◌≡◌, ◌++◌, OnOk, IfOk, string_bytes};
ghost use Rattle.plan_replay.specs.Run.{pages_text, build_text, map_text};

use granule_addr::BuildId;
use page_arena::PageStore;
use realm_host::Host;
use realm_plan::{push_free, push_page, push_realm};
use std::alloc::{AllocError, Global};

// Appends the lines of a build's pages.
fn push_pages<S: PageStore>(
    text: &mut String,
    host: &Host<S>,
    build: BuildId,
) -> Result<(), AllocError>
    ensures { OnOk result (string_bytes text.new ≡ string_bytes text.old ++ pages_text host.now build) }
{
    for page in 0..host.page_count(build) {
        let state = host.page_state(build, page).unwrap();
        let sum = host.page_sum(build, page).unwrap();
        push_page(text, build, page, state, sum)?;
    }
    Ok(())
}

// Appends the lines of a build's pages, and the line of its realm.
fn push_build<S: PageStore>(
    text: &mut String,
    host: &Host<S>,
    build: BuildId,
) -> Result<(), AllocError>
    ensures { OnOk result (string_bytes text.new ≡ string_bytes text.old ++ build_text host.now build) }
{
    push_pages(text, host, build)?;
    match host.realm_view(build) {
        Some((state, vmid)) => push_realm(text, build, state, vmid),
        None => Ok(()),
    }
}

/// Appends the printed map of a host's pages and realms to a text. The map has the pages and the realm of each build,
/// and the number of granules that no build leases. An `Err` means that allocation failed; the text may then have a
/// part of the map.
pub fn push_map<S: PageStore>(text: &mut String, host: &Host<S>) -> Result<(), AllocError>
    ensures { OnOk result (string_bytes text.new ≡ string_bytes text.old ++ map_text host.now) }
{
    for place in 0..8 {
        push_build(text, host, BuildId::at(place))?;
    }
    push_free(text, host.free_count())
}

/// Returns the printed map of a host's pages and realms. The map has the pages and the realm of each build, and the
/// number of granules that no build leases. The one error is that allocation failed.
pub fn map_text<S: PageStore>(alloc: Global, host: &Host<S>) -> Result<String, AllocError>
    ensures { IfOk result (λ text. string_bytes text ≡ map_text host.now) }
{
    let mut text = String::new(alloc);
    push_map(&mut text, host)?;
    Ok(text)
}
