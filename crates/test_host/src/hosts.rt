//! Boots, shares and closes hosts for tests. If a host cannot be made, the test is aborted, and no value is dropped.
ghost use Rattle.std.specs.Prelude.{◌≡◌, [], true, length, replicate};
ghost use Rattle.granule_addr.specs.Page.{zero_page};
ghost use Rattle.build_seats.specs.Names.{AreNamed};

use buddy::BuddyArena;
use builders::{Blanks, Ledgers, Seat, Shared};
use page_arena::{PageStore, PlainStore};
use realm_host::{Host, Settings};
use std::alloc::Global;
use std::process::Abort;

fn boot<S: PageStore + Drop>(
    rt: &impl Abort,
    alloc: Global,
    store: S,
    auxiliaries: u8,
    builds: u8,
) -> Host<S>
    requires zero { S.page_bytes store ≡ replicate (length (S.page_bytes store)) zero_page }
    requires free { S.free_flags store ≡ replicate (length (S.page_bytes store)) true }
    ensures { result.history ≡ [] }
{
    let settings = Settings::new(8, auxiliaries, 1024, builds).expect(rt, "settings");
    match Host::boot(alloc, settings, store) {
        Ok(host) => host,
        Err(_) => panic!(rt; "there is no memory for a host"),
    }
}

/// Boots a host that keeps its pages in a `PlainStore`. The host has the given numbers of pages, of auxiliary granules
/// per REC, and of builds.
pub(crate) fn booted(
    rt: &impl Abort,
    alloc: Global,
    pages: u16,
    auxiliaries: u8,
    builds: u8,
) -> Host<PlainStore>
    ensures { result.history ≡ [] }
{
    match PlainStore::build(alloc, pages) {
        Ok(store) => boot(rt, alloc, store, auxiliaries, builds),
        Err(_) => panic!(rt; "there is no store"),
    }
}

/// Boots a host that keeps its pages in a `BuddyArena`. The host has the given numbers of pages and builds.
pub(crate) fn over_arena(
    rt: &impl Abort,
    alloc: Global,
    pages: u16,
    builds: u8,
) -> Host<BuddyArena> {
    match BuddyArena::build(alloc, pages) {
        Ok(store) => boot(rt, alloc, store, 0, builds),
        Err(_) => panic!(rt; "there is no arena"),
    }
}

/// Shares a host among its builds, and returns it with their session handles (`Seat`).
pub(crate) fn started<S: PageStore + Drop, L: Ledgers>(
    rt: &impl Abort,
    alloc: Global,
    blanks: Blanks,
    host: Host<S>,
) -> (Shared<S, L>, Vec<Seat<L>>)
    requires empty { host.history ≡ [] }
    requires opened { host ≡ L.opened }
    requires named { AreNamed L.names blanks }
{
    match Shared::start(alloc, blanks, host) {
        Ok(started) => started,
        Err(_) => panic!(rt; "there is no memory to share a host"),
    }
}

/// Closes a shared host with all its session handles (`Seat`), and returns the host.
pub(crate) fn closed<S: PageStore + Drop, L: Ledgers>(
    rt: &impl Abort,
    shared: Shared<S, L>,
    seats: Vec<Seat<L>>,
) -> Host<S> {
    match shared.close(seats) {
        Ok(host) => host,
        Err(_) => panic!(rt; "a trail is not the history's"),
    }
}
