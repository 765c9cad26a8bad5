//! Checks that a host performs before it calls the page store or the RMM. A failure gives one of refusals 1 to 6, 9, 10
//! and 12.
ghost use Rattle.std.specs.Prelude.{◌≡◌, ◌++◌, [], OnOk, map};
ghost use Rattle.std.specs.List.{cons_option};
ghost use Rattle.explain.specs.OfBuild.{build_there, not_aborting, checks_of_build, checks_of_order, page_there, checks_of_realm, checks_of_journal, room_left, room_check, checks_of_vmid, needs_checks};

use crate::check::{Check, Fact, add, add_all, add_some};
use crate::host_facts::{BuildFact, RoomFact};
use granule_addr::BuildId;
use host_commands::{BuildsView, RealmRequirement};
use page_arena::PageStore;
use realm_host::{Cmd, Host, Refusal};
use realm_model::JOURNAL_ROOM;
use std::alloc::AllocError;

/// Creates the check that the build exists; a failure gives refusal 1 (`NoBuild`).
pub(crate) fn build_there<S: PageStore>(host: &Host<S>, build: BuildId) -> Check
    ensures { result ≡ build_there host.now build }
{
    let builds = host.build_count();
    Check {
        fact: Fact::Build(BuildFact::There(builds)),
        fails: build.number() >= builds,
        refusal: Refusal::NoBuild,
    }
}

/// Creates the check that the build is not in abort; a failure gives refusal 2 (`Aborting`).
pub(crate) fn not_aborting<S: PageStore>(host: &Host<S>, build: BuildId) -> Check
    ensures { result ≡ not_aborting host.now build }
{
    Check {
        fact: Fact::Build(BuildFact::NotAborting),
        fails: host.is_aborting(build),
        refusal: Refusal::Aborting,
    }
}

/// Creates the checks that the build exists and that it is not in abort; their failures give refusals 1 and 2
/// (`NoBuild` and `Aborting`).
pub(crate) fn checks_of_build<S: PageStore>(host: &Host<S>, build: BuildId) -> [Check; 2]
    ensures { result ≡ checks_of_build host.now build }
{
    [build_there(host, build), not_aborting(host, build)]
}

// The check that a `take` names an order of at most 9, for refusal 3 (`BadOrder`).
fn order_check(cmd: &Cmd) -> Option<Check>
    ensures { cons_option result [] ≡ checks_of_order cmd.now }
{
    match cmd {
        Cmd::Take { order } => Some(Check {
            fact: Fact::Build(BuildFact::Order(*order)),
            fails: *order > 9,
            refusal: Refusal::BadOrder,
        }),
        _ => None,
    }
}

// The check that the build has the page, for refusal 4 (`NotLeased`).
fn page_there<S: PageStore>(host: &Host<S>, build: BuildId, page: u16) -> Check
    ensures { result ≡ page_there host.now build page }
{
    let granule = host.page_granule(build, page);
    Check {
        fact: Fact::Build(BuildFact::Page {
            page,
            granule,
            count: host.page_count(build),
        }),
        fails: granule.is_none(),
        refusal: Refusal::NotLeased(page),
    }
}

// Adds, for each of the pages, the check that the build has it, for refusal 4 (`NotLeased`).
fn add_pages<S: PageStore>(
    host: &Host<S>,
    build: BuildId,
    pages: &[u16],
    checks: &mut Vec<Check>,
) -> Result<(), AllocError>
    ensures { OnOk result (checks.new.items ≡ checks.old.items ++ map (page_there host.now build) pages.now) }
{
    for &page in pages {
        add(checks, page_there(host, build, page))?;
    }
    Ok(())
}

// The check that the build has no realm, or has one, as the command requires, for refusals 5 and 6.
fn realm_check<S: PageStore>(
    host: &Host<S>,
    build: BuildId,
    wants: RealmRequirement,
) -> Option<Check>
    ensures { cons_option result [] ≡ checks_of_realm host.now build wants }
{
    let rd = host.rd(build);
    match wants {
        RealmRequirement::Either => None,
        RealmRequirement::NoRealm => Some(Check {
            fact: Fact::Build(BuildFact::NoRealm(rd)),
            fails: rd.is_some(),
            refusal: Refusal::RealmThere,
        }),
        RealmRequirement::Realm => Some(Check {
            fact: Fact::Build(BuildFact::Realm(rd)),
            fails: rd.is_none(),
            refusal: Refusal::NoRealm,
        }),
    }
}

// The check that one more operation of the build can be open, for refusal 9 (`JournalFull`), if `paired` is set.
fn journal_check<S: PageStore>(host: &Host<S>, build: BuildId, paired: bool) -> Option<Check>
    ensures { cons_option result [] ≡ checks_of_journal host.now build paired }
{
    if !paired {
        return None;
    }
    let open = host.open_acts(build).len();
    Some(Check {
        fact: Fact::Room(RoomFact::Journal(open)),
        fails: open >= JOURNAL_ROOM as usize,
        refusal: Refusal::JournalFull,
    })
}

// The room that a build has left in the history; 0 if the build does not exist.
fn room_left<S: PageStore>(host: &Host<S>, build: BuildId) -> u16
    ensures { result ≡ room_left host.now build }
{
    if build.number() < host.build_count() {
        host.ledger().room_left(build)
    } else {
        0
    }
}

// The check that `needed` entries of the build's room in the history are left, for refusal 10 (`HistoryFull`).
fn room_check<S: PageStore>(host: &Host<S>, build: BuildId, needed: u16) -> Check
    ensures { result ≡ room_check host.now build needed }
{
    let left = room_left(host, build);
    Check {
        fact: Fact::Room(RoomFact::History { left, needed }),
        fails: left < needed,
        refusal: Refusal::HistoryFull,
    }
}

// The check that a VMID is free, for refusal 12 (`NoVmid`), if `wanted` is set.
fn vmid_check<S: PageStore>(host: &Host<S>, wanted: bool) -> Option<Check>
    ensures { cons_option result [] ≡ checks_of_vmid host.now wanted }
{
    if !wanted {
        return None;
    }
    let lowest = host.ledger().lowest_vmid();
    Some(Check {
        fact: Fact::Room(RoomFact::Vmid(lowest)),
        fails: lowest.is_none(),
        refusal: Refusal::NoVmid,
    })
}

/// Appends the host's own checks of a command that names the given pages, in ascending order of their refusal numbers.
pub(crate) fn add_needs<S: PageStore>(
    host: &Host<S>,
    build: BuildId,
    cmd: &Cmd,
    pages: &[u16],
    checks: &mut Vec<Check>,
) -> Result<(), AllocError>
    ensures { OnOk result (checks.new.items ≡ checks.old.items ++ needs_checks host.now build cmd.now pages.now) }
{
    let needs = cmd.needs();
    add_all(checks, &checks_of_build(host, build))?;
    add_some(checks, order_check(cmd))?;
    add_pages(host, build, pages, checks)?;
    add_some(checks, realm_check(host, build, needs.realm))?;
    add_some(checks, journal_check(host, build, needs.paired))?;
    add(checks, room_check(host, build, needs.room))?;
    add_some(checks, vmid_check(host, needs.vmid))
}
