//! Functions of the C interface that read the state of a host. They read its free pages, and its builds with their
//! pages, realms and RECs.
ghost use Rattle.std.specs.Prelude.{◌≡◌};
ghost use Rattle.rhm_c.specs.Reading as readings;
ghost use Rattle.rhm_c.specs.Reading.{IsRead};

use crate::HostHandle;
use crate::command::build_of;
use crate::placed_host::PlainHost;
use granule_addr::RecNo;
use history_calls::Frame;
use realm_host::{GranuleState, Mark, RealmState, RecState};
use std::alloc::Global;

/// The state of a build, as a C struct. It has the number of pages, the number of open operations, and flags for a mark
/// and an abort. `mark` is the number of operations that were open at the mark, if the build has one. A flag is 1 if it
/// holds, and 0 if not.
#[repr(C)]
#[derive(Drop)]
pub struct BuildReading {
    pub page_count: u64,
    pub open_count: u64,
    pub mark: u64,
    pub has_mark: u64,
    pub is_aborting: u64,
}

/// The address and the granule state of a build's page.
#[repr(C)]
#[derive(Drop)]
pub struct PageReading {
    pub address: u64,
    pub state: u64,
}

/// The attributes of a build's realm, as a C struct. They are the addresses of its RD and first starting table, its
/// state, VMID and IPA width, and the number of its next REC. `state` is 0 for NEW and 1 for ACTIVE.
#[repr(C)]
#[derive(Drop)]
pub struct RealmReading {
    pub rd: u64,
    pub tables: u64,
    pub state: u64,
    pub vmid: u64,
    pub width: u64,
    pub next_rec: u64,
}

/// The address and state of a REC. The address is that of the REC's granule, and `state` is 0 for READY and 1 for
/// RUNNING.
#[repr(C)]
#[derive(Drop)]
pub struct RecReading {
    pub address: u64,
    pub state: u64,
}

// Writes a reading to `into`, if there is one, and returns whether there is one.
pub(crate) fn report<T: Drop>(read: Option<T>, into: &mut T) -> bool
    ensures { IsRead read into.old result into.new }
{
    match read {
        Some(it) => {
            *into = it;
            true
        }
        None => false,
    }
}

// The number of the state of a granule.
fn state_number(state: GranuleState) -> u64
    ensures { result ≡ readings.state_number state }
{
    match state {
        GranuleState::Undelegated => 0,
        GranuleState::Delegated => 1,
        GranuleState::Rd => 2,
        GranuleState::Rec => 3,
        GranuleState::RecAux => 4,
        GranuleState::Data => 5,
        GranuleState::Rtt => 6,
    }
}

// The number of the state of a realm.
fn realm_state_number(state: RealmState) -> u64
    ensures { result ≡ readings.realm_state_number state }
{
    match state {
        RealmState::New => 0,
        RealmState::Active => 1,
    }
}

// The number of the state of a REC.
fn rec_state_number(state: RecState) -> u64
    ensures { result ≡ readings.rec_state_number state }
{
    match state {
        RecState::Ready => 0,
        RecState::Running => 1,
    }
}

// The number of operations that were open at a mark; 0 if there is no mark.
fn mark_length(mark: Option<Mark>) -> u64
    ensures { result ≡ readings.mark_length mark }
{
    match mark {
        Some(mark) => u64::from(mark.length()),
        None => 0,
    }
}

// The number of a flag: 1 if it holds, and 0 if not.
fn flag(holds: bool) -> u64
    ensures { result ≡ readings.flag holds }
{
    if holds { 1 } else { 0 }
}

// The state of the build with the given number, if there is one.
fn build_at(host: &PlainHost, build: u64) -> Option<BuildReading>
    ensures { result ≡ readings.build_reading build host.now }
{
    let build = build_of(build)?;
    if build.number() >= host.build_count() {
        return None;
    }
    let mark = host.kept_mark(build);
    Some(BuildReading {
        page_count: u64::from(host.page_count(build)),
        open_count: host.open_acts(build).len() as u64,
        mark: mark_length(mark),
        has_mark: flag(mark.is_some()),
        is_aborting: flag(host.is_aborting(build)),
    })
}

// The address and state of a build's page, if the build has the page.
fn page_at(frame: Frame, host: &PlainHost, build: u64, page: u64) -> Option<PageReading>
    ensures { result ≡ readings.page_reading build page frame host.now }
{
    let build = build_of(build)?;
    if page > 0xFFFF {
        return None;
    }
    let granule = host.page_granule(build, page as u16)?;
    let state = host.page_state(build, page as u16)?;
    Some(PageReading {
        address: frame.address(granule),
        state: state_number(state),
    })
}

// The attributes of a build's realm, if the build has a realm.
fn realm_at(frame: Frame, host: &PlainHost, build: u64) -> Option<RealmReading>
    ensures { result ≡ readings.realm_reading build frame host.now }
{
    let build = build_of(build)?;
    let rd = host.rd(build)?;
    let realm = host.realm(build)?;
    let root = realm.root();
    Some(RealmReading {
        rd: frame.address(rd),
        tables: frame.address(root.first),
        state: realm_state_number(realm.state()),
        vmid: u64::from(realm.vmid().number()),
        width: u64::from(root.width.number()),
        next_rec: u64::from(realm.next_number().number()),
    })
}

// The address and state of REC `number` of a build's realm, if there is one.
fn rec_at(frame: Frame, host: &PlainHost, build: u64, number: u64) -> Option<RecReading>
    ensures { result ≡ readings.rec_reading build number frame host.now }
{
    let build = build_of(build)?;
    if number > 0xFFFF {
        return None;
    }
    match host.rec(build, RecNo::new(number as u16)) {
        Some((granule, rec)) => Some(RecReading {
            address: frame.address(granule),
            state: rec_state_number(rec.state()),
        }),
        None => None,
    }
}

/// Returns the number of granules that no build leases; 0 for a closed handle.
#[unsafe(no_mangle)]
pub extern "C" fn rhm_free_count(alloc: Global, handle: &mut HostHandle) -> u64
    ensures count { result ≡ readings.free_pages handle.old.held.host }
    ensures same { handle.new.held.host ≡ handle.old.held.host }
{
    let Some(placed) = handle.take(alloc) else {
        return 0;
    };
    let count = u64::from(placed.host.free_count());
    handle.give(placed);
    count
}

/// Writes the state of a build to `reading`. Returns false, and writes nothing, if there is no such build, and for a
/// closed handle.
#[unsafe(no_mangle)]
pub extern "C" fn rhm_read_build(
    alloc: Global,
    handle: &mut HostHandle,
    build: u64,
    reading: &mut BuildReading,
) -> bool
    ensures read { IsRead (readings.of_handle (λ place. readings.build_reading build) handle.old.held.host) reading.old result reading.new }
    ensures same { handle.new.held.host ≡ handle.old.held.host }
{
    let Some(placed) = handle.take(alloc) else {
        return false;
    };
    let found = build_at(&placed.host, build);
    handle.give(placed);
    report(found, reading)
}

/// Writes the address and state of a build's page to `reading`. Returns false, and writes nothing, if there is no such
/// page, and for a closed handle.
#[unsafe(no_mangle)]
pub extern "C" fn rhm_read_page(
    alloc: Global,
    handle: &mut HostHandle,
    build: u64,
    page: u64,
    reading: &mut PageReading,
) -> bool
    ensures read { IsRead (readings.of_handle (readings.page_reading build page) handle.old.held.host) reading.old result reading.new }
    ensures same { handle.new.held.host ≡ handle.old.held.host }
{
    let Some(placed) = handle.take(alloc) else {
        return false;
    };
    let found = page_at(placed.frame, &placed.host, build, page);
    handle.give(placed);
    report(found, reading)
}

/// Writes the attributes of a build's realm to `reading`. Returns false, and writes nothing, if the build has none, and
/// for a closed handle.
#[unsafe(no_mangle)]
pub extern "C" fn rhm_read_realm(
    alloc: Global,
    handle: &mut HostHandle,
    build: u64,
    reading: &mut RealmReading,
) -> bool
    ensures read { IsRead (readings.of_handle (readings.realm_reading build) handle.old.held.host) reading.old result reading.new }
    ensures same { handle.new.held.host ≡ handle.old.held.host }
{
    let Some(placed) = handle.take(alloc) else {
        return false;
    };
    let found = realm_at(placed.frame, &placed.host, build);
    handle.give(placed);
    report(found, reading)
}

/// Writes the address and state of a REC to `reading`. It is REC `number` of the build's realm. Returns false, and
/// writes nothing, if there is no such REC, and for a closed handle.
#[unsafe(no_mangle)]
pub extern "C" fn rhm_read_rec(
    alloc: Global,
    handle: &mut HostHandle,
    build: u64,
    number: u64,
    reading: &mut RecReading,
) -> bool
    ensures read { IsRead (readings.of_handle (readings.rec_reading build number) handle.old.held.host) reading.old result reading.new }
    ensures same { handle.new.held.host ≡ handle.old.held.host }
{
    let Some(placed) = handle.take(alloc) else {
        return false;
    };
    let found = rec_at(placed.frame, &placed.host, build, number);
    handle.give(placed);
    report(found, reading)
}
