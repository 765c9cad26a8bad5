//! Functions that read further values for a message, beside those of the failed check, from a host or a step.
use crate::of_block::has_block;
use crate::operands::pages_named;
use arrayvec::ArrayVec;
use granule_addr::{BuildId, Gran, Level, Order, RecNo};
use host_commands::{Cmd, Step};
use page_arena::PageStore;
use realm_host::{Act, EntryState, GranuleState, Host, RecState};

/// Returns the IPA granule that a step names, or 0 if the step names none.
pub(crate) fn ipa_of(step: &Step) -> u32 {
    match step {
        Step::Ask(Cmd::Rtt { ipa, .. })
        | Step::Ask(Cmd::Ripas { ipa, .. })
        | Step::Ask(Cmd::Data { ipa, .. })
        | Step::Ask(Cmd::Unknown { ipa, .. })
        | Step::Ask(Cmd::Poke { ipa, .. }) => *ipa,
        _ => 0,
    }
}

/// Returns the pages that a step names.
pub(crate) fn named_pages(step: &Step) -> ArrayVec<u16, 17> {
    match step {
        Step::Ask(cmd) => pages_named(cmd),
        _ => ArrayVec::new(),
    }
}

/// Returns up to 17 pages of a build, the lowest first, that are in the given state and are not named by the step.
pub(crate) fn other_pages<S: PageStore>(
    host: &Host<S>,
    build: BuildId,
    step: &Step,
    state: GranuleState,
) -> ArrayVec<u16, 17> {
    let named = named_pages(step);
    let mut pages = ArrayVec::new();
    for page in 0..host.page_count(build) {
        if !pages.is_full()
            && host.page_state(build, page) == Some(state)
            && !named.as_slice().contains(&page)
        {
            pages.push(page);
        }
    }
    pages
}

/// Returns the lowest page of a build, if any, that is in the given state and is not named by the step.
pub(crate) fn first_other<S: PageStore>(
    host: &Host<S>,
    build: BuildId,
    step: &Step,
    state: GranuleState,
) -> Option<u16> {
    other_pages(host, build, step, state)
        .as_slice()
        .first()
        .copied()
}

// Whether the `count` pages of a build from `first` on can be the starting tables of a realm with the RD page `rd`. The
// pages have to be DELEGATED, in adjacent granules from a multiple of `count` on, and without the page `rd`.
fn are_tables<S: PageStore>(
    host: &Host<S>,
    build: BuildId,
    rd: u16,
    first: u16,
    count: u16,
) -> bool {
    let Some(start) = host.page_granule(build, first) else {
        return false;
    };
    if count == 0 || start.number() % count != 0 {
        return false;
    }
    for place in 0..count {
        let page = first.saturating_add(place);
        let Some(granule) = host.page_granule(build, page) else {
            return false;
        };
        if page == rd
            || granule.number() != start.number().saturating_add(place)
            || host.page_state(build, page) != Some(GranuleState::Delegated)
        {
            return false;
        }
    }
    true
}

/// Finds the lowest page, if any, at which the `count` starting tables of a realm with the RD page `rd` can begin.
pub(crate) fn first_of_tables<S: PageStore>(
    host: &Host<S>,
    build: BuildId,
    rd: u16,
    count: u16,
) -> Option<u16> {
    for first in 0..host.page_count(build) {
        if are_tables(host, build, rd, first, count) {
            return Some(first);
        }
    }
    None
}

/// Returns the page number that a build has for a granule, or `None` if the build has none.
pub(crate) fn page_of<S: PageStore>(host: &Host<S>, build: BuildId, granule: Gran) -> Option<u16> {
    for page in 0..host.page_count(build) {
        if host.page_granule(build, page) == Some(granule) {
            return Some(page);
        }
    }
    None
}

/// Returns the order of the largest free block, if any.
pub(crate) fn largest_free<S: PageStore>(host: &Host<S>) -> Option<Order> {
    let mut largest = None;
    for number in 0..10 {
        if let Some(order) = Order::new(number) {
            if has_block(host, order) {
                largest = Some(order);
            }
        }
    }
    largest
}

/// Returns the number of pages in a block of the given order, or 1 if the order is above 9.
pub(crate) fn size_of_order(order: u8) -> u16 {
    match Order::new(order) {
        Some(order) => order.size(),
        None => 1,
    }
}

/// Returns the least order whose blocks have at least `count` pages, or `None` if no order is large enough.
pub(crate) fn order_for(count: u16) -> Option<Order> {
    for number in 0..10 {
        if let Some(order) = Order::new(number) {
            if order.size() >= count {
                return Some(order);
            }
        }
    }
    None
}

/// Counts the undos needed to reverse the delegation of a page. Returns `None` if the delegation is not open.
pub(crate) fn undos_of_delegation<S: PageStore>(
    host: &Host<S>,
    build: BuildId,
    page: u16,
) -> Option<usize> {
    let wanted = host.page_granule(build, page)?;
    let open = host.open_acts(build);
    let mut undos = open.len();
    for act in open {
        if matches!(act, Act::Delegate { granule } if *granule == wanted) {
            return Some(undos);
        }
        undos = undos.saturating_sub(1);
    }
    None
}

/// Counts the undos needed to reverse the creation of a build's realm. Returns `None` if that creation is not open.
pub(crate) fn undos_of_realm<S: PageStore>(host: &Host<S>, build: BuildId) -> Option<usize> {
    let open = host.open_acts(build);
    let mut undos = open.len();
    for act in open {
        if matches!(act, Act::Realm { .. }) {
            return Some(undos);
        }
        undos = undos.saturating_sub(1);
    }
    None
}

/// Returns the number of the REC that a build's newest open operation created, if it created one.
pub(crate) fn newest_rec<S: PageStore>(host: &Host<S>, build: BuildId) -> Option<u16> {
    match host.open_acts(build).last() {
        Some(Act::Rec { number, .. }) => Some(number.number()),
        _ => None,
    }
}

/// Returns the number that the next REC of a build's realm gets. It is 0 if the build has no realm.
pub(crate) fn next_rec<S: PageStore>(host: &Host<S>, build: BuildId) -> u16 {
    match host.realm(build) {
        Some(realm) => realm.next_number().number(),
        None => 0,
    }
}

/// A choice of a realm's RECs, either all of them or only the RUNNING ones.
#[derive(Clone, Copy)]
pub(crate) enum Recs {
    All,
    /// Only the RUNNING RECs.
    Running,
}

/// Returns whether the realm of a build has REC `number`, and the choice `recs` includes that REC.
pub(crate) fn has_rec<S: PageStore>(
    host: &Host<S>,
    build: BuildId,
    number: u16,
    recs: Recs,
) -> bool {
    match host.rec(build, RecNo::new(number)) {
        Some((_granule, rec)) => match recs {
            Recs::All => true,
            Recs::Running => matches!(rec.state(), RecState::Running),
        },
        None => false,
    }
}

/// Counts the RECs of a build's realm that the choice `recs` includes. Returns the count, and the highest number of
/// such a REC. Both are 0 if there is none.
pub(crate) fn count_of_recs<S: PageStore>(
    host: &Host<S>,
    build: BuildId,
    recs: Recs,
) -> (u16, u16) {
    let (mut count, mut last) = (0u16, 0);
    for number in 0..next_rec(host, build) {
        if has_rec(host, build, number, recs) {
            count = count.saturating_add(1);
            last = number;
        }
    }
    (count, last)
}

/// Returns whether an IPA granule has a level 3 table entry that is UNASSIGNED.
pub(crate) fn is_unassigned<S: PageStore>(host: &Host<S>, build: BuildId, ipa: u32) -> bool {
    match host.row(build, ipa, Level::last()) {
        Some(row) => row.level.number() == 3 && matches!(row.entry.state, EntryState::Unassigned),
        None => false,
    }
}

/// Finds the first IPA granule at or after `from` for which `is_unassigned` is equal to `unassigned`. Only the table of
/// level 3 that serves `from` is searched.
pub(crate) fn first_entry<S: PageStore>(
    host: &Host<S>,
    build: BuildId,
    from: u32,
    unassigned: bool,
) -> Option<u32> {
    for more in 0..512 - from % 512 {
        let ipa = from.saturating_add(more);
        if is_unassigned(host, build, ipa) == unassigned {
            return Some(ipa);
        }
    }
    None
}

/// Returns the number of IPA granules that a table of level 2 or 3 covers.
pub(crate) fn served(level: u8) -> u32 {
    if level == 2 { 262_144 } else { 512 }
}

/// Returns the first IPA granule of the table of level 2 or 3 that covers `ipa`.
pub(crate) fn first_served(ipa: u32, level: u8) -> u32 {
    let served = if level == 2 { 262_144 } else { 512 };
    ipa - ipa % served
}
