//! The help for a step that the host or its page store refuses without asking the RMM.
use crate::help::Help;
use crate::host_facts::{BuildFact, RoomFact, UndoFact};
use crate::of_block::has_block;
use crate::phrase::{Phrase, four, one, plain, three, two};
use crate::readings::{
    largest_free, newest_rec, order_for, other_pages, size_of_order, undos_of_realm,
};
use granule_addr::BuildId;
use host_commands::Step;
use page_arena::PageStore;
use realm_host::{GranuleState, Host};

/// Proposes the smallest `take` step that gives a build at least `count` pages. Returns `None` if no block of that size
/// is free, or if `count` is above 512.
pub(crate) fn take_of<S: PageStore>(host: &Host<S>, build: BuildId, count: u16) -> Option<Phrase> {
    let order = order_for(count)?;
    if !has_block(host, order) {
        return None;
    }
    let first = host.page_count(build);
    let last = first.saturating_add(order.size().saturating_sub(1));
    if first == last {
        return Some(one("`take 0` gives page {}", first as u64));
    }
    Some(three(
        "`take {}` gives pages {} to {}",
        order.number() as u64,
        first as u64,
        last as u64,
    ))
}

// The help for a page that the build lacks: a `take` that gives the page, or else the build's page numbers.
fn more_pages<S: PageStore>(host: &Host<S>, build: BuildId, page: u16, count: u16) -> Phrase {
    let lacking = page.saturating_sub(count).saturating_add(1);
    match take_of(host, build, lacking) {
        Some(take) => take,
        None if count > 1 => one("its pages are 0 to {}", count.saturating_sub(1) as u64),
        None => plain(""),
    }
}

// The help for a step that needs a realm: the steps that create one.
fn realm_first<S: PageStore>(host: &Host<S>, build: BuildId, step: &Step) -> Phrase {
    let delegated = other_pages(host, build, step, GranuleState::Delegated);
    if let [rd, root, ..] = delegated.as_slice() {
        return two("create one first: `realm {} {}`", *rd as u64, *root as u64);
    }
    let undelegated = other_pages(host, build, step, GranuleState::Undelegated);
    match undelegated.as_slice() {
        [rd, root, ..] => {
            let (rd, root) = (*rd as u64, *root as u64);
            four(
                "create one first: `delegate {}`, `delegate {}`, then `realm {} {}`",
                rd,
                root,
                rd,
                root,
            )
        }
        _ => plain("create one first: `realm P Q`, with DELEGATED pages P and Q"),
    }
}

/// Creates help that proposes to undo the creation of a build's realm, with the words `before` in front. Returns the
/// words `alone` if that creation is not open.
pub(crate) fn undoing_realm<S: PageStore>(
    host: &Host<S>,
    build: BuildId,
    before: &'static str,
    alone: &'static str,
) -> Help {
    match undos_of_realm(host, build) {
        Some(count) => Help::undo(plain(before), count, ""),
        None => Help::say(plain(alone)),
    }
}

// The help for an order above 9: the largest block, and the largest free block, if any.
fn smaller_order<S: PageStore>(host: &Host<S>) -> Phrase {
    match largest_free(host) {
        Some(order) => one(
            "a block has at most 512 pages: `take 9`; the largest free block is `take {}`",
            order.number() as u64,
        ),
        None => plain("a block has at most 512 pages: `take 9`"),
    }
}

/// Returns the help for a failed check on a build or a block order.
pub(crate) fn build_help<S: PageStore>(
    host: &Host<S>,
    build: BuildId,
    step: &Step,
    fact: BuildFact,
) -> Help {
    match fact {
        BuildFact::There(_) => Help::nothing(),
        BuildFact::NotAborting => Help::say(plain("`undo` what is still open")),
        BuildFact::Order(_) => Help::say(smaller_order(host)),
        BuildFact::Page { page, count, .. } => Help::say(more_pages(host, build, page, count)),
        BuildFact::Realm(_) => Help::say(realm_first(host, build, step)),
        BuildFact::NoRealm(_) => undoing_realm(
            host,
            build,
            "put the second realm into a [[build]] of its own, or undo the first: ",
            "put the second realm into a [[build]] of its own",
        ),
    }
}

// The help for a `take` if no block of its order is free.
fn other_block<S: PageStore>(host: &Host<S>, order: u8) -> Phrase {
    let size = size_of_order(order);
    let (pages, largest) = (host.pages(), largest_free(host));
    match largest {
        Some(free) if size > pages => four(
            "`take {}` asks for {} pages, the machine has {}; the largest free block is `take {}`",
            order as u64,
            size as u64,
            pages as u64,
            free.number() as u64,
        ),
        None if size > pages => three(
            "`take {}` asks for {} pages, the machine has {}",
            order as u64,
            size as u64,
            pages as u64,
        ),
        Some(free) => one("the largest free block is `take {}`", free.number() as u64),
        None => plain("`undo` of a `take` gives pages back; or set a larger `pages`"),
    }
}

/// Returns the help for a failed check on free capacity, such as a free VMID. The capacity is journal entries, history
/// entries, VMIDs or blocks.
pub(crate) fn room_help<S: PageStore>(host: &Host<S>, fact: RoomFact) -> Phrase {
    match fact {
        RoomFact::Journal(_) => plain(
            "`undo` some, or put a part of the steps into a [[build]] of its own",
        ),
        RoomFact::History { .. } => one(
            "set a larger `history`: it is {} events a build, and at most 16384",
            host.capacity() as u64,
        ),
        RoomFact::Vmid(_) => plain(
            "set a larger `vmids`, at most 255; or undo the realm of another build",
        ),
        RoomFact::Block { order, .. } => other_block(host, order),
    }
}

/// Returns the help for a failed check of an undo, an abort or a `back` step.
pub(crate) fn undo_help<S: PageStore>(host: &Host<S>, build: BuildId, fact: UndoFact) -> Help {
    match fact {
        UndoFact::Open(_) => Help::nothing(),
        UndoFact::NewestIsNotRunning => match newest_rec(host, build) {
            Some(number) => Help::say(one("`exit {}` first", number as u64)),
            None => Help::nothing(),
        },
        UndoFact::AllAreReady(_) | UndoFact::NoneRunsAboveMark => Help::exit(),
        UndoFact::Mark => Help::say(plain(
            "`mark` before the steps that `back` is to undo; an undo of steps before it drops it",
        )),
    }
}
