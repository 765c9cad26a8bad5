//! A timed test that takes a block and gives it back many times.
use crate::{Fault, tell};
use buddy::BuddyArena;
use granule_addr::{Gran, Order};
use page_arena::{BuildError, PageStore};
use std::alloc::Global;

const TIMES: u32 = 200_000;

// Takes a block of 512 pages that the store chooses, and gives it back.
#[tactic(auto, using(page_arena::specs::Blocks::taken_block))]
fn take_and_give(arena: &mut BuddyArena, order: Order) -> bool {
    match arena.take(order) {
        Some(first) => {
            arena.give(first, order);
            true
        }
        None => false,
    }
}

// Takes the block of 512 pages that begins at granule `first`, and gives it back.
#[tactic(auto, using(page_arena::specs::Blocks::taken_block))]
fn take_at_and_give(arena: &mut BuddyArena, order: Order, first: Gran) -> bool {
    if !arena.take_at(order, first) {
        return false;
    }
    arena.give(first, order);
    true
}

// Takes a block of 512 pages from a store and gives it back, many times, and returns the number of times that this
// succeeds.
fn repeat(arena: &mut BuddyArena, are_named: bool) -> u32 {
    let order = Order::new(9).unwrap();
    let first = Gran::new(0, 1).unwrap();
    let mut count: u32 = 0;
    for _ in 0..TIMES {
        let has_gone = if are_named {
            take_at_and_give(arena, order, first)
        } else {
            take_and_give(arena, order)
        };
        count = count.saturating_add(u32::from(has_gone));
    }
    count
}

/// Takes a block of 512 pages from a store and gives it back, many times. The store is new, and has `pages` pages. The
/// block begins at granule 0 if `are_named`, or else where the store chooses. Nothing else happens between the two
/// printed lines.
pub(crate) fn take_and_give_repeatedly(
    rt: &impl Print,
    alloc: Global,
    pages: u16,
    are_named: bool,
) -> Result<(), Fault> {
    let mut arena = match BuddyArena::build(alloc, pages) {
        Ok(arena) => arena,
        Err(BuildError::Memory(error)) => return Err(error.into()),
        Err(BuildError::BadSize) => return Err(Fault::Other),
    };
    tell(rt, "quiet");
    let count = repeat(&mut arena, are_named);
    let _told = println!(rt; "{count} blocks come and go in {pages} pages, by name: {are_named}");
    Ok(())
}
