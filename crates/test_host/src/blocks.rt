//! Tests of the free blocks of a page store (`BuddyArena`).
ghost use Rattle.std.specs.Prelude.{◌≡◌, IsTrue};
ghost use Rattle.page_arena.specs.Block.{IsTakenBlock};

use crate::expected::{built, holds, holds_at};
use crate::names::{granule, order};
use buddy::BuddyArena;
use granule_addr::{Gran, Order};
use page_arena::PageStore;
use std::process::Abort;

// Checks that the maximal free blocks of one order, which are part of no larger one, are exactly the expected ones.
fn has_blocks_of(rt: &impl Abort, arena: &BuddyArena, number: u8, wanted: &[(u8, u16)]) {
    for first in 0..arena.pages() {
        let is_there = arena.is_free_block(order(number), granule(first));
        let is_so = is_there == wanted.contains(&(number, first));
        holds_at(rt, "a free block", first as usize, is_so);
    }
}

// Checks that the maximal free blocks are exactly the expected ones, each with its order and its first page.
fn has_blocks(rt: &impl Abort, arena: &BuddyArena, wanted: &[(u8, u16)]) {
    for number in 0..10 {
        has_blocks_of(rt, arena, number, wanted);
    }
}

// Takes the given page, which has to be free.
#[tactic(auto, using(page_arena::specs::Blocks::taken_block))]
fn takes_the_page<S: PageStore>(rt: &impl Abort, store: &mut S, page: Gran, one: Order)
    ensures { IsTakenBlock (S.free_flags store.new) one page }
{
    if !store.take_at(one, page) {
        panic!(rt; "the page is not free");
    }
}

// An arena of 13 pages: taking page 9 splits the block at page 8, and giving it back merges the parts.
#[test]
fn thirteen_pages(rt: HostRuntime) {
    let mut arena = built(&rt, BuddyArena::build(rt.alloc(), 13));
    let (nine, one) = (granule(9), order(0));
    has_blocks(&rt, &arena, &[(3, 0), (2, 8), (0, 12)]);
    takes_the_page(&rt, &mut arena, nine, one);
    has_blocks(&rt, &arena, &[(3, 0), (0, 8), (1, 10), (0, 12)]);
    arena.give(nine, one);
    has_blocks(&rt, &arena, &[(3, 0), (2, 8), (0, 12)]);
    holds(&rt, "no block of 16", arena.take(order(4)).is_none());
    holds(
        &rt,
        "the block of 8",
        arena.take(order(3)) == Some(granule(0)),
    );
}
