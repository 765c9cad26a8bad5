//! Tests of the number of block sizes that a page store (`BuddyArena`) visits in one call.
use crate::expected::{built, equal, holds};
use crate::names::order;
use buddy::BuddyArena;
use page_arena::PageStore;
use std::process::Abort;

// Checks that the last call visited `count` block sizes.
fn visited(rt: &impl Abort, arena: &BuddyArena, count: u64) {
    equal(rt, "visits", arena.visits() as u64, count);
}

// Takes a page and gives it back, and checks that each call visits `count` block sizes.
#[tactic(auto, using(page_arena::specs::Blocks::taken_block))]
fn check_take_and_give(rt: &impl Abort, arena: &mut BuddyArena, count: u64) {
    let one = order(0);
    let Some(page) = arena.take(one) else {
        panic!(rt; "no page is free");
    };
    visited(rt, arena, count);
    arena.give(page, one);
    visited(rt, arena, count);
}

#[test]
fn of_512_pages(rt: HostRuntime) {
    let mut arena = built(&rt, BuddyArena::build(rt.alloc(), 512));
    visited(&rt, &arena, 0);
    check_take_and_give(&rt, &mut arena, 10);
    holds(&rt, "all pages", arena.take(order(9)).is_some());
    visited(&rt, &arena, 1);
    holds(&rt, "no page is left", arena.take(order(0)).is_none());
    visited(&rt, &arena, 0);
}

#[test]
fn of_one_page(rt: HostRuntime) {
    let mut arena = built(&rt, BuddyArena::build(rt.alloc(), 1));
    check_take_and_give(&rt, &mut arena, 1);
}
