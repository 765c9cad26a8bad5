//! Functions that split and merge free blocks.
ghost use Rattle.std.specs.Prelude.{◌≡◌, ◌≢◌, ℕ, ◌+◌, ◌^◌, ◌%◌, ◌<◌, ◌≤◌, ◌↔◌, Bool, true, List, length, IsTrue, IfSome, IfNone};
ghost use Rattle.std.specs.Bool.{OnTrue, OnFalse};
ghost use Rattle.page_arena.specs.Block.{IsFreeBlock, IsTakenBlock, with_taken, with_given};
ghost use Rattle.buddy.specs.MaximalBlock.{TurnsUp};
ghost use Rattle.buddy.specs.Heads.{head_at, start_at, buddy_at, AreMaximal};
ghost use Rattle.buddy.specs.InHand.{AllBelow, HasChecked};

use crate::lists::FreeLists;
use granule_addr::{Gran, Order, align_down, buddy_of};

// The order with the given number.
fn order_of(number: usize) -> Order
    requires { number < 10 }
    ensures { result ≡ number }
{
    Order::new(number as u8).unwrap()
}

/// Returns the number of granules in a block of a given order.
pub(crate) fn size_of(order: usize) -> u16
    requires { order < 10 }
    ensures size { result ≡ 2 ^ order }
    ensures below { result ≤ 512 }
{
    order_of(order).size()
}

/// Rounds `granule` down to the first granule of a block of order `order`.
pub(crate) fn start_of(granule: usize, order: usize) -> usize
    requires granule { granule < 4096 }
    requires order { order < 10 }
    ensures { result ≡ start_at granule order }
{
    align_down(granule as u16, order_of(order)) as usize
}

// The first granule of a block's buddy: the other half of the enclosing block of the next order. A machine may lack the
// buddy.
fn other_half(first: usize, order: usize) -> usize
    requires first { first < 4096 }
    requires order { order < 10 }
    ensures { result ≡ buddy_at first order }
{
    let first = Gran::from_number(first as u16);
    buddy_of(first, order_of(order)) as usize
}

// Visits one order for `cut_out`, and returns whether the free block that contains the granule is found by then. Once
// found, the block is halved, and the half without the granule is put back.
fn check_order(lists: &mut FreeLists, granule: usize, order: usize, found: bool) -> bool
    ghost flags: { List Bool }
    requires granule { granule < 4096 }
    requires order { order < 10 }
    requires checked { HasChecked lists.old.heads flags granule (order + 1) found }
    ensures checked { HasChecked lists.new.heads flags granule order result }
    ensures unchanged { OnFalse result (lists.new ≡ lists.old) }
    ensures stays { OnTrue found (result ≡ true) }
{
    let start = start_of(granule, order);
    if found {
        lists.put(other_half(start, order), order);
        return true;
    }
    if lists.head(start) as usize != order + 1 {
        return false;
    }
    lists.take_out(start, order);
    true
}

/// Takes a block, if it is free, out of the maximal free block that contains it. The maximal block has an order of at
/// most `top`, and may be the block itself. Returns whether the block was free, and the number of orders visited.
pub(crate) fn cut_out(lists: &mut FreeLists, first: usize, order: usize, top: usize) -> (bool, u8)
    ghost flags: { List Bool }
    requires orders { (order ≤ top) × (top ≤ 9) }
    requires first { first < 4096 }
    requires aligned { first % 2 ^ order ≡ 0 }
    requires lists { AreMaximal lists.old.heads flags }
    requires top { AllBelow flags first (top + 1) }
    ensures answer { IsTrue result.0 ↔ IsFreeBlock flags order first }
    ensures cut { OnTrue result.0 (AreMaximal lists.new.heads (with_taken flags order first)) }
    ensures unchanged { OnFalse result.0 (lists.new ≡ lists.old) }
    ensures turns { result.1 + order ≡ top + 1 }
{
    let mut found = false;
    let mut turns = 0;
    let mut rest = top + 1;
    while rest > order {
        rest -= 1;
        found = check_order(lists, first, rest, found);
        turns += 1;
    }
    (found, turns)
}

// The first granule of a block's buddy, if the buddy is in the free list of the same order.
fn free_buddy(lists: &FreeLists, first: usize, order: usize) -> Option<usize>
    requires first { first < 4096 }
    requires order { order < 10 }
    ensures order { IfSome result (λ _. order < 9) }
    ensures buddy { IfSome result (λ other. other ≡ buddy_at first order) }
    ensures head { IfSome result (λ other. head_at lists.now.heads other ≡ order + 1) }
    ensures none { IfNone result (order < 9 → head_at lists.now.heads (buddy_at first order) ≢ order + 1) }
{
    let other = other_half(first, order);
    if order < 9 && lists.head(other) as usize == order + 1 {
        return Some(other);
    }
    None
}

/// Puts a taken block into the free lists, merged with its buddy if its order is below 9 and the whole buddy is free.
/// The merged block is merged in turn, order by order. Returns the number of orders visited.
pub(crate) fn give_to(lists: &mut FreeLists, first: usize, order: usize) -> u8
    ghost flags: { List Bool }
    requires few { length flags ≤ 4096 }
    requires lists { AreMaximal lists.old.heads flags }
    requires order { order < 10 }
    requires block { IsTakenBlock flags order first }
    ensures lists { AreMaximal lists.new.heads (with_given flags order first) }
    ensures turns { TurnsUp (with_given flags order first) order first result }
{
    let mut start = first;
    let mut rest = order;
    let mut turns = 1;
    while let Some(other) = free_buddy(lists, start, rest) {
        lists.take_out(other, rest);
        start = start.min(other);
        rest += 1;
        turns += 1;
    }
    lists.put(start, rest);
    turns
}
