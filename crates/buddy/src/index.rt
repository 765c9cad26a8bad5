//! The index of free granules, kept as lists of the maximal free blocks.
ghost use Rattle.std.specs.Prelude.{◌≡◌, ◌≢◌, ℕ, ◌+◌, ◌%◌, ◌^◌, ◌<◌, ◌≤◌, ◌↔◌, true, length, filter, replicate, IsTrue, IfOk, IfSome, IfNone, option_map};
ghost use Rattle.std.specs.Bool.{OnTrue, OnFalse};
ghost use Rattle.page_arena.specs.Block.{IsFreeBlock, IsTakenBlock, with_taken, with_given};
ghost use Rattle.buddy.specs.MaximalBlock.{IsMaximalBlock, TurnsUp};
ghost use Rattle.buddy.specs.FirstBlock.{first_block};

use crate::blocks::{cut_out, give_to, size_of, start_of};
use crate::lists::FreeLists;
use std::alloc::{AllocError, Global};
use std::marker::Model;

/// An index of free granules, kept as lists of the maximal free blocks. The view is a flag for each granule, and the
/// lists.
#[derive(Drop)]
pub(crate) struct FreeIndex {
    lists: FreeLists,
    count: u16,
}

impl Model for FreeIndex {
    ghost use Rattle.buddy.specs.Heads.{IsIndex, held};
    ghost use Rattle.buddy.specs.FirstBlock.{IndexView};

    ghost Value = { IndexView };

    ghost view = { λ i. record { flags = held i.lists.heads; lists = i.lists } };

    ghost invariant = { λ i. IsIndex i.count i.lists.heads };
}

impl FreeIndex {
    /// Creates an index in which all granules are free. The lowest blocks come first in the lists.
    pub(crate) fn build(alloc: Global, granules: u16) -> Result<FreeIndex, AllocError>
        requires { granules ≤ 4096 }
        ensures { IfOk result (λ index. index.flags ≡ replicate granules true) }
    {
        let mut lists = FreeLists::build(alloc, granules as usize)?;
        let mut granule = granules as usize;
        while granule > 0 {
            granule -= 1;
            give_to(&mut lists, granule, 0);
        }
        Ok(FreeIndex {
            lists,
            count: granules,
        })
    }

    /// Returns the number of free granules.
    pub(crate) fn count(&self) -> u16
        ensures { result ≡ length (filter (λ flag. flag) self.now.flags) }
    {
        self.count
    }

    /// Returns whether a block is free and is part of no larger free block.
    pub(crate) fn is_free_block(&self, order: usize, first: usize) -> bool
        requires { order < 10 }
        ensures { IsTrue result ↔ IsMaximalBlock self.now.flags order first }
    {
        self.lists.head(first) as usize == order + 1
    }

    /// Takes a block of order `order`, and returns its first granule, or `None` if no such block is free. The block is
    /// cut out of the first block in the nonempty free list of the smallest order that suffices. Returns the number of
    /// orders visited, too.
    pub(crate) fn take(&mut self, order: usize) -> Option<(usize, u8)>
        requires { order < 10 }
        ensures first { option_map (λ r. r.0) result ≡ first_block self.old.lists order }
        ensures block { IfSome result (λ r. IsFreeBlock self.old.flags order r.0) }
        ensures taken { IfSome result (λ r. self.new.flags ≡ with_taken self.old.flags order r.0) }
        ensures turns { IfSome result (λ r. TurnsUp self.old.flags order r.0 r.1) }
        ensures smallest { IfSome result (λ r. (larger start : ℕ) → order ≤ larger
            → IsMaximalBlock self.old.flags larger start → r.1 + order ≤ larger + 1) }
        ensures none { IfNone result ((first : ℕ) → ¬ (IsFreeBlock self.old.flags order first)) }
        ensures unchanged { IfNone result (self.new ≡ self.old) }
    {
        let (found, first) = self.lists.lowest(order)?;
        let (_cut, turns) = cut_out(&mut self.lists, first, order, found);
        self.count -= size_of(order);
        Some((first, turns))
    }

    /// Takes the block of order `order` at granule `first` if it is free, and returns whether it was. Returns the
    /// number of orders visited, too.
    pub(crate) fn take_at(&mut self, order: usize, first: usize) -> (bool, u8)
        requires order { order < 10 }
        requires first { first < 4096 }
        ensures answer { IsTrue result.0 ↔ IsFreeBlock self.old.flags order first }
        ensures taken { OnTrue result.0 (self.new.flags ≡ with_taken self.old.flags order first) }
        ensures unchanged { OnFalse result.0 (self.new ≡ self.old) }
        ensures turns { first % 2 ^ order ≡ 0 → result.1 + order ≡ 10 }
        ensures slanted { first % 2 ^ order ≢ 0 → result.1 ≡ 0 }
    {
        if start_of(first, order) != first {
            return (false, 0);
        }
        let (taken, turns) = cut_out(&mut self.lists, first, order, 9);
        if taken {
            self.count -= size_of(order);
        }
        (taken, turns)
    }

    /// Marks the granules of a taken block as free. Returns the number of orders visited.
    pub(crate) fn give(&mut self, first: usize, order: usize) -> u8
        requires order { order < 10 }
        requires block { IsTakenBlock self.old.flags order first }
        ensures given { self.new.flags ≡ with_given self.old.flags order first }
        ensures turns { TurnsUp self.new.flags order first result }
    {
        let turns = give_to(&mut self.lists, first, order);
        self.count += size_of(order);
        turns
    }
}
