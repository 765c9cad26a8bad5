//! A buddy allocator of 4 KiB pages, which also reads and writes the pages. It has a list of free blocks for each
//! order.
ghost use Rattle.std.specs.Prelude.{◌≡◌, ◌≢◌, ℕ, ◌+◌, ◌%◌, ◌^◌, ◌<◌, ◌≤◌, ◌↔◌, ◌⊎◌, true, false, length, filter, replicate, slice_set, IsTrue, IfOk, IfSome, IfNone, IsErrOf};
ghost use Rattle.std.specs.Bool.{OnTrue, OnFalse};
ghost use Rattle.granule_addr.specs.Page.{page_of, zero_page};
ghost use Rattle.page_arena.specs.Page.{page_at, is_free, with_byte, IsSized};
ghost use Rattle.page_arena.specs.Block.{IsFreeBlock, IsTakenBlock, with_run, with_taken, with_given};
ghost use Rattle.page_arena.specs.Word.{with_bytes, with_word, bytes_of_words, rising_word};
ghost use Rattle.buddy.specs.FirstBlock.{first_block};
ghost use Rattle.buddy.specs.MaximalBlock.{IsMaximalBlock, TurnsUp};

use crate::index::FreeIndex;
use granule_addr::{Gran, MOST_PAGES, Order, PageOff};
use page_arena::{
    BuildError, PageStore, RawPages, set_word_in, word_in, write_in, write_rising_in,
};
use std::alloc::Global;

/// A buddy allocator whose pages are in one allocation of memory. It has a list of free blocks for each order. The
/// lists have the maximal free blocks, and no call searches a list.
pub struct BuddyArena {
    pages: RawPages,
    index: FreeIndex,
    visits: u8,
    ghost sized: { IsSized pages index.flags },
}

impl Drop for BuddyArena {
    fn drop(self) {
        let BuddyArena {
            pages: _,
            index: _,
            visits: _,
        } = self;
    }
}

impl BuddyArena {
    /// Creates a buddy allocator of `pages` free pages, all filled with zeros. The error is `BadSize` exactly if
    /// `pages` is not 1 to 4,096; the only other error is `Memory`.
    pub fn build(alloc: Global, pages: u16) -> Result<BuddyArena, BuildError>
        ensures bad_size { IsErrOf result BuildError.BadSize ↔ ((pages < 1) ⊎ (4096 < pages)) }
        ensures zero { IfOk result (λ arena. ⟦<BuddyArena as PageStore>⟧.page_bytes arena ≡ replicate pages zero_page) }
        ensures free { IfOk result (λ arena. ⟦<BuddyArena as PageStore>⟧.free_flags arena ≡ replicate pages true) }
        ensures visits { IfOk result (λ arena. arena.visits ≡ 0) }
    {
        let raw = RawPages::build(alloc, pages)?;
        let index = FreeIndex::build(alloc, pages).map_err(BuildError::Memory)?;
        Ok(BuddyArena {
            pages: raw,
            index,
            visits: 0,
        })
    }

    /// Returns whether a block is free and is part of no larger free block. Such a block is a maximal free block.
    pub fn is_free_block(&self, order: Order, first: Gran) -> bool
        ensures { IsTrue result ↔
            IsMaximalBlock (⟦<BuddyArena as PageStore>⟧.free_flags self.now) order first }
    {
        self.index
            .is_free_block(order.number() as usize, first.number() as usize)
    }

    /// Returns the number of block orders that the last `take`, `take_at` or `give` visited. Each turn of the loop in
    /// these calls visits one order.
    pub fn visits(&self) -> u8
        ensures { result ≡ self.now.visits }
    {
        self.visits
    }
}

impl PageStore for BuddyArena {
    ghost page_bytes = { λ arena. arena.pages };

    ghost free_flags = { λ arena. arena.index.flags };

    ghost choice = { λ arena order. first_block arena.index.lists order };

    fn pages(&self) -> u16 {
        self.pages.count()
    }

    fn free_count(&self) -> u16 {
        self.index.count()
    }

    /// Takes a block of order `order`, and returns its first granule, or `None` if no such block is free. The block is
    /// cut out of the first block in the nonempty free list of the smallest order that suffices. Visits each order from
    /// that of the list down to `order`. If no list suffices, there are no visits.
    fn take(&mut self, order: Order) -> Option<Gran>
        ensures first { result ≡ first_block self.old.index.lists order }
        ensures block { IfSome result (IsFreeBlock self.old.index.flags order) }
        ensures taken { IfSome result (λ first. self.new.index.flags ≡ with_taken self.old.index.flags order first) }
        ensures none { IfNone result ((first : ℕ) → ¬ (IsFreeBlock self.old.index.flags order first)) }
        ensures unchanged { IfNone result (self.new.index ≡ self.old.index) }
        ensures bytes { self.new.pages ≡ self.old.pages }
        ensures visits { IfSome result (λ first. TurnsUp self.old.index.flags order first self.new.visits) }
        ensures smallest { IfSome result (λ _. (larger start : ℕ) → order ≤ larger
            → IsMaximalBlock self.old.index.flags larger start → self.new.visits + order ≤ larger + 1) }
        ensures refused { IfNone result (self.new.visits ≡ 0) }
    {
        self.visits = 0;
        let (first, turns) = self.index.take(order.number() as usize)?;
        self.visits = turns;
        Gran::new(first as u16, MOST_PAGES)
    }

    /// Takes the block of order `order` at granule `first` if it is free, and returns whether it was. Visits each order
    /// from 9 down to that of the block, whether the block is taken or not. If the block is not aligned, there are no
    /// visits.
    fn take_at(&mut self, order: Order, first: Gran) -> bool
        ensures answer { IsTrue result ↔ IsFreeBlock self.old.index.flags order first }
        ensures taken { OnTrue result (self.new.index.flags ≡ with_taken self.old.index.flags order first) }
        ensures unchanged { OnFalse result (self.new.index ≡ self.old.index) }
        ensures bytes { self.new.pages ≡ self.old.pages }
        ensures visits { first % 2 ^ order ≡ 0 → self.new.visits + order ≡ 10 }
        ensures slanted { first % 2 ^ order ≢ 0 → self.new.visits ≡ 0 }
    {
        let first = first.number() as usize;
        let (taken, visits) = self.index.take_at(order.number() as usize, first);
        self.visits = visits;
        taken
    }

    /// Frees a taken block, and fills its pages with zeros. Visits each order from that of the block up to that of the
    /// maximal free block that it becomes part of.
    fn give(&mut self, first: Gran, order: Order)
        requires { IsTakenBlock self.old.index.flags order first }
        ensures given { self.new.index.flags ≡ with_given self.old.index.flags order first }
        ensures cleared { self.new.pages ≡ with_run self.old.pages first (2 ^ order) zero_page }
        ensures visits { TurnsUp self.new.index.flags order first self.new.visits }
    {
        let first = first.number() as usize;
        self.pages.clear(first, order.size() as usize);
        self.visits = self.index.give(first, order.number() as usize);
    }

    fn bytes(&self, granule: Gran) -> &[u8] {
        self.pages.page(granule.number() as usize)
    }

    fn fill(&mut self, granule: Gran, value: u8)
        requires inside { granule < length self.old.pages }
        requires taken { is_free self.old.index.flags granule ≡ false }
        ensures filled { self.new.pages ≡ slice_set self.old.pages granule (page_of value) }
        ensures flags { self.new.index ≡ self.old.index }
        ensures visits { self.new.visits ≡ self.old.visits }
    {
        self.pages.fill(granule.number() as usize, value);
    }

    fn set(&mut self, granule: Gran, offset: PageOff, value: u8)
        requires inside { granule < length self.old.pages }
        requires taken { is_free self.old.index.flags granule ≡ false }
        ensures written { self.new.pages ≡ with_byte self.old.pages granule offset value }
        ensures flags { self.new.index ≡ self.old.index }
        ensures visits { self.new.visits ≡ self.old.visits }
    {
        let page = self.pages.page_mut(granule.number() as usize);
        page[offset.number() as usize] = value;
    }

    fn copy(&mut self, target: Gran, source: Gran)
        requires inside { target < length self.old.pages }
        requires source_inside { source < length self.old.pages }
        requires taken { is_free self.old.index.flags target ≡ false }
        requires different { target ≢ source }
        ensures copied { self.new.pages ≡ slice_set self.old.pages target (page_at self.old.pages source) }
        ensures flags { self.new.index ≡ self.old.index }
        ensures visits { self.new.visits ≡ self.old.visits }
    {
        let target = target.number() as usize;
        self.pages.copy(target, source.number() as usize);
    }

    fn word(&self, granule: Gran, index: u16) -> u64 {
        word_in(self.pages.page(granule.number() as usize), index as usize)
    }

    fn set_word(&mut self, granule: Gran, index: u16, word: u64)
        requires inside { granule < length self.old.pages }
        requires taken { is_free self.old.index.flags granule ≡ false }
        requires index { index < 512 }
        ensures written { self.new.pages ≡ with_word self.old.pages granule index word }
        ensures flags { self.new.index ≡ self.old.index }
        ensures visits { self.new.visits ≡ self.old.visits }
    {
        let page = self.pages.page_mut(granule.number() as usize);
        set_word_in(page, index as usize, word);
    }

    fn write(&mut self, granule: Gran, offset: u16, bytes: &[u8])
        requires inside { granule < length self.old.pages }
        requires taken { is_free self.old.index.flags granule ≡ false }
        requires fits { offset + length bytes.now ≤ 4096 }
        ensures written { self.new.pages
            ≡ slice_set self.old.pages granule (with_bytes (page_at self.old.pages granule) offset bytes.now) }
        ensures flags { self.new.index ≡ self.old.index }
        ensures visits { self.new.visits ≡ self.old.visits }
    {
        let page = self.pages.page_mut(granule.number() as usize);
        write_in(page, offset as usize, bytes);
    }

    fn write_rising(&mut self, granule: Gran, kind: u64, first: u64, step: u64)
        requires inside { granule < length self.old.pages }
        requires taken { is_free self.old.index.flags granule ≡ false }
        requires kind { kind ≤ 2 ^ 60 }
        requires first { first < 2 ^ 48 }
        requires step { step ≤ 2 ^ 39 }
        ensures written { self.new.pages
            ≡ slice_set self.old.pages granule (bytes_of_words 512 (rising_word kind first step)) }
        ensures flags { self.new.index ≡ self.old.index }
        ensures visits { self.new.visits ≡ self.old.visits }
    {
        let page = self.pages.page_mut(granule.number() as usize);
        write_rising_in(page, kind, first, step);
    }

    ghost sized = { λ arena. arena.sized };
}
