//! The trait for page stores, and the reasons why a store cannot be created.
ghost use Rattle.std.specs.Prelude.{◌≡◌, ◌≢◌, ℕ, ◌+◌, ◌^◌, ◌<◌, ◌≤◌, ◌↔◌, Bool, true, false, List, length, filter, Option, IsTrue, IfSome, IfNone, slice_set};
ghost use Rattle.std.specs.Bool.{OnTrue, OnFalse};
ghost use Rattle.granule_addr.specs.Page.{page_of, zero_page};
ghost use Rattle.page_arena.specs.Page.{page_at, is_free, with_byte, IsSized};
ghost use Rattle.page_arena.specs.Block.{IsFreeBlock, IsTakenBlock, with_run, with_taken, with_given};
ghost use Rattle.page_arena.specs.Word.{word_at, with_bytes, with_word, bytes_of_words, rising_word};

use granule_addr::{Gran, Order, PageOff};
use std::alloc::AllocError;
use thiserror::Error;

/// The trait for stores of a machine's pages. A store has the 4,096 bytes of each page, and the set of free pages. RMM
/// 1.0, Granule.
///
/// A block of order k is 2^k pages from a multiple of 2^k on. No call takes memory, and none fails.
pub trait PageStore {
    /// The bytes of each page, which are the model of the store's contents.
    ghost page_bytes: { Self → List (List ℕ) };

    /// One flag for each page, which is `true` if the page is free.
    ghost free_flags: { Self → List Bool };

    /// The free block that the store takes next, for each order. It is `None` if there is no free block of the order.
    ghost choice: { Self → ℕ → Option ℕ };

    /// Returns the number of pages of the store.
    fn pages(&self) -> u16
        ensures { result ≡ length (page_bytes self.now) };

    /// Returns the number of free pages of the store.
    fn free_count(&self) -> u16
        ensures { result ≡ length (filter (λ flag. flag) (free_flags self.now)) };

    /// Chooses and takes a free block of the given order, and returns the block's first granule. Returns `None` if and
    /// only if no block of the order is free.
    fn take(&mut self, order: Order) -> Option<Gran>
        ensures first { result ≡ choice self.old order }
        ensures block { IfSome result (IsFreeBlock (free_flags self.old) order) }
        ensures taken { IfSome result (λ first.
            free_flags self.new ≡ with_taken (free_flags self.old) order first) }
        ensures none { IfNone result ((first : ℕ) →
            ¬ (IsFreeBlock (free_flags self.old) order first)) }
        ensures unchanged { IfNone result (free_flags self.new ≡ free_flags self.old) }
        ensures bytes { page_bytes self.new ≡ page_bytes self.old };

    /// Takes the block of the given order at granule `first`, if the block is free. Returns `false`, and changes
    /// nothing, exactly if the block is not aligned, not inside the machine, or not free.
    fn take_at(&mut self, order: Order, first: Gran) -> bool
        ensures answer { IsTrue result ↔ IsFreeBlock (free_flags self.old) order first }
        ensures taken { OnTrue result
            (free_flags self.new ≡ with_taken (free_flags self.old) order first) }
        ensures unchanged { OnFalse result (free_flags self.new ≡ free_flags self.old) }
        ensures bytes { page_bytes self.new ≡ page_bytes self.old };

    /// Gives a block of pages back to the store. Its pages are zero and free from now on.
    fn give(&mut self, first: Gran, order: Order)
        requires { IsTakenBlock (free_flags self.old) order first }
        ensures given { free_flags self.new ≡ with_given (free_flags self.old) order first }
        ensures cleared { page_bytes self.new
            ≡ with_run (page_bytes self.old) first (2 ^ order) zero_page };

    /// Returns the 4,096 bytes of a page.
    fn bytes(&self, granule: Gran) -> &[u8]
        requires { granule < length (page_bytes self.now) }
        ensures value { result.now ≡ page_at (page_bytes self.now) granule }
        ensures count { length result.now ≡ 4096 };

    /// Writes one value to each byte of a page.
    fn fill(&mut self, granule: Gran, value: u8)
        requires inside { granule < length (page_bytes self.old) }
        requires taken { is_free (free_flags self.old) granule ≡ false }
        ensures filled { page_bytes self.new
            ≡ slice_set (page_bytes self.old) granule (page_of value) }
        ensures flags { free_flags self.new ≡ free_flags self.old };

    /// Writes one byte of a page.
    fn set(&mut self, granule: Gran, offset: PageOff, value: u8)
        requires inside { granule < length (page_bytes self.old) }
        requires taken { is_free (free_flags self.old) granule ≡ false }
        ensures written { page_bytes self.new ≡ with_byte (page_bytes self.old) granule offset value }
        ensures flags { free_flags self.new ≡ free_flags self.old };

    /// Copies the bytes of one page to another. The source may be free.
    fn copy(&mut self, target: Gran, source: Gran)
        requires inside { target < length (page_bytes self.old) }
        requires source_inside { source < length (page_bytes self.old) }
        requires taken { is_free (free_flags self.old) target ≡ false }
        requires different { target ≢ source }
        ensures copied { page_bytes self.new
            ≡ slice_set (page_bytes self.old) target (page_at (page_bytes self.old) source) }
        ensures flags { free_flags self.new ≡ free_flags self.old };

    /// Returns the 64-bit word at `index` in a page, little-endian.
    fn word(&self, granule: Gran, index: u16) -> u64
        requires inside { granule < length (page_bytes self.now) }
        requires index { index < 512 }
        ensures { result ≡ word_at (page_bytes self.now) granule index };

    /// Writes the 64-bit word at `index` in a page, little-endian.
    fn set_word(&mut self, granule: Gran, index: u16, word: u64)
        requires inside { granule < length (page_bytes self.old) }
        requires taken { is_free (free_flags self.old) granule ≡ false }
        requires index { index < 512 }
        ensures written { page_bytes self.new ≡ with_word (page_bytes self.old) granule index word }
        ensures flags { free_flags self.new ≡ free_flags self.old };

    /// Writes bytes into a page, from an offset on.
    fn write(&mut self, granule: Gran, offset: u16, bytes: &[u8])
        requires inside { granule < length (page_bytes self.old) }
        requires taken { is_free (free_flags self.old) granule ≡ false }
        requires fits { offset + length bytes.now ≤ 4096 }
        ensures written { page_bytes self.new
            ≡ slice_set (page_bytes self.old) granule (with_bytes (page_at (page_bytes self.old) granule) offset bytes.now) }
        ensures flags { free_flags self.new ≡ free_flags self.old };

    /// Fills a page with 512 words that rise by `step` modulo 2^48.
    ///
    /// Word k, counted from 0, is `kind + (first + k * step) % 2^48`.
    fn write_rising(&mut self, granule: Gran, kind: u64, first: u64, step: u64)
        requires inside { granule < length (page_bytes self.old) }
        requires taken { is_free (free_flags self.old) granule ≡ false }
        requires kind { kind ≤ 2 ^ 60 }
        requires first { first < 2 ^ 48 }
        requires step { step ≤ 2 ^ 39 }
        ensures written { page_bytes self.new
            ≡ slice_set (page_bytes self.old) granule (bytes_of_words 512 (rising_word kind first step)) }
        ensures flags { free_flags self.new ≡ free_flags self.old };

    /// The fact that a store has 1 to 4,096 pages, each with 4,096 bytes and a flag.
    ghost sized: { (store : Self) → IsSized (page_bytes store) (free_flags store) };
}

/// The reason why a page store cannot be created. It is a size other than 1 to 4,096 pages, or a failed allocation.
#[derive(Clone, Copy, Debug, Error)]
pub enum BuildError {
    #[error("a machine has 1 to 4096 pages")]
    BadSize,
    #[error("out of memory")]
    Memory(#[from(alloc)] AllocError),
}
