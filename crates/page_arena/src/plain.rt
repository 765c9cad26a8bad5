//! A simple page store, which finds a free block by a linear scan.
ghost use Rattle.std.specs.Prelude.{◌≡◌, ◌↔◌, ◌<◌, ◌⊎◌, true, replicate, IfOk, IsErrOf};
ghost use Rattle.granule_addr.specs.Page.{zero_page};
ghost use Rattle.page_arena.specs.Page.{IsSized};
ghost use Rattle.page_arena.specs.LowestBlock.{lowest_block};

mod flags;
mod pages;

use crate::words::{set_word_in, word_in, write_in, write_rising_in};
use crate::{BuildError, PageStore};
use flags::{find_block, is_run_free, set_run};
use granule_addr::{Gran, MOST_PAGES, Order, PageOff};
use pages::{clear_run, copy_page, fill_page, zero_pages};
use std::alloc::Global;

/// A page store that takes the lowest free block of the requested order. It has a vector of the pages, and a vector of
/// flags that are `true` for the free pages.
#[derive(Drop)]
pub struct PlainStore {
    pages: Vec<[u8; 4096]>,
    free: Vec<bool>,
    ghost sized: { IsSized pages.items free.items },
}

impl PlainStore {
    /// Creates a store of `pages` pages, all free and filled with zeros. The error is `BadSize` exactly if `pages` is
    /// not 1 to 4,096; the only other error is `Memory`.
    pub fn build(alloc: Global, pages: u16) -> Result<PlainStore, BuildError>
        ensures bad_size { IsErrOf result BuildError.BadSize ↔ ((pages < 1) ⊎ (4096 < pages)) }
        ensures zero { IfOk result (λ store.
            ⟦<PlainStore as PageStore>⟧.page_bytes store ≡ replicate pages zero_page) }
        ensures free { IfOk result (λ store.
            ⟦<PlainStore as PageStore>⟧.free_flags store ≡ replicate pages true) }
    {
        if pages < 1 || pages > MOST_PAGES {
            return Err(BuildError::BadSize);
        }
        let count = pages as usize;
        let pages = zero_pages(alloc, count).map_err(BuildError::Memory)?;
        let free = vec![in alloc; true; count].map_err(BuildError::Memory)?;
        Ok(PlainStore { pages, free })
    }
}

impl PageStore for PlainStore {
    ghost page_bytes = { λ store. store.pages.items };

    ghost free_flags = { λ store. store.free.items };

    ghost choice = { λ store order. lowest_block store.free.items order };

    fn pages(&self) -> u16 {
        self.pages.len() as u16
    }

    fn free_count(&self) -> u16 {
        self.free.iter().filter(|flag| **flag).count() as u16
    }

    fn take(&mut self, order: Order) -> Option<Gran> {
        let size = order.size() as usize;
        let first = find_block(&self.free, size)?;
        set_run(&mut self.free, first, size, false);
        Gran::new(first as u16, MOST_PAGES)
    }

    fn take_at(&mut self, order: Order, first: Gran) -> bool {
        let size = order.size() as usize;
        let first = first.number() as usize;
        let is_block = first % size == 0
            && first + size <= self.free.len()
            && is_run_free(&self.free, first, size);
        if is_block {
            set_run(&mut self.free, first, size, false);
        }
        is_block
    }

    fn give(&mut self, first: Gran, order: Order) {
        let size = order.size() as usize;
        let first = first.number() as usize;
        clear_run(&mut self.pages, first, size);
        set_run(&mut self.free, first, size, true);
    }

    fn bytes(&self, granule: Gran) -> &[u8] {
        &self.pages[granule.number() as usize]
    }

    fn fill(&mut self, granule: Gran, value: u8) {
        fill_page(&mut self.pages, granule.number() as usize, value);
    }

    fn set(&mut self, granule: Gran, offset: PageOff, value: u8) {
        self.pages[granule.number() as usize][offset.number() as usize] = value;
    }

    fn copy(&mut self, target: Gran, source: Gran) {
        copy_page(
            &mut self.pages,
            target.number() as usize,
            source.number() as usize,
        );
    }

    fn word(&self, granule: Gran, index: u16) -> u64 {
        word_in(&self.pages[granule.number() as usize], index as usize)
    }

    fn set_word(&mut self, granule: Gran, index: u16, word: u64) {
        let page = &mut self.pages[granule.number() as usize];
        set_word_in(page, index as usize, word);
    }

    fn write(&mut self, granule: Gran, offset: u16, bytes: &[u8]) {
        let page = &mut self.pages[granule.number() as usize];
        write_in(page, offset as usize, bytes);
    }

    fn write_rising(&mut self, granule: Gran, kind: u64, first: u64, step: u64) {
        let page = &mut self.pages[granule.number() as usize];
        write_rising_in(page, kind, first, step);
    }

    ghost sized = { λ store. store.sized };
}
