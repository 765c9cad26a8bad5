//! Slots, which are the parts of memory that hold the bytes of pages.
ghost use Rattle.std.specs.Prelude.{◌≡◌, ◌+◌, ◌<◌, ◌≤◌, length, replicate, get_or, set, IfOk};
ghost use Rattle.page_arena.specs.Slots.{IsSlots};

use std::alloc::{AllocError, Global};

/// A table that gives, for each page, the slot of memory that holds its bytes. All pages that were never written share
/// slot 0, which has zeros. A page gets the next unused slot when it is first written.
#[derive(Drop)]
pub(crate) struct Slots {
    of: Vec<u16>,
    used: u16,
    ghost own: { IsSlots of.items used },
}

impl Slots {
    /// Creates the table of slots for `pages` pages that were never written.
    pub(crate) fn build(alloc: Global, pages: usize) -> Result<Slots, AllocError>
        ensures { IfOk result (λ slots. (slots.of.items ≡ replicate pages 0) × (slots.used ≡ 1)) }
    {
        Ok(Slots {
            of: vec![in alloc; 0; pages]?,
            used: 1,
        })
    }

    /// Returns the number of pages in the table of slots.
    pub(crate) fn count(&self) -> usize
        ensures { result ≡ length self.now.of.items }
    {
        self.of.len()
    }

    /// Returns the slot that holds the bytes of a page.
    pub(crate) fn slot(&self, page: usize) -> usize
        requires { page < length self.now.of.items }
        ensures { result ≡ get_or self.now.of.items page 0 }
    {
        self.of[page] as usize
    }

    /// Gives the next unused slot to a page that shares slot 0, and returns the slot. There is a slot for each page.
    pub(crate) fn own(&mut self, page: usize) -> usize
        requires inside { page < length self.old.of.items }
        requires shared { get_or self.old.of.items page 0 ≡ 0 }
        requires few { length self.old.of.items ≤ 4096 }
        ensures slot { result ≡ self.old.used }
        ensures room { result ≤ length self.old.of.items }
        ensures of { self.new.of.items ≡ set self.old.of.items page self.old.used }
        ensures used { self.new.used ≡ self.old.used + 1 }
    {
        let slot = self.used;
        self.of[page] = slot;
        self.used += 1;
        slot as usize
    }
}
