//! A type that keeps all pages of a machine in one allocation.
ghost use Rattle.std.specs.Prelude.{◌≡◌, ◌≢◌, ◌+◌, ◌<◌, ◌≤◌, ◌↔◌, ◌⊎◌, length, replicate, get_or, slice_set, IfOk, IsErrOf};
ghost use Rattle.std.specs.Borrow.{sem};
ghost use Rattle.granule_addr.specs.Page.{page_of, zero_page};
ghost use Rattle.page_arena.specs.Page.{page_at};
ghost use Rattle.page_arena.specs.Block.{with_run};
ghost use Rattle.page_arena.specs.Slots.{pages_in};
ghost use Rattle.page_arena.specs.Whole.{IsWhole};

use crate::BuildError;
use crate::row::{Row, Start, allocate, release};
use crate::slots::Slots;
use granule_addr::MOST_PAGES;
use std::alloc::{AllocError, Global};
use std::marker::Model;

/// All pages of a machine, in one allocation. Each page's 4,096 bytes are in its own slot, or in slot 0, which has
/// zeros and is shared. The slots in use are at the start of the allocation, and the memory after them is not written
/// yet. The allocation is freed on drop.
pub struct RawPages {
    start: Start<[u8; 4096]>,
    slots: Slots,
    row: Row<[u8; 4096], Global>,
    alloc: Global,
}

impl Model for RawPages {
    ghost use Rattle.std.specs.Prelude.{List, ℕ};
    ghost use Rattle.page_arena.specs.Slots.{pages_in};
    ghost use Rattle.page_arena.specs.Whole.{IsWhole};

    ghost Value = { List (List ℕ) };

    ghost view = { λ p. pages_in p.row.items p.slots.of.items };

    ghost invariant = { λ p. IsWhole p.start.first p.row.at p.slots.of.items p.slots.used p.row.room p.row.items p.alloc p.row.alloc };
}

impl RawPages {
    ghost use Rattle.page_arena.specs.LendsPage.{lends_page};

    /// Creates `pages` pages whose bytes are all zero. The error is `BadSize` exactly if `pages` is not 1 to 4,096; the
    /// only other error is `Memory`.
    pub fn build(alloc: Global, pages: u16) -> Result<RawPages, BuildError>
        ensures bad_size { IsErrOf result BuildError.BadSize ↔ ((pages < 1) ⊎ (4096 < pages)) }
        ensures zero { IfOk result (λ raw. raw ≡ replicate pages zero_page) }
    {
        if pages < 1 || pages > MOST_PAGES {
            return Err(BuildError::BadSize);
        }
        Ok(zero_pages(alloc, pages as usize).map_err(BuildError::Memory)?)
    }

    pub fn count(&self) -> u16
        ensures count { result ≡ length self.now }
        ensures some { 1 ≤ result }
        ensures few { result ≤ 4096 }
    {
        self.slots.count() as u16
    }

    /// Returns a reference to the bytes of a page.
    pub fn page(&self, index: usize) -> &[u8; 4096]
        requires { index < length self.now }
        ensures { result.now ≡ page_at self.now index }
    {
        self.row.get(self.start, self.slots.slot(index))
    }

    /// Returns a mutable reference to the bytes of a page.
    pub fn page_mut(&mut self, index: usize) -> &mut [u8; 4096]
        requires { index < length self.old }
        ensures* writes_back { sem 𝓛 (lends_page self.entry index result) }
        ensures value { result.now ≡ page_at self.old index }
    {
        let slot = own_slot(&mut self.slots, &mut self.row, self.start, index);
        self.row.get_mut(self.start, slot)
    }

    /// Writes one value to every byte of a page. A page that was never written is not cleared first, and zeros are not
    /// written to it at all.
    pub fn fill(&mut self, index: usize, value: u8)
        requires { index < length self.old }
        ensures { self.new ≡ slice_set self.old index (page_of value) }
    {
        let slot = self.slots.slot(index);
        if slot != 0 {
            self.row.put(self.start, slot, [value; 4096]);
        } else if value != 0 {
            let next = self.slots.own(index);
            self.row.put(self.start, next, [value; 4096]);
        }
    }

    /// Copies the bytes of one page to another.
    pub fn copy(&mut self, target: usize, source: usize)
        requires target { target < length self.old }
        requires source { source < length self.old }
        requires different { target ≢ source }
        ensures { self.new ≡ slice_set self.old target (page_at self.old source) }
    {
        let slot = own_slot(&mut self.slots, &mut self.row, self.start, target);
        let (read, written) = self.row.two(self.start, self.slots.slot(source), slot);
        *written = *read;
    }

    /// Sets all bytes of the `count` pages from `first` on to zero. Nothing is written to a page that was never
    /// written.
    pub fn clear(&mut self, first: usize, count: usize)
        requires { first + count ≤ length self.old }
        ensures { self.new ≡ with_run self.old first count zero_page }
    {
        let _ = &self.slots;
        for i in first..first + count {
            clear_page(&self.slots, &mut self.row, self.start, i);
        }
    }
}

// `pages` pages of zeros. They use one slot: the zeros that all pages share.
fn zero_pages(alloc: Global, pages: usize) -> Result<RawPages, AllocError>
    requires some { 1 ≤ pages }
    requires few { pages ≤ 4096 }
    ensures { IfOk result (λ raw. raw ≡ replicate pages zero_page) }
{
    let slots = Slots::build(alloc, pages)?;
    let (start, mut row) = allocate(&alloc, pages + 1)?;
    row.put(start, 0, [0; 4096]);
    Ok(RawPages {
        start,
        slots,
        row,
        alloc,
    })
}

// Returns a page's own slot. A page without one gets the next slot, with zeros.
fn own_slot(
    slots: &mut Slots,
    row: &mut Row<[u8; 4096], Global>,
    start: Start<[u8; 4096]>,
    index: usize,
) -> usize
    requires whole { IsWhole start.first row.old.at slots.old.of.items slots.old.used row.old.room row.old.items row.old.alloc row.old.alloc }
    requires inside { index < length slots.old.of.items }
    ensures whole { IsWhole start.first row.new.at slots.new.of.items slots.new.used row.new.room row.new.items row.old.alloc row.new.alloc }
    ensures pages { pages_in row.new.items slots.new.of.items ≡ pages_in row.old.items slots.old.of.items }
    ensures count { length slots.new.of.items ≡ length slots.old.of.items }
    ensures slot { result ≡ get_or slots.new.of.items index 0 }
    ensures own { 1 ≤ result }
{
    let slot = slots.slot(index);
    if slot != 0 {
        return slot;
    }
    let next = slots.own(index);
    row.put(start, next, [0; 4096]);
    next
}

// Writes zeros to a page. One that was never written is zero already.
fn clear_page(
    slots: &Slots,
    row: &mut Row<[u8; 4096], Global>,
    start: Start<[u8; 4096]>,
    index: usize,
)
    requires whole { IsWhole start.first row.old.at slots.now.of.items slots.now.used row.old.room row.old.items row.old.alloc row.old.alloc }
    requires inside { index < length slots.now.of.items }
    ensures whole { IsWhole start.first row.new.at slots.now.of.items slots.now.used row.new.room row.new.items row.old.alloc row.new.alloc }
    ensures pages { pages_in row.new.items slots.now.of.items ≡ slice_set (pages_in row.old.items slots.now.of.items) index zero_page }
{
    let slot = slots.slot(index);
    if slot == 0 {
        return;
    }
    row.put(start, slot, [0; 4096]);
}

impl Drop for RawPages {
    fn drop(self) {
        let RawPages {
            start,
            slots,
            row,
            alloc,
        } = self;
        release(&alloc, start, slots.count() + 1, row);
    }
}
