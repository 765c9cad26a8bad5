//! The free list of each block order, with a bit mask that says which lists have a block.
ghost use Rattle.std.specs.Prelude.{◌≡◌, ℕ, ◌+◌, ◌<◌, ◌≤◌, ◌≢◌, length, replicate, slice_set, IfOk, IfSome, IfNone};
ghost use Rattle.buddy.specs.Heads.{head_at};
ghost use Rattle.buddy.specs.Links.{HasHead, at};

use crate::links::Links;
use std::alloc::{AllocError, Global};
use std::marker::Model;

/// The lists of free blocks, one for each block order. A mask has a bit set for each order whose list has a block. The
/// view is the table of heads, and the first block of each list. The head of a granule is one more than the order of
/// the block that it heads, or 0 if it heads none.
#[derive(Drop)]
pub(crate) struct FreeLists {
    links: Links,
    mask: u16,
}

impl Model for FreeLists {
    ghost use Rattle.buddy.specs.FirstBlock.{ListsView};
    ghost use Rattle.buddy.specs.Links.{IsMask};

    ghost Value = { ListsView };

    ghost view = { λ l. l.links };

    ghost invariant = { λ l. IsMask l.mask l.links.heads };
}

impl FreeLists {
    /// Creates an empty free list for each order, for a machine of `count` granules.
    pub(crate) fn build(alloc: Global, count: usize) -> Result<FreeLists, AllocError>
        requires { count ≤ 4096 }
        ensures { IfOk result (λ lists. lists.heads ≡ replicate count 0) }
    {
        let links = Links::build(alloc, count)?;
        Ok(FreeLists { links, mask: 0 })
    }

    /// Returns one more than the order of the listed block that begins at the granule, or 0 if none does.
    pub(crate) fn head(&self, granule: usize) -> u8
        ensures { result ≡ head_at self.now.heads granule }
    {
        self.links.head(granule)
    }

    /// Returns the lowest order from `order` on that has a listed block, and the first block of its list. Returns
    /// `None` if there is no such order.
    pub(crate) fn lowest(&self, order: usize) -> Option<(usize, usize)>
        requires { order < 10 }
        ensures first { IfSome result (λ r. r.1 ≡ at self.now.firsts r.0) }
        ensures head { IfSome result (λ r. head_at self.now.heads r.1 ≡ r.0 + 1) }
        ensures from { IfSome result (λ r. order ≤ r.0) }
        ensures lowest { IfSome result (λ r. (k : ℕ) → order ≤ k → k < r.0 → ¬ (HasHead self.now.heads k)) }
        ensures none { IfNone result ((k : ℕ) → order ≤ k → k < 10 → ¬ (HasHead self.now.heads k)) }
    {
        let above = self.mask >> order;
        if above == 0 {
            return None;
        }
        let found = order + above.trailing_zeros() as usize;
        let first = self.links.first(found)?;
        Some((found, first))
    }

    /// Puts a block at the front of the list of its order.
    pub(crate) fn put(&mut self, granule: usize, order: usize)
        requires order { order < 10 }
        requires inside { granule < length self.old.heads }
        requires no_head { head_at self.old.heads granule ≡ 0 }
        ensures heads { self.new.heads ≡ slice_set self.old.heads granule (order + 1) }
        ensures firsts { self.new.firsts ≡ slice_set self.old.firsts order granule }
    {
        self.links.put(granule, order);
        self.mask |= 1 << order;
    }

    /// Takes a block out of the free list of its order.
    pub(crate) fn take_out(&mut self, granule: usize, order: usize)
        requires order { order < 10 }
        requires head { head_at self.old.heads granule ≡ order + 1 }
        ensures { self.new.heads ≡ slice_set self.old.heads granule 0 }
    {
        self.links.take_out(granule, order);
        if self.links.first(order).is_none() {
            self.mask &= !(1 << order);
        }
    }
}
