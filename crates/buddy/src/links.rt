//! The doubly linked lists of free blocks, one for each order.
ghost use Rattle.std.specs.Prelude.{◌≡◌, ℕ, ◌+◌, ◌<◌, ◌≤◌, length, replicate, slice_set, IfOk, IfSome, IfNone};
ghost use Rattle.buddy.specs.Heads.{head_at};
ghost use Rattle.buddy.specs.Links.{HasHead, at};

use granule_addr::MOST_PAGES;
use std::alloc::{AllocError, Global};
use std::marker::Model;

// The link that ends a list, a number that no granule has.
const NOWHERE: u16 = MOST_PAGES;

/// A doubly linked list of free blocks for each order. The links are kept outside the pages, because free pages are
/// zero. The view is the table of heads, and the first block of each list.
#[derive(Drop)]
pub(crate) struct Links {
    heads: Vec<u8>,
    next: Vec<u16>,
    prev: Vec<u16>,
    firsts: [u16; 10],
}

impl Model for Links {
    ghost use Rattle.std.specs.Prelude.{length};
    ghost use Rattle.buddy.specs.FirstBlock.{ListsView};
    ghost use Rattle.buddy.specs.Links.{IsLinked};

    ghost Value = { ListsView };

    ghost view = { λ l. record { heads = l.heads.items; firsts = l.firsts } };

    ghost invariant = { λ l. IsLinked (length l.heads.items) l.heads.items l.next.items l.prev.items l.firsts };
}

impl Links {
    /// Creates an empty free list for each order, for a machine of `count` granules.
    pub(crate) fn build(alloc: Global, count: usize) -> Result<Links, AllocError>
        requires { count ≤ 4096 }
        ensures { IfOk result (λ links. links.heads ≡ replicate count 0) }
    {
        let heads = vec![in alloc; 0u8; count]?;
        let next = vec![in alloc; NOWHERE; count]?;
        let prev = vec![in alloc; NOWHERE; count]?;
        Ok(Links {
            heads,
            next,
            prev,
            firsts: [NOWHERE; 10],
        })
    }

    /// Returns one more than the order of the listed block that begins at the granule, or 0 if none does.
    pub(crate) fn head(&self, granule: usize) -> u8
        ensures { result ≡ head_at self.now.heads granule }
    {
        if granule < self.heads.len() {
            self.heads[granule]
        } else {
            0
        }
    }

    /// Returns the first granule of the first block in an order's free list, or `None` if the list is empty.
    pub(crate) fn first(&self, order: usize) -> Option<usize>
        requires { order < 10 }
        ensures first { IfSome result (λ first. first ≡ at self.now.firsts order) }
        ensures head { IfSome result (λ first. head_at self.now.heads first ≡ order + 1) }
        ensures none { IfNone result (¬ (HasHead self.now.heads order)) }
    {
        let first = self.firsts[order] as usize;
        if first < self.heads.len() {
            Some(first)
        } else {
            None
        }
    }

    /// Puts a block, given by its first granule, at the front of an order's list.
    pub(crate) fn put(&mut self, granule: usize, order: usize)
        requires order { order < 10 }
        requires inside { granule < length self.old.heads }
        requires no_head { head_at self.old.heads granule ≡ 0 }
        ensures heads { self.new.heads ≡ slice_set self.old.heads granule (order + 1) }
        ensures firsts { self.new.firsts ≡ slice_set self.old.firsts order granule }
    {
        let first = self.firsts[order];
        self.heads[granule] = order as u8 + 1;
        self.next[granule] = first;
        self.prev[granule] = NOWHERE;
        self.firsts[order] = granule as u16;
        if (first as usize) < self.heads.len() {
            self.prev[first as usize] = granule as u16;
        }
    }

    /// Takes a block, given by its first granule, out of an order's list. The block's neighbours in the list are linked
    /// to each other.
    pub(crate) fn take_out(&mut self, granule: usize, order: usize)
        requires order { order < 10 }
        requires head { head_at self.old.heads granule ≡ order + 1 }
        ensures { self.new.heads ≡ slice_set self.old.heads granule 0 }
    {
        let next = self.next[granule];
        let prev = self.prev[granule];
        self.heads[granule] = 0;
        if (prev as usize) < self.heads.len() {
            self.next[prev as usize] = next;
        } else {
            self.firsts[order] = next;
        }
        if (next as usize) < self.heads.len() {
            self.prev[next as usize] = prev;
        }
    }
}
