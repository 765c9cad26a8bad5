//! A table of a machine's granules with the builds that lease them. The holder of a granule is the build that leases
//! the granule.
ghost use Rattle.std.specs.Prelude.{◌≡◌, ◌+◌, ◌^◌, ◌≤◌, length, replicate, Some, None, IfOk, slice_index_or};
ghost use Rattle.std.specs.List.{range_with_len};
ghost use Rattle.realm_model.specs.StepLaw.{set_each};
ghost use Rattle.realm_model.specs.World.{is_leased_to};

use granule_addr::{BuildId, Gran, Order};
use std::alloc::{AllocError, Global};
use std::marker::Model;

/// A table that maps granules to the builds that lease them. The index is a granule's number. The entry of a granule
/// that no build leases is `None`.
#[derive(Drop)]
pub struct Holders {
    of: Vec<Option<BuildId>>,
}

impl Model for Holders {
    ghost use Rattle.std.specs.Prelude.{ℕ, List, Option};

    ghost Value = { List (Option ℕ) };

    ghost view = { λ holders. holders.of.items };
}

impl Holders {
    /// Creates the table for `pages` granules, none of which is leased.
    pub fn build(alloc: Global, pages: u16) -> Result<Holders, AllocError>
        ensures { IfOk result (λ holders. holders ≡ replicate pages None) }
    {
        Ok(Holders {
            of: vec![in alloc; None; pages as usize]?,
        })
    }

    /// Leases the granules of a block to the build.
    pub fn lease(&mut self, build: BuildId, first: Gran, order: Order)
        requires { first + 2 ^ order ≤ length self.old }
        ensures { self.new ≡ set_each (Some build) (range_with_len first (2 ^ order)) self.old }
    {
        self.set_run(first.number(), order.size(), Some(build));
    }

    /// Ends the lease of a block's granules.
    pub fn give_back(&mut self, first: Gran, order: Order)
        requires { first + 2 ^ order ≤ length self.old }
        ensures { self.new ≡ set_each None (range_with_len first (2 ^ order)) self.old }
    {
        self.set_run(first.number(), order.size(), None);
    }

    /// Returns whether the build leases the granule. It does not if the machine has no such granule.
    pub fn is_held_by(&self, granule: Gran, build: BuildId) -> bool
        ensures { result ≡ is_leased_to (Some build) self.now granule }
    {
        matches!(self.of.get(granule.number() as usize), Some(Some(holder)) if *holder == build)
    }

    /// Returns the build that leases the granule, or `None` if none does. The result is also `None` if the machine has
    /// no such granule.
    pub fn holder(&self, granule: Gran) -> Option<BuildId>
        ensures { result ≡ slice_index_or self.now granule None }
    {
        self.of.get(granule.number() as usize).copied().flatten()
    }

    // Sets the lease of `count` granules from `first` on.
    fn set_run(&mut self, first: u16, count: u16, lease: Option<BuildId>)
        requires { first + count ≤ length self.old }
        ensures { self.new ≡ set_each lease (range_with_len first count) self.old }
    {
        let start = first as usize;
        self.of[start..start + count as usize].fill(lease);
    }
}
