//! The table with the state and the realm of each granule of a machine.
ghost use Rattle.std.specs.Prelude.{◌≡◌, ◌<◌, ◌≤◌, ◌↔◌, length, replicate, IsTrue, IfOk, slice_set};
ghost use Rattle.std.specs.Bool.{OnTrue, OnFalse};
ghost use Rattle.rtt.specs.Granules.{granule_at, undelegated};

use crate::Granule;
use granule_addr::Gran;
use realm_model::GranuleState;
use std::alloc::{AllocError, Global};
use std::marker::Model;

/// The state and the realm of each granule of a machine.
#[derive(Drop)]
pub struct GranuleTable {
    granules: Vec<Granule>,
}

impl Model for GranuleTable {
    ghost use Rattle.std.specs.Prelude.{List, ◌≤◌, length};
    ghost use Rattle.rtt.specs.declared.granule.Granule.{Granule};

    ghost Value = { List Granule };

    ghost view = { λ table. table.granules.items };

    ghost invariant = { λ table.
        (1 ≤ length table.granules.items) × (length table.granules.items ≤ 4096) };
}

impl GranuleTable {
    /// Creates the granule table of a machine with `pages` pages. Each granule is UNDELEGATED and of no realm.
    pub fn build(alloc: Global, pages: u16) -> Result<GranuleTable, AllocError>
        requires some { 1 ≤ pages }
        requires few { pages ≤ 4096 }
        ensures { IfOk result (λ table. table ≡ replicate pages undelegated) }
    {
        let granules = vec![in alloc; Granule::UNDELEGATED; pages as usize]?;
        Ok(GranuleTable { granules })
    }

    /// Returns the number of granules in the table.
    pub fn pages(&self) -> u16
        ensures value { result ≡ length self.now }
        ensures some { 1 ≤ result }
        ensures few { result ≤ 4096 }
    {
        self.granules.len() as u16
    }

    /// Returns the state of a granule.
    pub fn state(&self, granule: Gran) -> GranuleState
        requires { granule < length self.now }
        ensures { result ≡ (granule_at self.now granule).state }
    {
        self.granules[granule.number() as usize].state
    }

    /// Returns the RD of the realm that a granule belongs to, if any.
    pub fn realm_of(&self, granule: Gran) -> Option<Gran>
        requires { granule < length self.now }
        ensures { result ≡ (granule_at self.now granule).realm }
    {
        self.granules[granule.number() as usize].realm
    }

    /// Moves a granule from the state `from` to the state `to`. The granule then belongs to the given realm, or to
    /// none. If its state is not `from`, the function changes nothing and returns `false`.
    pub fn shift(
        &mut self,
        granule: Gran,
        from: GranuleState,
        to: GranuleState,
        realm: Option<Gran>,
    ) -> bool
        requires { granule < length self.old }
        ensures answer { IsTrue result ↔ ((granule_at self.old granule).state ≡ from) }
        ensures shifted { OnTrue result
            (self.new ≡ slice_set self.old granule (record { state = to; realm = realm })) }
        ensures unchanged { OnFalse result (self.new ≡ self.old) }
    {
        let kept = &mut self.granules[granule.number() as usize];
        if kept.state != from {
            return false;
        }
        *kept = Granule { state: to, realm };
        true
    }
}
