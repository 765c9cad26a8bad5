//! A table that lists how many pages each build holds at boot or after a turn. Each entry has an index.
ghost use Rattle.std.specs.Prelude.{◌≡◌, IfOk, IfSome, OnOk, Some, slice_get};
ghost use Rattle.plan_states.specs.Turned.{AreWith};

use crate::question::PagesHeld;
use std::alloc::{AllocError, Global};
use std::collections::HashMap;

/// An indexed table of the numbers of pages that builds hold at boot and after turns. Each entry has the page counts of
/// all builds at one of these points.
pub(crate) struct Holdings {
    numbers: HashMap<PagesHeld, usize>,
    all: Vec<PagesHeld>,
}

impl Drop for Holdings {
    fn drop(self) {
        let Holdings { numbers: _, all: _ } = self;
    }
}

impl Holdings {
    /// Creates an empty table of page counts.
    pub(crate) fn new(alloc: Global) -> Holdings {
        Holdings {
            numbers: HashMap::new(alloc),
            all: Vec::new(alloc),
        }
    }

    // The index of `held` in the table, if the table has it.
    fn known(&self, held: &PagesHeld) -> Option<usize>
        ensures { IfSome result (λ number. slice_get self.now.all.items number ≡ Some held.now) }
    {
        let number = self.numbers.get(held).copied()?;
        match self.all.get(number) {
            Some(known) if *known == *held => Some(number),
            _ => None,
        }
    }

    /// Returns the index of the given page counts in the table, to which they are added if they are missing.
    pub(crate) fn number_of(&mut self, held: PagesHeld) -> Result<usize, AllocError>
        ensures number { IfOk result (λ number. slice_get self.new.all.items number ≡ Some held) }
        ensures all { OnOk result (AreWith self.old.all.items (Some held) self.new.all.items) }
    {
        if let Some(number) = self.known(&held) {
            return Ok(number);
        }
        let number = self.all.len();
        self.numbers.insert(held, number)?;
        self.all.push(held)?;
        Ok(number)
    }

    /// Consumes the table, and returns all its entries in the sequence of their indices.
    pub(crate) fn into_all(self) -> Vec<PagesHeld>
        ensures { result ≡ self.all }
    {
        let Holdings { numbers: _, all } = self;
        all
    }
}
