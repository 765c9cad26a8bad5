//! The list of the RECs of a build's realm, in which a REC is found by its number.
ghost use Rattle.std.specs.Prelude.{◌≡◌, ◌+◌, ◌-◌, ◌<◌, [], ◌∷◌, ◌++◌, take, length, IfOk};
ghost use Rattle.realm_model.specs.RecsOpen.{granule_in};
ghost use Rattle.host_ledger.specs.Recs.{IsAbove};

use granule_addr::{Gran, RecNo};
use realm_model::JOURNAL_ROOM;
use std::alloc::{AllocError, Global};
use std::marker::Model;

/// The RECs of a realm, each with its number and its granule. Their numbers rise, so a binary search finds one. All
/// memory is taken when the list is built, since each REC is that of an open operation, of which a build has at most
/// 512.
#[derive(Drop)]
pub(crate) struct Recs {
    entries: Vec<(RecNo, Gran)>,
}

impl Model for Recs {
    ghost use Rattle.std.specs.Prelude.{ℕ, ◌≤◌, List, vec_capacity, vec_len};
    ghost use Rattle.realm_model.specs.RecsOpen.{IsRising};

    ghost Value = { List (ℕ × ℕ) };

    ghost view = { λ r. r.entries.items };

    ghost invariant = { λ r. (512 ≤ vec_capacity r.entries) × (vec_len r.entries ≤ 512) × IsRising r.entries.items };
}

impl Recs {
    /// Creates an empty list of RECs.
    pub(crate) fn build(alloc: Global) -> Result<Recs, AllocError>
        ensures { IfOk result (λ recs. recs ≡ []) }
    {
        let entries = Vec::with_capacity(alloc, JOURNAL_ROOM as usize)?;
        Ok(Recs { entries })
    }

    /// Adds a REC to the end of the list. Its number is above all others.
    pub(crate) fn push(&mut self, number: RecNo, granule: Gran)
        requires few { length self.old < 512 }
        requires above { IsAbove self.old number }
        ensures { self.new ≡ self.old ++ (number, granule) ∷ [] }
    {
        self.entries.push_reserved((number, granule));
    }

    /// Removes the newest REC from the list.
    pub(crate) fn pop(&mut self)
        ensures { self.new ≡ take (length self.old - 1) self.old }
    {
        self.entries.pop();
    }

    /// Returns the granule of REC `number`, if the list has that REC.
    pub(crate) fn granule(&self, number: RecNo) -> Option<Gran>
        ensures { result ≡ granule_in self.now number }
    {
        let wanted = number.number();
        let mut low = 0;
        let mut high = self.entries.len();
        while low < high {
            let middle = low + (high - low) / 2;
            let (number, granule) = self.entries[middle];
            let found = number.number();
            if found == wanted {
                return Some(granule);
            }
            if found < wanted {
                low = middle + 1;
            } else {
                high = middle;
            }
        }
        None
    }
}
