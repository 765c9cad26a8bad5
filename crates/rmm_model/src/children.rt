//! The 512 children of a translation table entry, encoded as the words of a table.
ghost use Rattle.std.specs.Prelude.{◌≡◌, ℕ, ◌^◌, ◌<◌, ◌≤◌};

use crate::RmmRttEntry;
use crate::entry::ADDRESSES;

/// The words that encode the children of a table entry: all of one kind, with descriptors that differ by the same
/// amount from child to child.
#[derive(Clone, Copy)]
pub struct ChildWords {
    kind: u64,
    first: u64,
    step: u64,
    ghost kind_fits: { kind ≤ 2 ^ 60 },
    ghost first_fits: { first < 2 ^ 48 },
    ghost step_fits: { step ≤ 2 ^ 39 },
}

impl ChildWords {
    ghost use Rattle.rmm_model.specs.Children.{child_word};
    ghost use Rattle.rmm_model.specs.Entry as entries;

    /// Creates the words that encode the children of a table entry. The children are in a table at the given level.
    pub fn new(parent: RmmRttEntry, level: u8) -> ChildWords
        requires { entries.descriptor_of parent < 2 ^ 48 }
        ensures { (k : ℕ) → child_word result k ≡ entries.entry_word (entries.child_entry parent level k) }
    {
        ChildWords {
            kind: parent.kind_word(),
            first: parent.descriptor(),
            step: parent.child_step(level),
        }
    }

    /// Returns the word that encodes child entry `index`.
    pub fn word(&self, index: u16) -> u64
        requires { index < 512 }
        ensures { result ≡ child_word self.now index }
    {
        self.kind + (self.first + index as u64 * self.step) % ADDRESSES
    }
}
