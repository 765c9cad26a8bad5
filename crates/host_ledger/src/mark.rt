//! Points in the history, called marks, to which builds can be rolled back.
ghost use Rattle.std.specs.Prelude.{◌≡◌};
ghost use Rattle.host_ledger.specs.Marks.{is_same_mark};

use granule_addr::BuildId;

/// A point in the history to which a build can be rolled back. It has the build, a number of open operations, and a
/// position in the history.
#[derive(Clone, Copy)]
pub struct Mark {
    pub(crate) build: BuildId,
    pub(crate) length: u16,
    pub(crate) place: u32,
}

impl Mark {
    /// Returns the number of operations that the build could still undo when the mark was set.
    pub fn length(&self) -> u16
        ensures { result ≡ self.now.length }
    {
        self.length
    }

    /// Returns the number of events in the history when the mark was set.
    pub fn place(&self) -> u32
        ensures { result ≡ self.now.place }
    {
        self.place
    }

    /// Returns whether the two marks are the same.
    pub fn is(self, other: Mark) -> bool
        ensures { result ≡ is_same_mark self other }
    {
        self.build == other.build && self.length == other.length && self.place == other.place
    }
}
