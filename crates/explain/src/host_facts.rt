//! Facts that the host or its page store checks without asking the RMM.
use granule_addr::{Gran, Vmid};

/// A required fact about a build or a block order. If the fact does not hold, the host gives one of refusals 1 to 6
/// (`NoBuild` to `NoRealm`).
#[derive(Clone, Copy)]
pub enum BuildFact {
    /// Requires that the build exists. The value is the number of builds of the host.
    There(u8),
    /// Requires that the build is not in abort.
    NotAborting,
    /// Requires that the order of a block is at most 9. The value is the order.
    Order(u8),
    /// Requires that the build has a given page.
    Page {
        page: u16,
        /// The granule of the page, if the build has the page.
        granule: Option<Gran>,
        /// The number of pages of the build.
        count: u16,
    },
    /// Requires that the build has a realm. The value is the RD that was found, if any.
    Realm(Option<Gran>),
    /// Requires that the build has no realm. The value is the RD that was found, if any.
    NoRealm(Option<Gran>),
}

/// A required fact about free capacity, such as a free VMID. If the fact does not hold, the host gives one of refusals
/// 9 to 12 (`JournalFull` to `NoVmid`).
#[derive(Clone, Copy)]
pub enum RoomFact {
    /// Requires that the build has fewer than 512 open operations. The value is the number of open operations.
    Journal(usize),
    /// Requires that the history has enough free entries for the build. The fields are the free and the needed number
    /// of entries.
    History {
        left: u16,
        needed: u16,
    },
    /// Requires that a VMID is free. The value is the lowest free VMID, if any.
    Vmid(Option<Vmid>),
    /// Requires that an aligned block of a given order is free.
    Block {
        order: u8,
        /// The number of free granules.
        free: u16,
    },
}

/// A fact that an undo, an abort or a `back` step requires. If the fact does not hold, the host gives refusal 7
/// (`NothingToUndo`) or 8 (`RecRunning`).
#[derive(Clone, Copy)]
pub enum UndoFact {
    /// Requires that the build has an open operation. The value is the number of open operations.
    Open(usize),
    /// Requires that the next operation to undo did not create a REC that is RUNNING.
    NewestIsNotRunning,
    /// Requires that all RECs of the build are READY. The value is the number of RUNNING RECs.
    AllAreReady(u16),
    /// Requires that the build has a valid mark.
    Mark,
    /// Requires that no open operation since the mark created a REC that is RUNNING.
    NoneRunsAboveMark,
}
