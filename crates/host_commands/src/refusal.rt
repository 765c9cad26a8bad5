//! The numbered reasons why a host refuses a command or an undo.
use granule_addr::Order;
use realm_model::Rmi;
use thiserror::Error;

/// The reason why the host refuses a command or an undo. Of several refusals that hold, the one with the lowest number
/// is given, and nothing changes.
#[derive(Clone, Copy, Debug, PartialEq, Eq, Error)]
pub enum Refusal {
    /// Refusal 1: the host has no such build.
    #[error("there is no such build")]
    NoBuild,
    /// Refusal 2: the build is being aborted.
    #[error("the build is being aborted")]
    Aborting,
    /// Refusal 3: the order of the requested block is above 9.
    #[error("a block has at most 512 pages")]
    BadOrder,
    /// Refusal 4: the build does not have the page with this number.
    #[error("the build has no page {0}")]
    NotLeased(u16),
    /// Refusal 5: the build already has a realm.
    #[error("the build has a realm")]
    RealmThere,
    /// Refusal 6: the build has no realm.
    #[error("the build has no realm")]
    NoRealm,
    /// Refusal 7: the build has nothing to undo, or does not have the mark to return to.
    #[error("there is nothing to undo")]
    NothingToUndo,
    /// Refusal 8: an undo, an abort or a rollback would destroy a running REC.
    #[error("a REC is running")]
    RecRunning,
    /// Refusal 9: the build already has 512 reversible operations that are not undone yet.
    #[error("the journal is full")]
    JournalFull,
    /// Refusal 10: the build has too few history entries left for its command.
    #[error("the history is full")]
    HistoryFull,
    /// Refusal 11: no aligned block of the requested order is free.
    #[error("no block of order {} is free", .0.number())]
    NoBlock(Order),
    /// Refusal 12: no VMID is free.
    #[error("no VMID is free")]
    NoVmid,
    /// Refusal 13: the RMM refuses the command.
    #[error("the monitor refused: {:?}, index {}", .0.status, .0.index)]
    Rmi(Rmi),
}
