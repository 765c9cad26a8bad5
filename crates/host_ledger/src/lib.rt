//! The ledger in which a host keeps its history, and values derived from the history.
//!
//! Contracts see a ledger as they see a host: by its limits, room, history, abort flags and marks. All other values are
//! functions of these. For each build they are its open operations, its pages, its realm's RD, its RECs by number, and
//! how many of them run. For the machine they are the build that leases each granule, and the VMIDs in use. Each
//! recorded event is a step of the world that the history leads to, so the history is legal. Memory is taken by `build`
//! alone.
#![tactic(auto)]

mod build;
mod builds_view;
mod ledger;
mod mark;
mod recs;

pub use ledger::HostLedger;
pub use mark::Mark;
