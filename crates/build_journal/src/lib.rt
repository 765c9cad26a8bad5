//! Data structures that record undoable operations, leased pages, and VMIDs in use. They are kept apart from the
//! history. The history grows by one event at a time.
//!
//! The journal of a build is a stack of its open operations. Each operation that is open has a reverse.
//!
//! `Leases` has the stack of pages of each build. A block that is taken goes to the end of its build's stack, page by
//! page in rising order. So the build's page numbers run from 0 in the order of taking. The reverse of the take removes
//! it again. Memory is taken by `build` alone, and no later call fails. The caller ensures that there is capacity for a
//! block that is pushed.
//!
//! `Holders` has the lease of each granule, by the granule's number, so that no stack is searched. It takes 2 bytes a
//! granule, allocated at boot.
//!
//! The pool of VMIDs returns the lowest one that is free. A VMID is claimed, and given back.
#![tactic(auto)]

mod history;
mod holders;
mod journal;
mod reverse;
mod stacks;
mod vmids;

pub use history::append_event;
pub use holders::Holders;
pub use journal::Journal;
pub use reverse::{reverse_of, takes_back};
pub use stacks::Leases;
pub use vmids::VmidPool;
