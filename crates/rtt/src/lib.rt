//! The states of a machine's granules, and the translation tables of realms. Tables are words in the pages of granules
//! whose state is RTT.
//!
//! A `GranuleTable` is seen as the list of its granules, each with its state and the realm that it belongs to. A shift
//! moves one granule from a state to another if it is in the first, and changes no other granule. Memory is taken by
//! `build` alone. The caller passes granules of the machine.
//!
//! `Tables` names a realm's RD and its starting tables, and nothing is kept beside the pages. Contracts see the rows of
//! the tables. The answer and the effect of each call are those of its definition on the rows, and each call keeps the
//! invariant of the realm's tables. Pages and granules that are not the realm's are left alone, so the tables of other
//! realms stay. A caller has to keep the invariants, and to pass granules that are DELEGATED. No call takes memory.
#![tactic(auto)]

mod entry;
mod granule;
mod granule_table;
pub mod law;
mod mapping;
mod pages;
mod refusal;
mod root;
mod table;
mod tables;

pub use entry::Entry;
pub use granule::Granule;
pub use granule_table::GranuleTable;
pub use refusal::Rtt;
pub use tables::{Tables, Walk};
