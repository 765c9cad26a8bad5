//! The model of a machine that has realms. It defines granules, realms, translation, RMM commands, events and
//! histories, and has theorems about every history.
//!
//! `specs/` has the definitions, one subject a file. The types that contracts and code share are here. The theorems are
//! the contracts of the functions in `law`, which do nothing.
#![tactic(auto)]

mod act;
mod bounds;
pub mod law;
mod rmi;
mod states;

pub use act::{Act, Event, Kind, RealmAndRec, clone_granules, kind_of};
pub use bounds::{JOURNAL_ROOM, LEAST_HISTORY, MOST_HISTORY};
pub use rmi::{Rmi, Status};
pub use states::{EntryState, GranuleState, RealmState, RecState, Ripas};
