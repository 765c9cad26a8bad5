//! The JSON document of a plan's run, with the machine's settings, the turns, and the host's final state.
//!
//! A document is a value. Its granules, rows, RECs and realms are read from the host: after each turn those that the
//! turn's event names (`specs/Turns.antt`), and all of them at the end. `serde_json` writes it; the words of its
//! members are tested. Nothing here reads or writes a device. REALMVIEW.md says what each member means.
#![tactic(auto)]

mod answer;
mod changed;
mod document;
mod items;
mod json;
mod kept;
mod page;
mod realm;
mod rows;
mod template;
mod turn;
mod words;
mod world;

pub use document::{Document, MachineSettings, run_document};
pub use items::{GranuleItem, PageItem, RecItem, RecView, RowItem};
pub use json::{ObjectWriter, json_text};
pub use kept::BuildKept;
pub use page::page_of;
pub use realm::RealmItem;
pub use template::{HEAD, TAIL};
pub use turn::{EventItem, StepItem, TurnItem};
pub use world::{BuildItem, EventLine, RealmContents, WorldItem, world_item};
