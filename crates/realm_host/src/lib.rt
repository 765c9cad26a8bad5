//! A host that performs commands of realm builds, undoes them, and records a history. Each build can be left out of the
//! history.
//!
//! A host is seen as its limits, the room that each build has in its history, the history, which builds are in abort,
//! and the mark of each. All else that it holds is a function of these: the world is the replay of the history, and the
//! ledger has the record of each build.
#![tactic(auto)]

mod abort;
mod act;
mod allocation;
mod apply;
mod block;
mod command;
mod host;
pub mod law;
mod marks;
mod reading;
mod settings;
mod undo;
mod why_not;
mod without;

pub use command::HostAnswer;
pub use granule_addr::{
    BuildId, Gran, IpaGran, IpaWidth, Level, Order, PageOff, RecNo, Root, Vmid,
};
pub use host::Host;
pub use host_commands::{Cmd, Refusal, Reply, Undone};
pub use host_ledger::{HostLedger, Mark};
pub use page_arena::{BuildError, PageStore, PlainStore};
pub use reading::{GranuleView, RowView};
pub use realm_model::{
    Act, EntryState, Event, GranuleState, Kind, RealmState, RecState, Ripas, Rmi, Status,
};
pub use rmi_monitor::{RealmDesc, Rec};
pub use rtt::Entry;
pub use settings::Settings;
pub use why_not::WhyNot;
pub use without::apply_without;
