//! The RMM calls and other actions that a host takes for events, commands and undos. The events are those of a history,
//! and the commands and undos are prepared first. A call passes its arguments in registers.
//!
//! An event names granules by their numbers in the machine of the history. A frame places that machine at an address.
//! After it are granules of the host: one for the parameters of realms, one for those of RECs, and 64 for the runs of
//! RECs.
//!
//! The actions for an event are a function of the frame, of the event, of its realm and REC, and of the page for the
//! exits of its run (`specs/Actions.antt`). No function but those of texts takes memory.
#![tactic(auto)]

mod action;
mod actions;
mod frame;
mod free_block;
pub mod law;
mod prepared;
mod refusal;
mod runs;
mod text;

pub use action::HostAction;
pub use actions::{Actions, actions_of};
pub use frame::{Frame, HOST_GRANULES, RUN_PAGE_COUNT};
pub use prepared::{actions_asked, actions_back};
pub use refusal::refusal_of_command;
pub use runs::RunPages;
pub use text::{push_action, push_platform};
