//! A Realm Management Monitor that takes its calls in registers. RMM 1.0, RMI.
//!
//! Each command makes its checks one after another, and the first that fails decides the answer. A command changes
//! something only if all of them pass. No call takes memory, and no call has a precondition.
#![tactic(auto)]

mod access;
mod auxiliary;
mod data;
mod data_create;
mod fold;
mod granule;
mod guest;
mod host;
mod information;
mod init_ripas;
mod monitor;
mod operand;
mod psci;
mod read_entry;
mod realm;
mod realm_create;
mod realm_destroy;
mod rec;
mod rec_create;
mod rec_destroy;
mod rec_enter;
mod ripas_range;
mod rtt_create;
mod rtt_destroy;
mod run_page;
mod set_ripas;
mod step;
mod unprotected;
mod walking;

pub use monitor::Rmm;
