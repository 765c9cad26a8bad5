//! The checks of RMI calls, each evaluated on a machine. RMM 1.0, failure conditions of RMI commands.
//!
//! A check is made if each check that it comes after was made and passed. The RMM ends at the first check that fails.
//! Here all of them are evaluated, to judge the answer of another RMM. Nothing changes the machine, and no call takes
//! memory.
#![tactic(auto)]

mod call;
mod data;
mod entry;
mod evaluated;
mod fold;
mod granule;
mod information;
mod judging;
pub mod law;
mod name;
mod operand;
mod psci;
mod read_entry;
mod realm;
mod realm_create;
mod realm_destroy;
mod rec;
mod rec_create;
mod rec_enter;
mod ripas;
mod rtt;
mod unprotected;
mod walking;

pub use call::checks_of;
pub use evaluated::{CheckOutcome, EvaluatedCheck, EvaluatedChecks};
pub use name::{condition_name, condition_named};
