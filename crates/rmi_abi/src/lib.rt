//! Values of RMM 1.0's Realm Management Interface: registers, calls, result words, parameters and settings.
//!
//! Nothing here has a state. A call is decoded from the registers X0 to X6, and encoded into them.
#![tactic(auto)]

mod call;
mod features;
mod gic;
mod hash;
pub mod law;
mod mpidr;
mod realm_params;
mod rec_params;
mod rec_run;
mod registers;
mod settings;
mod word;

pub use call::{Call, decode_call, encode_call};
pub use features::feature_register;
pub use gic::GicFields;
pub use hash::HashAlgorithm;
pub use mpidr::{is_mpidr, rec_number};
pub use realm_params::RealmParams;
pub use rec_params::RecParams;
pub use rec_run::{EnterFlags, ExitReason, RecExit, entry_gpr};
pub use registers::{Registers, SmcResult, answer_registers, unknown_registers};
pub use settings::{Layout, Platform, RmmSettings};
pub use word::Word;
