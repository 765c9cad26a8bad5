//! The functions through which C programs use an RMM, declared in `include/rmm.h`. The RMM takes its calls in
//! registers. The contract of a function states its result.
//!
//! C keeps a handle, and the handle owns an RMM on the heap. `rmm_open` and `rmm_line` alone take memory. No call has a
//! precondition but those of its pointers, which `include/rmm.h` has at each function.
#![tactic(auto)]

mod attributes;
mod guest;
mod handle;
mod held;
mod judging;
mod line;
mod memory;
mod open;
mod plain_rmm;
mod reading;
mod settings;
mod smc;

pub use attributes::{RealmAttributes, RecAttributes};
pub use guest::{GuestStepResult, RawStep};
pub use handle::RmmHandle;
pub use held::HeldRmm;
pub use plain_rmm::PlainRmm;
pub use settings::PlatformSettings;
pub use smc::SmcRegisters;
