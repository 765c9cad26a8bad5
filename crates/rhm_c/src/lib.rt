//! The functions through which C programs use a host. They are those of `include/rhm.h`. The contract of a function
//! states its result.
//!
//! C keeps a handle, and the handle owns a host on the heap. `rhm_open` alone takes memory. The only preconditions of a
//! call are those on its pointers. `include/rhm.h` states them at each function.
//!
//! A command of a build can be performed at once, or in two steps in front of an RMM. `rhm_prepare` gives the
//! operations that the hypervisor performs there, and changes nothing. `rhm_commit` is given the answer, and performs
//! the command here if the answer is the expected one.
#![tactic(auto)]

mod abort;
mod action;
mod answer;
mod asking;
mod build_call;
mod command;
mod commit;
mod handle;
mod held;
mod history;
mod marks;
mod open;
mod placed_host;
mod prepare;
mod reading;
mod settings;
mod undo;

pub use action::{RawAction, RawActions};
pub use command::RawCommand;
pub use commit::FirmwareAnswer;
pub use handle::HostHandle;
pub use held::HeldHost;
pub use history::RawEvent;
pub use placed_host::PlacedHost;
pub use reading::{BuildReading, PageReading, RealmReading, RecReading};
pub use settings::HostSettings;
