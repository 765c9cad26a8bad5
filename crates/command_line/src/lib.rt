//! The command lines of `realmhost`, `realmview` and `rmitrace`. The crate also has what the programs share: arguments,
//! reasons to stop, outcomes, and terminal output.
//!
//! A program has its own faults, each a `Reason` with its exit status and its line; `Stop` adds that the words are
//! refused. The command line of `realmhost` is proved to be what `clap`'s definition says of it. Those of `realmview`
//! and `rmitrace` are tables, and tests compare what they ask for.
#![tactic(auto)]

mod base;
mod ended;
mod invocation;
mod options;
mod paint;
mod process;
pub mod realmhost;
pub mod realmview;
pub mod rmitrace;
mod stop;
mod table;
mod terminal;
mod waiting;

pub use base::BaseAddress;
pub use ended::Ended;
pub use invocation::Invocation;
pub use paint::{Colour, TextKind, painted};
pub use process::arguments;
pub use stop::{Reason, Stop};
pub use terminal::{Input, Output};
pub use waiting::WaitingStream;
