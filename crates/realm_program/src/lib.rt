//! The library of the program `realmhost`, which replays a plan or runs it in threads, and prints the result.
//!
//! `print` reads a plan and writes a text of it, with any reader and any writer. `Fault` has the reasons why the text
//! was not printed, with their exit statuses. `replay` prints the text of a run, and `run` that of a run in threads.
//! `fits` says whether a worker's report agrees with a history.
//!
//! Nothing here depends on the process that it runs in: a caller hands in the devices, and the gate that gives workers
//! their turns.
#![tactic(auto)]

mod append;
mod audit;
mod boot_host;
mod command;
mod fault;
mod input;
pub mod law;
mod line;
mod new_workers;
mod pages;
mod printing;
mod report;
mod run_fault;
mod running;
mod source;
mod text;
mod threads_text;
mod undo;
mod working;

pub use audit::{fit_all, fits};
pub use boot_host::{BuildableStore, boot, boot_by};
pub use command_line::realmhost::Line;
pub use fault::Fault;
pub use input::read_whole;
pub use printing::{PlanText, print};
pub use run_fault::RunFault;
pub use running::run;
pub use source::plan_in;
pub use text::{map_without, replay, text_of};
pub use working::run_text;
