//! A shared host, with a session handle (`Seat`) for each of its builds. The work of a build is here too. Nothing in
//! this crate depends on locks or threads.
//!
//! `Kept` is what a lock protects: the host, and for each build the number of its events in the history. A `Seat` has
//! the same number for its build, and a list of these events. A call of `Kept` asks the host. For an accepted command
//! or undo, the event that now ends the history is appended to the seat's list. `Kept::close` gives the host back, and
//! compares the lists with the history.
//!
//! `work` performs the steps of a build, over any `Teller` and any `Gate`. A `Teller` is the client side of a host, and
//! a `Gate` the scheduler of turns. The worker asks the teller for the steps in sequence, and waits at the gate before
//! each question. After the first refusal it stops the RECs that run, undoes the open operations, and ends. Its
//! contract says which questions were asked, in which sequence, and that the report has the teller's own answers
//! (`specs/Report.antt`). It takes no memory.
#![tactic(auto)]

mod ask;
mod blanks;
mod client;
mod close;
mod kept;
pub mod law;
mod ledgers;
mod report;
mod seat;
mod standing;
mod step;
mod teller;

pub use blanks::Blanks;
pub use client::work;
pub use close::CloseFault;
pub use kept::Kept;
pub use ledgers::Ledgers;
pub use report::{Answer, Asked, Report, ReportLine, Stuck};
pub use seat::Seat;
pub use teller::{Gate, Teller};
