//! A realm host that the threads of its builds share under a lock. Each build of the host has a session handle
//! (`Seat`), and workers run the builds in threads.
//!
//! A call through `Shared` takes the lock, and asks the host under it (`build_seats::Kept`). `Shared::close` gives the
//! host back, with an error if the seats' lists are not the history. Without one, a caller knows that each of its
//! accepted commands and undos is in one legal history, once and in sequence.
//!
//! A `Worker` has a build's seat, its steps and its report. `run_builds` runs each worker in a thread of its own: it
//! performs `work` over a `SeatTeller`, with its turns from a gate.
#![tactic(auto)]

mod run;
mod seat_teller;
mod shared;
mod worker;

pub use build_seats::{
    Answer, Asked, Blanks, CloseFault, Gate, Kept, Ledgers, Report, ReportLine, Seat, Stuck,
    Teller, work,
};
pub use run::run_builds;
pub use seat_teller::{OpenGate, SeatTeller};
pub use shared::Shared;
pub use worker::Worker;
