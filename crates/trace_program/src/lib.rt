//! The parts of `rmitrace` that write the output for trace lines, check a trace, and give the outcome of a run.
//!
//! A `Session` takes the lines of a trace one after another. It has no RMM before the first `platform`, and a new one
//! from each of these on. `run` reads the lines and writes their texts.
//!
//! Proved are the answer of each line, the counts of a check, and the line and the answer in a note. The name of the
//! check that decides a refused call is proved too. All other words of explanations are tested. Nothing here depends on
//! the process that it runs in: a caller passes in the request and the devices.
#![tactic(auto)]

mod counts;
mod fault;
mod judging;
mod line_text;
mod naming;
mod nearest;
mod phrases;
mod reading;
mod reasons;
mod session;

pub use command_line::rmitrace::{Comparison, NameSet, TraceSubcommand};
pub use counts::{Counts, LineVerdict, TraceVerdict};
pub use fault::TraceError;
pub use judging::line_verdict;
pub use line_text::LineTexts;
pub use reading::run;
pub use session::{LineWords, Session};
