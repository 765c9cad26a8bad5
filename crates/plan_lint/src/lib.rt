//! Findings on the text of a plan: errors, or likely mistakes if the plan is valid. Each has a message and a position.
//!
//! No function reads a device or depends on a host. `realm_plan` decides whether bytes are a plan, and its fault is
//! always among the errors. The rest of this crate finds the messages and the positions. A walk over the text finds
//! keys, steps and turns with their positions; each module finds one kind of mistake.
#![tactic(auto)]

mod builds;
mod document;
mod excerpt;
mod finding;
mod forms;
mod judging;
mod keys;
mod lints;
mod message_text;
mod nearest;
mod needs;
mod order;
mod outline;
mod report;
mod step_text;
mod syntax;
mod walk;

pub use finding::{Finding, Severity, Span};
pub use judging::{Judged, Size, judge};
pub use report::LintReport;
