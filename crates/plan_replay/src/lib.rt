//! The run of a plan on a host, and the run's output. The output has a line for each turn, and the host's final map.
//!
//! A turn asks the host for the next step of its build. Its line has the step as it is in the plan, with the host's own
//! answer (`specs/Turn.antt`, `specs/Run.antt`, `specs/Text.antt`). An abort and a `back` step take a turn for each
//! operation that they undo. `realm_plan` says what a plan is and how a step is spelled; nothing here reads or writes a
//! device.
#![tactic(auto)]

mod answer;
pub mod law;
mod map;
mod place;
mod run;
mod turn;

pub use answer::{TurnAnswer, empty_output_text, push_turn};
pub use map::{map_text, push_map};
pub use place::{GIVING_UP, PlanCursor, number_after};
pub use run::{run_turns, step_after, take_turn};
pub use turn::plan_turn;
