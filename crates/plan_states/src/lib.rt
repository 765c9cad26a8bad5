//! The outcomes of all schedules of a plan, counted in a graph of the states that the plan's runs reach.
//!
//! Schedules that led to the same state have the same further turns and answers. A state is the operations of each
//! build, and the blocks that were leased and given back (`state.rt`). The states after the same number of turns are a
//! layer (`graph.rt`). Turns with the same inputs are run once (`turns.rt`). Three checks follow. No turn is missing
//! (`whole.rt`), and no outcome or map is listed twice (`distinct.rt`). Each path is a run with the step outcomes and
//! the map that it names (`runs.rt`). So the paths are all schedules, each once (`law.rt`). Outcomes are counted as
//! paths (`outcomes.rt`), and the first schedule of each is its first path.
#![tactic(auto)]

mod distinct;
mod edges;
mod graph;
mod holdings;
mod label_properties;
pub mod law;
mod leftovers;
mod lines;
mod outcomes;
mod question;
mod run_log;
mod running;
mod runs;
mod schedule_text;
mod shortest;
mod snapshot;
mod state;
mod step_end;
mod tally;
mod text;
mod turns;
mod whole;

pub use edges::Label;
pub use graph::{Exploration, Graph, explore};
pub use leftovers::leave_nothing;
pub use lines::push_map;
pub use outcomes::outcomes_of;
pub use question::{PagesHeld, TurnQuestion};
pub use shortest::{Witness, answers, shortest_answer};
pub use step_end::EndOfStep;
pub use tally::{Outcomes, PathTally, StepOutcomes};
pub use text::{push_outcomes, push_step_outcomes, states_text, too_many_text};
pub use whole::StepsDone;
