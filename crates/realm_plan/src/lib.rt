//! The parser of plans, and the printed texts of steps, replies, refusals and maps.
//!
//! No function reads a device or depends on a host. `Plan::from_bytes` returns the plan that the bytes spell, or the
//! one fault that `plan_of` names. `step_from_text` reads a step, and `StepText` writes one. The texts of answers and
//! the lines of a map are here too, so that each is defined once.
#![tactic(auto)]

mod answer;
mod command;
mod contents;
mod fault;
mod law;
mod limits;
mod lines;
mod operands;
mod plan;
mod spelling;
mod step;
mod turns;

pub use answer::{KindWord, RefusalText, ReplyText};
pub use fault::{PlanError, PlanFault};
pub use law::step_texts_are_injective;
pub use limits::{MOST_BUILDS, MOST_STEPS, MOST_TURNS};
pub use lines::{push_free, push_idle, push_page, push_realm, realm_word, state_word};
pub use plan::{MOST_BYTES, Plan};
pub use spelling::StepText;
pub use step::{PlanStep, step_from_text};
