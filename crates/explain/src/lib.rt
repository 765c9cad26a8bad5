//! Explanations of why a host refuses a step of a plan, based on the first check that fails. Each check is evaluated on
//! the host.
//!
//! A `Check` has a required fact, whether the check fails on the host, and the refusal that a failure gives.
//! `step_checks` makes the checks of a step in sequence. `law` names the refusals for which the first failed check
//! gives the host's refusal. `explain_turns` runs a plan as `plan_replay` does, and keeps the checks of each refused
//! turn, up to the first that fails. These are proved.
//!
//! The words are tested: `error`, `help`, `passed` and `event` choose phrases, and `phrase` writes them.
#![tactic(auto)]

mod check;
mod error;
mod event;
mod explained;
mod explaining;
mod help;
mod help_host;
mod help_input;
mod help_realm;
mod host_facts;
pub mod law;
mod names;
mod of_block;
mod of_build;
mod of_command;
mod of_input;
mod of_realm;
mod of_rec;
mod of_step;
mod of_walk;
mod operands;
mod passed;
mod phrase;
mod readings;
mod rmi_facts;
mod roles;
mod unfinished;
mod words;

pub use check::{Check, Fact};
pub use event::event_words;
pub use explained::{ExplainedTurn, Explanation};
pub use explaining::explain_turns;
pub use host_facts::{BuildFact, RoomFact, UndoFact};
pub use of_step::step_checks;
pub use rmi_facts::{InputFact, RealmFact, RecFact, WalkFact};
pub use unfinished::{UnfinishedAbort, unfinished_aborts, unfinished_lines};
pub use words::reason_lines;
