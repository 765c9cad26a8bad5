//! The library of the program `realmview`, which shows plans and histories. The library has the program's texts,
//! subcommands, and reasons to stop.
//!
//! `Histories`, `Reasons`, `Documents`, `Pages`, `Calls` and `Exploring` are the texts of plans that `print` writes.
//! `apply` reads the lines of a history, and writes the map of its machine. `check` writes the findings on bytes as a
//! plan, and `reorder` writes a plan with another schedule. Each of them works with any reader and any writer, and
//! `run` performs what the command line asks for. `schedules` runs the schedules of a plan.
//!
//! All that a text states of a run is read from a host. Nothing here depends on the process that it runs in: a caller
//! hands in the words and the devices.
#![tactic(auto)]

mod applying;
mod call_rows;
mod checking;
mod fault;
mod history_lines;
mod law;
mod machine;
mod order_place;
mod order_text;
mod page_words;
mod plan_answer;
mod plan_calls;
mod plan_history;
mod plan_json;
mod plan_order;
mod plan_page;
mod plan_reasons;
mod plan_schedules;
mod plan_text;
mod plan_title;
mod printing;
mod refused_calls;
mod running;
mod same_plan;
pub mod schedules;

pub use applying::apply;
pub use checking::{ViewOutcome, check};
pub use command_line::realmview::{
    AfterRefusal, CallsForm, ScheduleQuestion, Schedules, SchedulingPolicy, StepPlace,
    ViewSubcommand,
};
pub use fault::ViewError;
pub use law::{histories_do_not_stop, what_is_applied_is_legal};
pub use plan_calls::Calls;
pub use plan_history::Histories;
pub use plan_json::Documents;
pub use plan_order::reorder;
pub use plan_page::Pages;
pub use plan_reasons::Reasons;
pub use plan_schedules::Exploring;
pub use plan_text::ViewText;
pub use printing::print;
pub use running::run;
