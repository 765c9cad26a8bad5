//! Schedules of a plan in which builds are drawn at random, take turns in rotation, or run one after another.
mod add;
mod choice;
mod count;
mod drawn_schedule;
pub mod law;
mod progress;
mod rotation;
mod run;
mod sampling;
mod text;
mod totals;
mod whole_schedules;

pub use choice::Choice;
pub use drawn_schedule::run_drawn;
pub use progress::Progress;
pub use sampling::sample;
pub use text::push_drawn;
pub use totals::Totals;
pub use whole_schedules::{schedule_in_rotation, schedule_one_by_one};
