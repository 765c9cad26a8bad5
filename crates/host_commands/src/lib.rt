//! The commands that builds give to the host, and the checks that the host makes of them.
//!
//! A command names pages by the build's own numbers. One table, `Needs`, has a row for each command, and one list of
//! checks follows from it. `check_needs` returns the granules of the named pages, or the refusal with the lowest
//! number. `act_of` forms the operation from the granules and from what was allocated; `law` says how that operation
//! fits its command. The state of a host's builds is read through the trait `BuildsView`.
#![tactic(auto)]

mod act;
mod builds_view;
mod checks;
mod cmd;
pub mod law;
mod needs;
mod pages;
mod refusal;
mod reply;

pub use act::act_of;
pub use builds_view::BuildsView;
pub use checks::{check_build, check_needs};
pub use cmd::{Cmd, Step};
pub use needs::{Needs, RealmRequirement, tables_named};
pub use refusal::Refusal;
pub use reply::{Allocated, Reply, Undone, reply_of};
