//! Counts a plan's schedules as paths through a graph of the states that the plan's runs reach.
//!
//! Two positions of runs are one state if each build has the same events, progress and abort flag, and a valid mark in
//! both or in neither. A state decides all further turns and their answers, whatever the schedule was (`law.rt`). So
//! schedules are paths of a graph of states, which are counted layer by layer (`graph.rt`, `layers.rt`) in numbers of
//! any size (`path_number.rt`).
//!
//! The counts lead to the first path with, or without, a label that has a property (`first.rt`). Numbers are printed in
//! decimal (`number.rt`).
#![tactic(auto)]

mod first;
mod graph;
pub mod law;
mod layers;
mod number;
mod path_number;

pub use first::{first_with, first_without};
pub use graph::{Edge, LabelProperty, count_paths, count_paths_with, count_paths_without};
pub use layers::{count_all, count_all_with, count_all_without};
pub use number::Count;
pub use path_number::PathNumber;
