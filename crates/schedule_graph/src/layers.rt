//! Counts the paths from each state of each layer of a graph, beginning with the last layer.
ghost use Rattle.std.specs.Prelude.{◌≡◌, IfOk};
ghost use Rattle.schedule_graph.specs.First.{layers_in, path_numbers_in, any_path, shows_none, ArePathNumbers};
ghost use Rattle.schedule_graph.specs.Paths.{shows};

use crate::first::numbers_at;
use crate::graph::{Edge, LabelProperty, count_paths, count_paths_with, count_paths_without};
use crate::path_number::PathNumber;
use std::alloc::{AllocError, Global};

/// Counts the paths from each state of each layer of a graph. The one error is that allocation failed.
pub fn count_all<L>(
    alloc: Global,
    layers: &[Vec<Vec<Edge<L>>>],
) -> Result<Vec<Vec<PathNumber>>, AllocError>
    ensures { IfOk result (λ counts. ArePathNumbers any_path (layers_in layers.now) (path_numbers_in counts.items)) }
{
    let mut counts: Vec<Vec<PathNumber>> = Vec::new(alloc);
    for done in 0..layers.len() {
        let depth = layers.len() - 1 - done;
        let next = numbers_at(&counts, done.saturating_sub(1));
        let here = count_paths(alloc, &layers[depth], next)?;
        counts.push(here)?;
    }
    counts.reverse();
    Ok(counts)
}

/// Counts, for each state of each layer, the paths from that state on which some label has `property`. `all` has the
/// counts of all paths. The one error is that allocation failed.
pub fn count_all_with<L, S: LabelProperty<L>>(
    alloc: Global,
    layers: &[Vec<Vec<Edge<L>>>],
    property: &S,
    all: &[Vec<PathNumber>],
) -> Result<Vec<Vec<PathNumber>>, AllocError>
    ensures { IfOk result (λ counts. ArePathNumbers any_path (layers_in layers.now) (path_numbers_in all.now)
        → ArePathNumbers (shows (S.holds_for property.now)) (layers_in layers.now) (path_numbers_in counts.items)) }
{
    let mut counts: Vec<Vec<PathNumber>> = Vec::new(alloc);
    for done in 0..layers.len() {
        let depth = layers.len() - 1 - done;
        let all_next = numbers_at(all, depth + 1);
        let next = numbers_at(&counts, done.saturating_sub(1));
        let here = count_paths_with(alloc, &layers[depth], property, all_next, next)?;
        counts.push(here)?;
    }
    counts.reverse();
    Ok(counts)
}

/// Counts, for each state of each layer, the paths from that state on which no label has `property`. The one error is
/// that allocation failed.
pub fn count_all_without<L, S: LabelProperty<L>>(
    alloc: Global,
    layers: &[Vec<Vec<Edge<L>>>],
    property: &S,
) -> Result<Vec<Vec<PathNumber>>, AllocError>
    ensures { IfOk result (λ counts.
        ArePathNumbers (shows_none (S.holds_for property.now)) (layers_in layers.now) (path_numbers_in counts.items)) }
{
    let mut counts: Vec<Vec<PathNumber>> = Vec::new(alloc);
    for done in 0..layers.len() {
        let depth = layers.len() - 1 - done;
        let next = numbers_at(&counts, done.saturating_sub(1));
        let here = count_paths_without(alloc, &layers[depth], property, next)?;
        counts.push(here)?;
    }
    counts.reverse();
    Ok(counts)
}
