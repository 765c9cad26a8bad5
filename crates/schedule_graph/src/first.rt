//! Finds the first path on which some edge label, or no edge label, has a given property.
ghost use Rattle.std.specs.Prelude.{◌≡◌, ◌<◌, nat_lt, Bool, true, option_map, slice_index_or, [], IfOk, Some, map, vec_items};
ghost use Rattle.std.specs.List.{find};
ghost use Rattle.schedule_graph.specs.First.{layers_in, path_numbers_in, first_like, any_path, shows_none};
ghost use Rattle.schedule_graph.specs.First.{ArePathNumbers, goes_on};
ghost use Rattle.schedule_graph.specs.Paths.{paths, shows, count_at};

use crate::graph::{Edge, LabelProperty};
use crate::path_number::PathNumber;
use std::alloc::{AllocError, Global};

/// Returns the path counts of the states in one layer of a graph. There are none if there is no such layer.
pub(crate) fn numbers_at(counts: &[Vec<PathNumber>], depth: usize) -> &[PathNumber]
    ensures { result.now ≡ slice_index_or (path_numbers_in counts.now) depth [] }
{
    match counts.get(depth) {
        Some(here) => here,
        None => &[],
    }
}

// Whether a state has paths.
fn has_paths(counts: &[PathNumber], state: usize) -> bool
    ensures { result ≡ nat_lt 0 (count_at counts.now state) }
{
    match counts.get(state) {
        Some(count) => !count.is_zero(),
        None => false,
    }
}

// Whether a path that is sought continues along an edge. `shown` is whether an earlier edge has the property; the
// counts are those of the next layer.
fn goes_on<L, S: LabelProperty<L>>(
    edge: &Edge<L>,
    property: &S,
    shown: bool,
    with_it: &[PathNumber],
    without_it: &[PathNumber],
) -> bool
    ensures { result ≡ goes_on (S.holds_for property.now) shown with_it.now without_it.now edge.now }
{
    if shown || property.holds_for(&edge.label) {
        has_paths(with_it, edge.to)
    } else {
        has_paths(without_it, edge.to)
    }
}

// The first edge along which a path that is sought continues, if there is one.
fn next_edge<'a, L, S: LabelProperty<L>>(
    edges: &'a [Edge<L>],
    property: &S,
    shown: bool,
    with_it: &[PathNumber],
    without_it: &[PathNumber],
) -> Option<&'a Edge<L>>
    ensures { option_map (λ edge. edge.now) result
        ≡ find (goes_on (S.holds_for property.now) shown with_it.now without_it.now) edges.now }
{
    for edge in edges {
        if goes_on(edge, property, shown, with_it, without_it) {
            return Some(edge);
        }
    }
    None
}

// The edges of a state; none if there is no such state.
fn edges_at<L>(layer: &[Vec<Edge<L>>], state: usize) -> &[Edge<L>]
    ensures { result.now ≡ slice_index_or (map vec_items layer.now) state [] }
{
    match layer.get(state) {
        Some(edges) => edges,
        None => &[],
    }
}

// Returns the labels of the first accepted path from the first state. In the contract, `accept` says whether paths that
// show the property are accepted, and whether other paths are. `with_it` counts a state's accepted paths if the
// property was shown before the state, and `without_it` if not.
fn walk<L: Copy, S: LabelProperty<L>>(
    alloc: Global,
    layers: &[Vec<Vec<Edge<L>>>],
    property: &S,
    with_it: &[Vec<PathNumber>],
    without_it: &[Vec<PathNumber>],
) -> Result<Vec<L>, AllocError>
    ensures { IfOk result (λ labels. (accept : Bool → Bool)
        → ArePathNumbers (λ path. accept true) (layers_in layers.now) (path_numbers_in with_it.now)
        → ArePathNumbers (λ path. accept (shows (S.holds_for property.now) path)) (layers_in layers.now)
        (path_numbers_in without_it.now)
        → 0 < count_at (slice_index_or (path_numbers_in without_it.now) 0 []) 0
        → first_like (λ path. accept (shows (S.holds_for property.now) path)) (paths (layers_in layers.now) 0)
        ≡ Some labels.items) }
{
    let mut labels = Vec::new(alloc);
    let mut state = 0;
    let mut shown = false;
    for depth in 0..layers.len() {
        let edges = edges_at(&layers[depth], state);
        let with_next = numbers_at(with_it, depth + 1);
        let without_next = numbers_at(without_it, depth + 1);
        let Some(edge) = next_edge(edges, property, shown, with_next, without_next) else {
            return Ok(labels);
        };
        labels.push(edge.label)?;
        shown = shown || property.holds_for(&edge.label);
        state = edge.to;
    }
    Ok(labels)
}

/// Finds the first path with an edge whose label has the property. Such a path shows the property. The paths are those
/// from the first state. Returns the path's labels, or `None` if no path shows the property. `all` counts all paths,
/// and `with_it` those that show the property. The one error is that allocation failed.
pub fn first_with<L: Copy, S: LabelProperty<L>>(
    alloc: Global,
    layers: &[Vec<Vec<Edge<L>>>],
    property: &S,
    all: &[Vec<PathNumber>],
    with_it: &[Vec<PathNumber>],
) -> Result<Option<Vec<L>>, AllocError>
    ensures { IfOk result (λ first. ArePathNumbers any_path (layers_in layers.now) (path_numbers_in all.now)
        → ArePathNumbers (shows (S.holds_for property.now)) (layers_in layers.now) (path_numbers_in with_it.now)
        → first_like (shows (S.holds_for property.now)) (paths (layers_in layers.now) 0) ≡ option_map vec_items first) }
{
    if !has_paths(numbers_at(with_it, 0), 0) {
        return Ok(None);
    }
    Ok(Some(walk(alloc, layers, property, all, with_it)?))
}

/// Finds the first path on which no edge's label has the property. The paths are those from the first state. Returns
/// the path's labels, or `None` if each path shows the property. `without_it` counts the paths that do not. The one
/// error is that allocation failed.
pub fn first_without<L: Copy, S: LabelProperty<L>>(
    alloc: Global,
    layers: &[Vec<Vec<Edge<L>>>],
    property: &S,
    without_it: &[Vec<PathNumber>],
) -> Result<Option<Vec<L>>, AllocError>
    ensures { IfOk result (λ first.
        ArePathNumbers (shows_none (S.holds_for property.now)) (layers_in layers.now) (path_numbers_in without_it.now)
        → first_like (shows_none (S.holds_for property.now)) (paths (layers_in layers.now) 0) ≡ option_map vec_items first) }
{
    if !has_paths(numbers_at(without_it, 0), 0) {
        return Ok(None);
    }
    Ok(Some(walk(alloc, layers, property, &[], without_it)?))
}
