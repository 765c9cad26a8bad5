//! Layered graphs of states, and functions that count their paths.
ghost use Rattle.std.specs.Prelude.{◌≡◌, ◌+◌, Bool, List, ◌∷◌, OnOk, IfOk, map, vec_items};
ghost use Rattle.schedule_graph.specs.Paths.{Layer, AreCounts, AreCountsWith, AreCountsWithout, count_at, path_count, with_count, without_count};

use crate::path_number::PathNumber;
use std::alloc::{AllocError, Global};

/// A labelled edge to a state of the next layer. The field `to` is the state's index in that layer.
#[derive(Drop)]
pub struct Edge<L> {
    pub label: L,
    pub to: usize,
}

/// A property that the label of an edge may have. A path shows the property if one of the path's labels has it.
pub trait LabelProperty<L> {
    ghost holds_for: { Self → L → Bool };

    /// Returns whether an edge's label has the property.
    fn holds_for(&self, label: &L) -> bool
        ensures { result ≡ holds_for self.now label.now };
}

// Adds a state's path count to `sum`. A missing state adds nothing.
fn add_at(sum: &mut PathNumber, counts: &[PathNumber], state: usize) -> Result<(), AllocError>
    ensures { OnOk result (sum.new ≡ sum.old + count_at counts.now state) }
{
    match counts.get(state) {
        Some(count) => sum.add(count),
        None => Ok(()),
    }
}

// Returns the number of paths from a state with the given edges.
fn count_from<L>(
    alloc: Global,
    edges: &[Edge<L>],
    next: &[PathNumber],
) -> Result<PathNumber, AllocError>
    ensures { IfOk result (λ count. count ≡ path_count next.now edges.now) }
{
    if edges.is_empty() {
        return Ok(PathNumber::one(alloc));
    }
    let mut sum = PathNumber::zero(alloc);
    for edge in edges {
        add_at(&mut sum, next, edge.to)?;
    }
    Ok(sum)
}

// Returns how many paths from a state with the given edges show the property.
fn count_with<L, S: LabelProperty<L>>(
    alloc: Global,
    edges: &[Edge<L>],
    property: &S,
    next: &[PathNumber],
    next_with: &[PathNumber],
) -> Result<PathNumber, AllocError>
    ensures { IfOk result (λ count. count ≡ with_count (S.holds_for property.now) next.now next_with.now edges.now) }
{
    let mut sum = PathNumber::zero(alloc);
    for edge in edges {
        let counts = if property.holds_for(&edge.label) {
            next
        } else {
            next_with
        };
        add_at(&mut sum, counts, edge.to)?;
    }
    Ok(sum)
}

// Returns how many paths from a state with the given edges do not show the property.
fn count_without<L, S: LabelProperty<L>>(
    alloc: Global,
    edges: &[Edge<L>],
    property: &S,
    next_without: &[PathNumber],
) -> Result<PathNumber, AllocError>
    ensures { IfOk result (λ count. count ≡ without_count (S.holds_for property.now) next_without.now edges.now) }
{
    if edges.is_empty() {
        return Ok(PathNumber::one(alloc));
    }
    let mut sum = PathNumber::zero(alloc);
    for edge in edges {
        if !property.holds_for(&edge.label) {
            add_at(&mut sum, next_without, edge.to)?;
        }
    }
    Ok(sum)
}

/// Counts the paths from each state of one layer of a graph. `next` has the counts of the next layer. The one error is
/// that allocation failed.
pub fn count_paths<L>(
    alloc: Global,
    layer: &[Vec<Edge<L>>],
    next: &[PathNumber],
) -> Result<Vec<PathNumber>, AllocError>
    ensures { IfOk result (λ counts. (layers : List (Layer L)) → AreCounts layers next.now
        → AreCounts (map vec_items layer.now ∷ layers) counts.items) }
{
    let mut counts = Vec::new(alloc);
    for edges in layer {
        let count = count_from(alloc, edges, next)?;
        counts.push(count)?;
    }
    Ok(counts)
}

/// Counts, for each state of one layer, the paths from that state on which some label has `property`. For the next
/// layer, `next` counts all paths, and `next_with` those that show the property. The one error is that allocation
/// failed.
pub fn count_paths_with<L, S: LabelProperty<L>>(
    alloc: Global,
    layer: &[Vec<Edge<L>>],
    property: &S,
    next: &[PathNumber],
    next_with: &[PathNumber],
) -> Result<Vec<PathNumber>, AllocError>
    ensures { IfOk result (λ counts. (layers : List (Layer L)) → AreCounts layers next.now
        → AreCountsWith (S.holds_for property.now) layers next_with.now
        → AreCountsWith (S.holds_for property.now) (map vec_items layer.now ∷ layers) counts.items) }
{
    let mut counts = Vec::new(alloc);
    for edges in layer {
        let count = count_with(alloc, edges, property, next, next_with)?;
        counts.push(count)?;
    }
    Ok(counts)
}

/// Counts, for each state of one layer, the paths from that state on which no label has `property`. `next_without` has
/// the counts in the next layer. The one error is that allocation failed.
pub fn count_paths_without<L, S: LabelProperty<L>>(
    alloc: Global,
    layer: &[Vec<Edge<L>>],
    property: &S,
    next_without: &[PathNumber],
) -> Result<Vec<PathNumber>, AllocError>
    ensures { IfOk result (λ counts. (layers : List (Layer L))
        → AreCountsWithout (S.holds_for property.now) layers next_without.now
        → AreCountsWithout (S.holds_for property.now) (map vec_items layer.now ∷ layers) counts.items) }
{
    let mut counts = Vec::new(alloc);
    for edges in layer {
        let count = count_without(alloc, edges, property, next_without)?;
        counts.push(count)?;
    }
    Ok(counts)
}
