//! The count of a plan's schedules by their outcomes. Schedules are counted as paths of the graph.
ghost use Rattle.std.specs.Prelude.{◌≡◌, ◌≤◌, Bool, List, [], ◌∷◌, length, map, option_map, slice_index_or, OnOk, IfOk};
ghost use Rattle.schedule_graph.specs.First.{any_path, layers_in, path_numbers_in, shows_none, ArePathNumbers};
ghost use Rattle.schedule_graph.specs.Paths.{paths, shows, count_at};
ghost use Rattle.plan_states.specs.Tallies.{with_tally, all_added, tally_by_counts, count_of_tally, end_tally, is_before, layers_of, map_tallies, map_tally, place_for, never_refused_tally, tally_of, whole_tallies, AreOutcomes};

use crate::edges::Label;
use crate::graph::{Graph, Layer, list_at, push};
use crate::label_properties::{HasEnd, HasMap, HasRefusal};
use crate::step_end::EndOfStep;
use crate::tally::{Outcomes, PathTally, StepOutcomes};
use schedule_graph::{
    Count, LabelProperty, PathNumber, count_all, count_all_with, count_all_without, first_with,
    first_without,
};
use std::alloc::{AllocError, Global};

// The count of paths from the first state.
fn root_of(alloc: Global, counts: &[Vec<PathNumber>]) -> Result<Count, AllocError>
    ensures { IfOk result (λ count. count ≡ count_at (slice_index_or (path_numbers_in counts.now) 0 []) 0) }
{
    match list_at(counts, 0).get(0) {
        Some(count) => count.count(alloc),
        None => Ok(Count::zero(alloc)),
    }
}

// The builds of a path's turns.
fn builds_of_path(alloc: Global, path: &[Label]) -> Result<Vec<usize>, AllocError>
    ensures { IfOk result (λ builds. builds.items ≡ map (λ label. label.build) path.now) }
{
    let mut builds = Vec::new(alloc);
    for label in path {
        push(&mut builds, label.build)?;
    }
    Ok(builds)
}

// The tally of the paths that are counted in `counts`, given the labels of the first of these paths, if there are any.
fn tally_from<K: Copy>(
    alloc: Global,
    counts: &[Vec<PathNumber>],
    path: Option<Vec<Label>>,
    outcome: K,
) -> Result<Option<PathTally<K>>, AllocError>
    ensures { IfOk result (λ tally. option_map count_of_tally tally ≡ option_map (λ labels. tally_by_counts outcome (path_numbers_in counts.now) labels.items) path) }
{
    let Some(path) = path else {
        return Ok(None);
    };
    let count = root_of(alloc, counts)?;
    let first = builds_of_path(alloc, &path)?;
    Ok(Some(PathTally {
        outcome,
        count,
        first,
    }))
}

// The tally of the paths that show the property `property`, if there are any.
pub(crate) fn tally_with<K: Copy, S: LabelProperty<Label>>(
    alloc: Global,
    layers: &[Layer],
    all: &[Vec<PathNumber>],
    property: &S,
    outcome: K,
) -> Result<Option<PathTally<K>>, AllocError>
    ensures { IfOk result (λ tally. ArePathNumbers any_path (layers_in layers.now) (path_numbers_in all.now)
        → option_map count_of_tally tally ≡ tally_of (shows (S.holds_for property.now)) outcome (paths (layers_in layers.now) 0)) }
{
    let with = count_all_with(alloc, layers, property, all)?;
    let path = first_with(alloc, layers, property, all, &with)?;
    tally_from(alloc, &with, path, outcome)
}

// The tally of the paths that do not show the property `property`, if there are any.
fn tally_without<K: Copy, S: LabelProperty<Label>>(
    alloc: Global,
    layers: &[Layer],
    property: &S,
    outcome: K,
) -> Result<Option<PathTally<K>>, AllocError>
    ensures { IfOk result (λ tally. option_map count_of_tally tally ≡ tally_of (shows_none (S.holds_for property.now)) outcome (paths (layers_in layers.now) 0)) }
{
    let without = count_all_without(alloc, layers, property)?;
    let path = first_without(alloc, layers, property, &without)?;
    tally_from(alloc, &without, path, outcome)
}

// Whether a schedule comes before another: it has the lower build at the first turn at which they differ.
fn is_before(one: &[usize], other: &[usize]) -> bool
    ensures { result ≡ is_before one.now other.now }
{
    for turn in 0..one.len().min(other.len()) {
        if one[turn] != other[turn] {
            return one[turn] < other[turn];
        }
    }
    false
}

// The index of the first tally whose first schedule comes after `first`; the number of tallies if there is none.
fn place_for<K>(tallies: &[PathTally<K>], first: &[usize]) -> usize
    ensures { result ≡ place_for first.now (map count_of_tally tallies.now) }
{
    for place in 0..tallies.len() {
        if is_before(first, &tallies[place].first) {
            return place;
        }
    }
    tallies.len()
}

// Inserts a tally, if there is one, in the order of the tallies' first schedules.
fn add<K: Drop>(
    tallies: &mut Vec<PathTally<K>>,
    tally: Option<PathTally<K>>,
) -> Result<(), AllocError>
    ensures { OnOk result (map count_of_tally tallies.new.items ≡ with_tally (option_map count_of_tally tally) (map count_of_tally tallies.old.items)) }
{
    let Some(tally) = tally else {
        return Ok(());
    };
    let place = place_for(tallies, &tally.first);
    tallies.insert(place, tally)?;
    Ok(())
}

// The tallies of the schedules with a refused step, and of the schedules without one.
fn tallies_by_refusal(
    alloc: Global,
    graph: &Graph,
    all: &[Vec<PathNumber>],
) -> Result<Vec<PathTally<bool>>, AllocError>
    ensures { IfOk result (λ by_refusal. ArePathNumbers any_path (layers_of graph.now) (path_numbers_in all.now)
        → map count_of_tally by_refusal.items ≡ whole_tallies graph.now) }
{
    let property = HasRefusal {
        ends: &graph.ends,
        build: None,
    };
    let mut by_refusal = Vec::new(alloc);
    let never_refused = tally_without(alloc, &graph.layers, &property, false)?;
    add(&mut by_refusal, never_refused)?;
    let refused = tally_with(alloc, &graph.layers, all, &property, true)?;
    add(&mut by_refusal, refused)?;
    Ok(by_refusal)
}

// The tally of the schedules that have the step outcome at index `number`, if there are any.
fn end_tally(
    alloc: Global,
    graph: &Graph,
    all: &[Vec<PathNumber>],
    number: usize,
) -> Result<Option<PathTally<EndOfStep>>, AllocError>
    ensures { IfOk result (λ tally. ArePathNumbers any_path (layers_of graph.now) (path_numbers_in all.now)
        → option_map count_of_tally tally ≡ end_tally graph.now number) }
{
    match graph.ends.get(number) {
        Some(end) => tally_with(alloc, &graph.layers, all, &HasEnd(number), *end),
        None => Ok(None),
    }
}

// The tallies of the outcomes of steps.
fn step_ends(
    alloc: Global,
    graph: &Graph,
    all: &[Vec<PathNumber>],
) -> Result<Vec<PathTally<EndOfStep>>, AllocError>
    ensures { IfOk result (λ ends. ArePathNumbers any_path (layers_of graph.now) (path_numbers_in all.now)
        → map count_of_tally ends.items ≡ all_added (end_tally graph.now) (length graph.now.ends.items)) }
{
    let mut ends = Vec::new(alloc);
    for number in 0..graph.ends.len() {
        let tally = end_tally(alloc, graph, all, number)?;
        add(&mut ends, tally)?;
    }
    Ok(ends)
}

// The tally of the schedules in which a build is never refused, if there are any.
fn never_refused_tally(
    alloc: Global,
    graph: &Graph,
    build: usize,
) -> Result<Option<PathTally<usize>>, AllocError>
    ensures { IfOk result (λ tally. option_map count_of_tally tally ≡ never_refused_tally graph.now build) }
{
    let property = HasRefusal {
        ends: &graph.ends,
        build: Some(build),
    };
    tally_without(alloc, &graph.layers, &property, build)
}

// For each build, the tally of the schedules in which the build is never refused, if there are any.
fn never_refused_of(
    alloc: Global,
    graph: &Graph,
    builds: usize,
) -> Result<Vec<PathTally<usize>>, AllocError>
    ensures { IfOk result (λ never_refused. map count_of_tally never_refused.items ≡ all_added (never_refused_tally graph.now) builds) }
{
    let mut never_refused = Vec::new(alloc);
    for build in 0..builds {
        let tally = never_refused_tally(alloc, graph, build)?;
        add(&mut never_refused, tally)?;
    }
    Ok(never_refused)
}

// The tally of the schedules that end with the map at index `map`, if there are any.
fn map_tally(
    alloc: Global,
    graph: &Graph,
    all: &[Vec<PathNumber>],
    map: usize,
) -> Result<Option<PathTally<usize>>, AllocError>
    ensures { IfOk result (λ tally. ArePathNumbers any_path (layers_of graph.now) (path_numbers_in all.now)
        → option_map count_of_tally tally ≡ map_tally graph.now map) }
{
    tally_with(alloc, &graph.layers, all, &HasMap(map), map)
}

// The tallies of the only map of a plan without steps: one schedule, which has no turn.
fn only_map(alloc: Global) -> Result<Vec<PathTally<usize>>, AllocError>
    ensures { IfOk result (λ maps. map count_of_tally maps.items ≡ record { outcome = 0; count = 1; first = [] } ∷ []) }
{
    let mut maps = Vec::new(alloc);
    let count = Count::one(alloc)?;
    let tally = PathTally {
        outcome: 0,
        count,
        first: Vec::new(alloc),
    };
    push(&mut maps, tally)?;
    Ok(maps)
}

// The tallies of the final maps.
fn maps_of(
    alloc: Global,
    graph: &Graph,
    all: &[Vec<PathNumber>],
) -> Result<Vec<PathTally<usize>>, AllocError>
    ensures { IfOk result (λ maps. ArePathNumbers any_path (layers_of graph.now) (path_numbers_in all.now)
        → map count_of_tally maps.items ≡ map_tallies graph.now) }
{
    if graph.layers.len() == 1 {
        return only_map(alloc);
    }
    let mut maps = Vec::new(alloc);
    for map in 0..graph.maps.len() {
        let tally = map_tally(alloc, graph, all, map)?;
        add(&mut maps, tally)?;
    }
    Ok(maps)
}

/// Counts the paths of a state graph by their outcomes. The graph is that of a plan with `builds` builds. The one error
/// is that allocation failed.
pub fn outcomes_of(alloc: Global, builds: usize, graph: &Graph) -> Result<Outcomes, AllocError>
    ensures { IfOk result (AreOutcomes builds graph.now) }
{
    let all = count_all(alloc, &graph.layers)?;
    let by_refusal = tallies_by_refusal(alloc, graph, &all)?;
    let ends = step_ends(alloc, graph, &all)?;
    let never_refused = never_refused_of(alloc, graph, builds)?;
    let maps = maps_of(alloc, graph, &all)?;
    let schedule_count = root_of(alloc, &all)?;
    let steps = StepOutcomes {
        schedule_count,
        by_refusal,
        ends,
        never_refused,
    };
    Ok(Outcomes { steps, maps })
}
