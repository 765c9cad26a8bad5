//! The check that a state graph has an edge for each turn that its plan allows. In each state, each build that has a
//! step left has exactly one edge. Each edge leads to a state of the next layer that fits the edge's turn.
ghost use Rattle.std.specs.Prelude.{◌≡◌, ◌<◌, ◌^◌, [], map, filter, vec_items, slice_get, slice_index_or};
ghost use Rattle.std.specs.Bool.{OnTrue};
ghost use Rattle.std.specs.List.{list_all, range_with_len};
ghost use Rattle.realm_plan.specs.PlanView.{plan_view};
ghost use Rattle.plan_replay.specs.Run.{step_after};
ghost use Rattle.plan_replay.specs.Turn.{undoes_many};
ghost use Rattle.plan_states.specs.Whole.{done_of, has_step_left, is_of_build, takes_many, uses_next, done_after, are_done_after, is_end_refused, number_with, are_over, is_fresh, is_at_start, has_map, leads_to_state, leads_on, states_at, layer_at, IsStateWhole, IsLayerWhole, IsWholeGraph};

use crate::edges::Label;
use crate::graph::{Graph, list_at};
use crate::step_end::EndOfStep;
use host_commands::Step;
use plan_replay::{number_after, step_after};
use realm_plan::{Plan, PlanStep};
use schedule_graph::Edge;

/// The number of steps that each build has done. For a build that gave up, it is greater than the number of any step.
pub type StepsDone = [u16; 8];

// The numbers of the eight builds.
fn all_builds() -> [usize; 8]
    ensures { result ≡ range_with_len 0 8 }
{
    [0, 1, 2, 3, 4, 5, 6, 7]
}

// The number of steps that a build has done.
fn done_of(done: &StepsDone, build: usize) -> usize
    ensures value { result ≡ done_of done.now build }
    ensures fits { result < 2 ^ 16 }
{
    match done.get(build) {
        Some(steps) => usize::from(*steps),
        None => 0,
    }
}

// Whether a build has a step left.
fn has_step_left(plan: &Plan, done: &StepsDone, build: usize) -> bool
    ensures { result ≡ has_step_left (plan_view plan.now) done.now build }
{
    step_after(plan, build, done_of(done, build)).is_some()
}

// Whether there is an edge at index `at`, and its turn is one of build `build`.
fn is_of_build(edges: &[Edge<Label>], at: usize, build: usize) -> bool
    ensures { result ≡ is_of_build build (slice_get edges.now at) }
{
    match edges.get(at) {
        Some(edge) => edge.label.build == build,
        None => false,
    }
}

// Whether the edges are exactly one turn of each build in `builds` that has a step left, in the same sequence.
fn are_of_left(plan: &Plan, done: &StepsDone, builds: &[usize], edges: &[Edge<Label>]) -> bool
    ensures { OnTrue result (map (λ edge. edge.label.build) edges.now ≡ filter (has_step_left (plan_view plan.now) done.now) builds.now) }
{
    let mut at = 0;
    for build in builds {
        if has_step_left(plan, done, *build) {
            if !is_of_build(edges, at, *build) {
                return false;
            }
            at += 1;
        }
    }
    at == edges.len()
}

// Whether a step may undo any number of operations, one in each turn.
fn undoes_many(step: &PlanStep) -> bool
    ensures { result ≡ undoes_many step.now }
{
    matches!(step, PlanStep::Whole(Step::Abort | Step::Back))
}

// Whether the next step of a build that has done `done` steps may take more than one turn.
fn takes_many(plan: &Plan, build: usize, done: usize) -> bool
    ensures { result ≡ takes_many (step_after (plan_view plan.now) build done) }
{
    match step_after(plan, build, done) {
        Some(step) => undoes_many(step),
        None => false,
    }
}

// Whether a turn fits the next step of a build that has done `done` steps. The turn ends that step, or ends none and
// the step may take several turns.
fn uses_next(plan: &Plan, ends: &[EndOfStep], done: usize, label: &Label) -> bool
    ensures { result ≡ uses_next (plan_view plan.now) ends.now label.now.build done label.now.end }
{
    let Some(number) = label.end else {
        return takes_many(plan, label.build, done);
    };
    match ends.get(number) {
        Some(end) => end.build == label.build && end.step == done,
        None => false,
    }
}

// Whether the step outcome at index `number` exists and is a refusal.
fn is_end_refused(ends: &[EndOfStep], number: usize) -> bool
    ensures { result ≡ is_end_refused (slice_get ends.now number) }
{
    match ends.get(number) {
        Some(end) => end.refusal.is_some(),
        None => false,
    }
}

// The number of steps done after a turn in which a step ended with the outcome `end`, or no step ended.
fn number_with(plan: &Plan, ends: &[EndOfStep], done: usize, end: Option<usize>) -> usize
    requires { done < 2 ^ 32 }
    ensures { result ≡ number_with (plan_view plan.now) ends.now done end }
{
    match end {
        Some(number) => number_after(plan.gives_up, is_end_refused(ends, number), done),
        None => done,
    }
}

// The number of steps that a build has done after a turn.
fn done_after(
    plan: &Plan,
    ends: &[EndOfStep],
    done: &StepsDone,
    label: &Label,
    build: usize,
) -> usize
    ensures { result ≡ done_after (plan_view plan.now) ends.now done.now label.now build }
{
    let before = done_of(done, build);
    if build == label.build {
        number_with(plan, ends, before, label.end)
    } else {
        before
    }
}

// Whether `then` is the number of steps that each build has done after a turn.
fn are_done_after(
    plan: &Plan,
    ends: &[EndOfStep],
    done: &StepsDone,
    label: &Label,
    then: &StepsDone,
) -> bool
    ensures { result ≡ are_done_after (plan_view plan.now) ends.now done.now label.now then.now }
{
    for build in 0..8 {
        if done_of(then, build) != done_after(plan, ends, done, label, build) {
            return false;
        }
    }
    true
}

// Whether no build has a step left.
fn are_over(plan: &Plan, done: &StepsDone) -> bool
    ensures { result ≡ are_over (plan_view plan.now) done.now }
{
    for build in 0..8 {
        if has_step_left(plan, done, build) {
            return false;
        }
    }
    true
}

// Whether `map` fits a turn. If no build has a step left after the turn (`over`), `map` is an index below `map_count`,
// and else `None`.
fn has_map(map_count: usize, over: bool, map: Option<usize>) -> bool
    ensures { result ≡ has_map map_count over map }
{
    match map {
        Some(number) => over && number < map_count,
        None => !over,
    }
}

// Whether a turn fits the state that it leads to, in which builds have done as many steps as `then` says.
fn leads_to_state(
    plan: &Plan,
    ends: &[EndOfStep],
    map_count: usize,
    done: &StepsDone,
    label: &Label,
    then: &StepsDone,
) -> bool
    ensures { result ≡ leads_to_state (plan_view plan.now) ends.now map_count done.now label.now then.now }
{
    uses_next(plan, ends, done_of(done, label.build), label)
        && are_done_after(plan, ends, done, label, then)
        && has_map(map_count, are_over(plan, then), label.map)
}

// Whether an edge leads to a state of the next layer, and the state fits the edge's turn.
fn leads_on(
    plan: &Plan,
    ends: &[EndOfStep],
    map_count: usize,
    done: &StepsDone,
    next: &[StepsDone],
    edge: &Edge<Label>,
) -> bool
    ensures { result ≡ leads_on (plan_view plan.now) ends.now map_count done.now next.now edge.now }
{
    match next.get(edge.to) {
        Some(then) => leads_to_state(plan, ends, map_count, done, &edge.label, then),
        None => false,
    }
}

// Whether each edge leads to a state of the next layer, and the state fits the edge's turn.
fn all_lead_on(
    plan: &Plan,
    ends: &[EndOfStep],
    map_count: usize,
    done: &StepsDone,
    next: &[StepsDone],
    edges: &[Edge<Label>],
) -> bool
    ensures { result ≡ list_all (leads_on (plan_view plan.now) ends.now map_count done.now next.now) edges.now }
{
    for edge in edges {
        if !leads_on(plan, ends, map_count, done, next, edge) {
            return false;
        }
    }
    true
}

// Whether a state has an edge for each build with a step left, and each edge leads to a state that fits its turn.
fn is_state_whole(
    plan: &Plan,
    ends: &[EndOfStep],
    map_count: usize,
    done: &StepsDone,
    next: &[StepsDone],
    edges: &[Edge<Label>],
) -> bool
    ensures { OnTrue result (IsStateWhole (plan_view plan.now) ends.now map_count done.now next.now edges.now) }
{
    let builds = all_builds();
    if !are_of_left(plan, done, &builds, edges) {
        return false;
    }
    all_lead_on(plan, ends, map_count, done, next, edges)
}

/// Returns the edges that lead from a state of a layer. There are none if there is no such state.
pub(crate) fn edges_at(layer: &[Vec<Edge<Label>>], state: usize) -> &[Edge<Label>]
    ensures { result.now ≡ slice_index_or (map vec_items layer.now) state [] }
{
    list_at(layer, state)
}

// Whether a layer has states, and each is whole.
fn is_layer_whole(
    plan: &Plan,
    ends: &[EndOfStep],
    map_count: usize,
    states: &[StepsDone],
    next: &[StepsDone],
    layer: &[Vec<Edge<Label>>],
) -> bool
    ensures { OnTrue result (IsLayerWhole (plan_view plan.now) ends.now map_count states.now next.now layer.now) }
{
    if states.is_empty() || states.len() != layer.len() {
        return false;
    }
    for place in 0..states.len() {
        let edges = edges_at(layer, place);
        if !is_state_whole(plan, ends, map_count, &states[place], next, edges) {
            return false;
        }
    }
    true
}

// The states of a layer, each as the number of steps that each build has done; empty if there is no such layer.
fn states_at(graph: &Graph, depth: usize) -> &[StepsDone]
    ensures { result.now ≡ states_at graph.now depth }
{
    list_at(&graph.progress, depth)
}

/// Returns the layer of a state graph at index `depth`, or an empty layer if there is none.
pub(crate) fn layer_at(graph: &Graph, depth: usize) -> &[Vec<Edge<Label>>]
    ensures { result.now ≡ layer_at graph.now depth }
{
    list_at(&graph.layers, depth)
}

// The outcomes of steps that a graph lists.
fn ends_of(graph: &Graph) -> &[EndOfStep]
    ensures { result.now ≡ graph.now.ends.items }
{
    &graph.ends
}

// Whether no build has done a step.
fn is_fresh(done: &StepsDone) -> bool
    ensures { result ≡ is_fresh done.now }
{
    for build in 0..8 {
        if done_of(done, build) != 0 {
            return false;
        }
    }
    true
}

// Whether a layer has a single state, in which no build has done a step.
fn is_at_start(states: &[StepsDone]) -> bool
    ensures { result ≡ is_at_start states.now }
{
    match states.get(0) {
        Some(done) => states.len() == 1 && is_fresh(done),
        None => false,
    }
}

/// Returns whether a state graph is whole: it has one first state, at least one final map, and one edge from each state
/// for each build with a step left.
pub(crate) fn is_whole(plan: &Plan, graph: &Graph) -> bool
    ensures { OnTrue result (IsWholeGraph (plan_view plan.now) graph.now) }
{
    if graph.progress.len() != graph.layers.len() || graph.maps.is_empty() {
        return false;
    }
    if !is_at_start(states_at(graph, 0)) {
        return false;
    }
    for depth in 0..graph.layers.len() {
        let states = states_at(graph, depth);
        let next = states_at(graph, depth + 1);
        let layer = layer_at(graph, depth);
        if !is_layer_whole(plan, ends_of(graph), graph.maps.len(), states, next, layer) {
            return false;
        }
    }
    true
}
