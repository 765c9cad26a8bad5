//! The search for a shortest schedule whose last turn has a given property.
ghost use Rattle.std.specs.Prelude.{◌≡◌, ◌<◌, ◌++◌, ◌∷◌, ℕ, List, true, false, [], map, length, option_map, vec_items, IfOk, IfErr, OnOk};
ghost use Rattle.realm_plan.specs.PlanView.{plan_view};
ghost use Rattle.schedule_graph.specs.First.{layers_in};
ghost use Rattle.plan_states.specs.Exploration.{HasNoGraph};
ghost use Rattle.schedule_graph.specs.Paths.{shows};
ghost use Rattle.plan_states.specs.Questions.{is_answer_at};
ghost use Rattle.plan_states.specs.Reached.{IsReached};
ghost use Rattle.plan_states.specs.RunLog.{position_of};
ghost use Rattle.plan_states.specs.Shortest.{cut_after, first_layer, is_answer_in, is_answered, layer_shows, shortest_tally, EndsWithAnswer, EndsWithoutAnswer, IsUnanswered, IsWitness};
ghost use Rattle.plan_states.specs.Tallies.{count_of_tally, paths_of, tally_of};
ghost use Rattle.plan_states.specs.Turned.{end_taken};

use crate::edges::Label;
use crate::graph::{Exploration, Graph, Layer, explore, list_at, push};
use crate::outcomes::tally_with;
use crate::question::{AnswersQuestion, TurnQuestion, pages_of_builds};
use crate::running::{Running, TurnTaken, run_to, take};
use crate::step_end::EndOfStep;
use crate::tally::PathTally;
use realm_plan::Plan;
use realm_program::Fault;
use schedule_graph::{Edge, LabelProperty, count_all};
use std::alloc::{AllocError, Global};

/// The result of a search for a schedule whose last turn has a requested property.
#[derive(Drop)]
pub enum Witness {
    /// A schedule whose last turn has the requested property.
    Found(Vec<usize>),
    /// The result if no turn of any schedule has the requested property.
    Never,
    /// The result if the state graph has more states than the caller allowed.
    TooMany,
}

// Whether some edge has the property `property`.
fn edges_show(edges: &[Edge<Label>], property: &AnswersQuestion) -> bool
    ensures { result ≡ shows (is_answer_at property.now.ends.now property.now.held.now property.now.builds property.now.question) edges.now }
{
    for edge in edges {
        if property.holds_for(&edge.label) {
            return true;
        }
    }
    false
}

// Whether some edge of a layer has the property `property`.
fn layer_shows(layer: &[Vec<Edge<Label>>], property: &AnswersQuestion) -> bool
    ensures { result ≡ layer_shows (is_answer_at property.now.ends.now property.now.held.now property.now.builds property.now.question) layer.now }
{
    for edges in layer {
        if edges_show(edges, property) {
            return true;
        }
    }
    false
}

// The index of the first layer that has an edge with the property `property`.
fn first_layer(layers: &[Layer], property: &AnswersQuestion) -> Option<usize>
    ensures { result ≡ first_layer (is_answer_at property.now.ends.now property.now.held.now property.now.builds property.now.question) layers.now }
{
    for depth in 0..layers.len() {
        if layer_shows(&layers[depth], property) {
            return Some(depth);
        }
    }
    None
}

// The index of the first layer with a turn that answers a question, in the graph of a plan with `builds` builds.
fn first_answered(graph: &Graph, builds: usize, question: TurnQuestion) -> Option<usize>
    ensures { result ≡ first_layer (is_answer_in graph.now builds question) graph.now.layers.items }
{
    let property = AnswersQuestion {
        ends: &graph.ends,
        held: &graph.held,
        builds,
        question,
    };
    first_layer(&graph.layers, &property)
}

// Whether some turn in the graph of a plan with `builds` builds answers a question.
fn is_answered(graph: &Graph, builds: usize, question: TurnQuestion) -> bool
    ensures { result ≡ is_answered graph.now builds question }
{
    first_answered(graph, builds, question).is_some()
}

// The states of a layer, without edges.
fn without_edges(alloc: Global, layer: &[Vec<Edge<Label>>]) -> Result<Layer, AllocError>
    ensures { IfOk result (λ bare. map vec_items bare.items ≡ map (λ edges. []) layer.now) }
{
    let mut bare = Vec::new(alloc);
    for _edges in layer {
        push(&mut bare, Vec::new(alloc))?;
    }
    Ok(bare)
}

// Cuts layers after layer `depth`, and adds the states of the next layer without edges.
fn cut_after(alloc: Global, layers: &mut Vec<Layer>, depth: usize) -> Result<(), AllocError>
    requires { depth < length layers.old.items }
    ensures { OnOk result (layers_in layers.new.items ≡ cut_after depth (layers_in layers.old.items)) }
{
    let states = without_edges(alloc, list_at(layers, depth + 1))?;
    layers.truncate(depth + 1);
    push(layers, states)
}

// The tally of the paths with a turn that answers a question, in the graph of a plan with `builds` builds, if there are
// any.
fn answered_tally(
    alloc: Global,
    graph: &Graph,
    builds: usize,
    question: TurnQuestion,
) -> Result<Option<PathTally<TurnQuestion>>, AllocError>
    ensures { IfOk result (λ tally. option_map count_of_tally tally ≡ tally_of (shows (is_answer_in graph.now builds question)) question (paths_of graph.now)) }
{
    let property = AnswersQuestion {
        ends: &graph.ends,
        held: &graph.held,
        builds,
        question,
    };
    let all = count_all(alloc, &graph.layers)?;
    tally_with(alloc, &graph.layers, &all, &property, question)
}

// The tally of the shortest paths that answer a question, in the graph of a plan with `builds` builds, if there are
// any.
fn shortest_tally(
    alloc: Global,
    graph: Graph,
    builds: usize,
    question: TurnQuestion,
) -> Result<Option<PathTally<TurnQuestion>>, AllocError>
    ensures { IfOk result (λ tally. option_map count_of_tally tally ≡ shortest_tally graph builds question) }
{
    let Some(depth) = first_answered(&graph, builds, question) else {
        return Ok(None);
    };
    let mut graph = graph;
    cut_after(alloc, &mut graph.layers, depth)?;
    answered_tally(alloc, &graph, builds, question)
}

// The outcome of the step that a turn of `build` ended, if any.
fn end_of(taken: &TurnTaken, build: usize) -> Option<EndOfStep>
    ensures { result ≡ end_taken build taken.now }
{
    if taken.before == taken.after {
        return None;
    }
    Some(EndOfStep {
        build,
        step: taken.before,
        refusal: taken.refusal,
    })
}

// Whether the next turn of a build answers a question. The result is `false` if the build has no step left.
fn answers_next(plan: &Plan, running: &mut Running, build: usize, question: TurnQuestion) -> bool
    ensures yes { (before : List ℕ) → IsReached (plan_view plan.now) before (position_of running.old)
        → result ≡ true → EndsWithAnswer (plan_view plan.now) question (before ++ build ∷ []) }
    ensures no { (before : List ℕ) → IsReached (plan_view plan.now) before (position_of running.old)
        → result ≡ false → EndsWithoutAnswer (plan_view plan.now) question (before ++ build ∷ []) }
{
    let Some(taken) = take(&mut running.host, plan, &mut running.places, build) else {
        return false;
    };
    let end = end_of(&taken, build);
    let held = pages_of_builds(&running.host);
    question.is_answer(plan.builds.len(), end, &held)
}

/// Returns whether the answer to a question about a schedule's last turn is yes. The result is `false` if the schedule
/// is empty, or if the last turn's build has no step left.
///
/// Errors. `Memory`: allocation failed. `Mismatch`: a turn before the last is of a build that has no step left then.
pub fn answers(
    alloc: Global,
    plan: &Plan,
    schedule: &[usize],
    question: TurnQuestion,
) -> Result<bool, Fault>
    ensures yes { IfOk result (λ does. does ≡ true → EndsWithAnswer (plan_view plan.now) question schedule.now) }
    ensures no { IfOk result (λ does. does ≡ false → IsUnanswered (plan_view plan.now) question schedule.now) }
    ensures err { IfErr result HasNoGraph }
{
    let Some((last, before)) = schedule.split_last() else {
        return Ok(false);
    };
    let mut running = run_to(alloc, plan, before)?;
    Ok(answers_next(plan, &mut running, *last, question))
}

/// Finds the first of the shortest schedules whose last turn has a requested property. `question` asks for the
/// property. The result is `TooMany` if the graph has more than `most` states.
///
/// Errors. `Memory`: allocation failed. `Mismatch`: a run contradicts an earlier run, a turn is missing in the graph,
/// or the graph lists a step outcome or a map twice. No mismatch happens on a host that gives the same answers to the
/// same calls.
pub fn shortest_answer(
    alloc: Global,
    plan: &Plan,
    most: usize,
    question: TurnQuestion,
) -> Result<Witness, Fault>
    ensures ok { IfOk result (IsWitness (plan_view plan.now) most question) }
    ensures err { IfErr result HasNoGraph }
{
    let Exploration::All(graph) = explore(alloc, plan, most)? else {
        return Ok(Witness::TooMany);
    };
    let builds = plan.builds.len();
    if !is_answered(&graph, builds, question) {
        return Ok(Witness::Never);
    }
    let Some(tally) = shortest_tally(alloc, graph, builds, question)? else {
        return Err(Fault::Mismatch);
    };
    let PathTally { first, .. } = tally;
    if !answers(alloc, plan, &first, question)? {
        return Err(Fault::Mismatch);
    }
    Ok(Witness::Found(first))
}
