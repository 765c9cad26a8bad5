//! The outcomes of a plan's schedules, as text.
ghost use Rattle.std.specs.Prelude.{◌≡◌, ◌++◌, OnOk, IfOk, IfErr, string_bytes};
ghost use Rattle.std.specs.List.{flat_map, range_with_len};
ghost use Rattle.realm_plan.specs.PlanView.{plan_view};
ghost use Rattle.plan_states.specs.Exploration.{HasNoGraph};
ghost use Rattle.plan_states.specs.StatesText.{too_many_line, IsGraphText, IsStatesText};
ghost use Rattle.plan_states.specs.Lines.{step_number, ends_of_build, never_refused_lines, map_shown_by, step_outcomes_text, outcomes_text};

use crate::graph::{Exploration, Graph, explore};
use crate::lines::{
    push_by_refusal, push_count, push_give_ups, push_map, push_never_refused_tallies, push_step,
};
use crate::outcomes::outcomes_of;
use crate::tally::{Outcomes, PathTally, StepOutcomes};
use realm_plan::Plan;
use realm_program::Fault;
use schedule_graph::Count;
use std::alloc::{AllocError, Global};

// The number of steps of a build.
fn step_number(plan: &Plan, build: usize) -> usize
    ensures { result ≡ step_number (plan_view plan.now) build }
{
    match plan.builds.get(build) {
        Some(steps) => steps.len(),
        None => 0,
    }
}

// Appends the lines for the outcomes of a build's steps, and of its abort if it gives up.
fn push_build(
    text: &mut String,
    plan: &Plan,
    outcomes: &StepOutcomes,
    build: usize,
) -> Result<(), AllocError>
    ensures { OnOk result (string_bytes text.new ≡ string_bytes text.old ++ ends_of_build (plan_view plan.now) outcomes.now build) }
{
    for place in 0..step_number(plan, build) {
        push_step(text, plan, outcomes, build, place)?;
    }
    push_give_ups(text, plan, outcomes, build)
}

// Appends the lines for the outcomes of the steps of the first `builds` builds.
fn push_builds(
    text: &mut String,
    plan: &Plan,
    outcomes: &StepOutcomes,
    builds: usize,
) -> Result<(), AllocError>
    ensures { OnOk result (string_bytes text.new ≡ string_bytes text.old ++ flat_map (ends_of_build (plan_view plan.now) outcomes.now) (range_with_len 0 builds)) }
{
    for build in 0..builds {
        push_build(text, plan, outcomes, build)?;
    }
    Ok(())
}

// Appends a line for each of the first `builds` builds, with the number of schedules in which it was never refused.
fn push_all_never_refused(
    text: &mut String,
    schedule_count: &Count,
    never_refused: &[PathTally<usize>],
    builds: usize,
) -> Result<(), AllocError>
    ensures { OnOk result (string_bytes text.new ≡ string_bytes text.old ++ flat_map (never_refused_lines schedule_count.now never_refused.now) (range_with_len 0 builds)) }
{
    for build in 0..builds {
        push_never_refused_tallies(text, schedule_count, never_refused, build)?;
    }
    Ok(())
}

// Appends the final map of a tally, and the number of schedules with it, if `maps` has the map.
fn push_map_of(
    text: &mut String,
    schedule_count: &Count,
    maps: &[String],
    tally: &PathTally<usize>,
) -> Result<(), AllocError>
    ensures { OnOk result (string_bytes text.new ≡ string_bytes text.old ++ map_shown_by schedule_count.now maps.now tally.now) }
{
    match maps.get(tally.outcome) {
        Some(map) => push_map(text, schedule_count, map, tally),
        None => Ok(()),
    }
}

// Appends the final maps, each with the number of schedules that end with it.
fn push_maps(
    text: &mut String,
    schedule_count: &Count,
    maps: &[String],
    tallies: &[PathTally<usize>],
) -> Result<(), AllocError>
    ensures { OnOk result (string_bytes text.new ≡ string_bytes text.old ++ flat_map (map_shown_by schedule_count.now maps.now) tallies.now) }
{
    for map in tallies {
        push_map_of(text, schedule_count, maps, map)?;
    }
    Ok(())
}

/// Appends the tallies of step outcomes as lines of text. First come the schedules with and without a refused step.
/// Next come each build's steps, and its abort if builds give up. Last comes a line for each build, with the schedules
/// in which it was never refused. Each line has a count and the first such schedule, or else `in all` or `in 0`.
///
/// The one error is that allocation failed; the text may then have a part of the lines.
pub fn push_step_outcomes(
    text: &mut String,
    plan: &Plan,
    outcomes: &StepOutcomes,
) -> Result<(), AllocError>
    ensures { OnOk result (string_bytes text.new ≡ string_bytes text.old ++ step_outcomes_text (plan_view plan.now) outcomes.now) }
{
    let builds = plan.builds.len();
    let schedule_count = &outcomes.schedule_count;
    push_by_refusal(text, schedule_count, &outcomes.by_refusal)?;
    push_builds(text, plan, outcomes, builds)?;
    push_all_never_refused(text, schedule_count, &outcomes.never_refused, builds)
}

/// Appends the outcomes of all schedules of a plan: the number of schedules, the outcomes of steps, and the final maps.
/// The one error is that allocation failed; the text may then have a part of the outcomes.
pub fn push_outcomes(
    text: &mut String,
    plan: &Plan,
    maps: &[String],
    outcomes: &Outcomes,
) -> Result<(), AllocError>
    ensures { OnOk result (string_bytes text.new ≡ string_bytes text.old ++ outcomes_text (plan_view plan.now) maps.now outcomes.now) }
{
    let schedule_count = &outcomes.steps.schedule_count;
    push_count(text, schedule_count)?;
    push_step_outcomes(text, plan, &outcomes.steps)?;
    push_maps(text, schedule_count, maps, &outcomes.maps)
}

// The text of the outcomes of a plan's graph.
fn graph_text(alloc: Global, plan: &Plan, graph: &Graph) -> Result<String, AllocError>
    ensures { IfOk result (λ text. IsGraphText (plan_view plan.now) graph.now (string_bytes text)) }
{
    let mut text = String::new(alloc);
    let outcomes = outcomes_of(alloc, plan.builds.len(), graph)?;
    push_outcomes(&mut text, plan, &graph.maps, &outcomes)?;
    Ok(text)
}

/// Returns the line of text that says that a state graph has more than `most` states. The one error is that allocation
/// failed.
pub fn too_many_text(alloc: Global, most: usize) -> Result<String, AllocError>
    ensures { IfOk result (λ text. string_bytes text ≡ too_many_line most) }
{
    let mut text = String::new(alloc);
    writeln!(text, "states more than {most}")?;
    Ok(text)
}

/// Returns the outcomes of a plan's schedules, as text. If the graph has more than `most` states, the text is a line
/// that says so.
///
/// Errors. `Memory`: allocation failed. `Mismatch`: a run contradicts an earlier run, a turn is missing in the graph,
/// or the graph lists a step outcome or a map twice. No mismatch happens on a host that gives the same answers to the
/// same calls.
pub fn states_text(alloc: Global, plan: &Plan, most: usize) -> Result<String, Fault>
    ensures ok { IfOk result (λ text. IsStatesText most (plan_view plan.now) (string_bytes text)) }
    ensures err { IfErr result HasNoGraph }
{
    match explore(alloc, plan, most)? {
        Exploration::All(graph) => Ok(graph_text(alloc, plan, &graph)?),
        Exploration::TooMany => Ok(too_many_text(alloc, most)?),
    }
}
