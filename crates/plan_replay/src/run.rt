//! The run of a plan's turns, and the output line of each turn.
ghost use Rattle.std.specs.Prelude.{◌≡◌, ◌<◌, ◌≤◌, OnErr, OnOk, IfSome, string_bytes, vec_len, option_map};
ghost use Rattle.realm_plan.specs.PlanView.{plan_view};
ghost use Rattle.plan_replay.specs.Place.{giving_up};
ghost use Rattle.plan_replay.specs.Run.{given_up, step_numbered, step_after as nth_step, IsTurn, IsTurnOfBuild, IsReportedTurn, IsReportedRun, IsRunBegun};

use crate::answer::{TurnAnswer, push_turn};
use crate::place::{GIVING_UP, PlanCursor};
use crate::turn::plan_turn;
use granule_addr::BuildId;
use page_arena::PageStore;
use realm_host::Host;
use realm_plan::{Plan, PlanStep, push_idle};
use std::alloc::AllocError;

// The abort of a build that gives up, if `number` is `GIVING_UP`.
fn given_up(plan: &Plan, number: usize) -> Option<&PlanStep>
    ensures { option_map (λ step. step.now) result ≡ given_up number }
{
    if number == GIVING_UP {
        Some(&plan.abort)
    } else {
        None
    }
}

// The step with a given number among the steps of a build, or `None` if there is none.
fn step_numbered<'a>(plan: &'a Plan, steps: &'a [PlanStep], number: usize) -> Option<&'a PlanStep>
    ensures { option_map (λ step. step.now) result ≡ step_numbered plan.now.gives_up steps.now number }
{
    if plan.gives_up && number >= GIVING_UP {
        given_up(plan, number)
    } else {
        steps.get(number)
    }
}

/// Returns the next step of a build that has done `done` steps, or `None` if no step is left. In a plan that gives up,
/// an abort follows a refused step.
pub fn step_after(plan: &Plan, build: usize, done: usize) -> Option<&PlanStep>
    ensures value { option_map (λ step. step.now) result ≡ nth_step (plan_view plan.now) build done }
    ensures few { IfSome result (λ _. done ≤ giving_up) }
{
    match plan.builds.get(build) {
        Some(steps) => step_numbered(plan, steps, done),
        None => None,
    }
}

/// Performs one turn of a build in a plan's run. Returns the step with its answer, or `None` if no step was left.
pub fn take_turn<'a, S: PageStore>(
    host: &mut Host<S>,
    plan: &'a Plan,
    places: &mut [PlanCursor; 8],
    build: usize,
) -> Option<(&'a PlanStep, TurnAnswer)>
    requires { build < vec_len plan.now.builds }
    ensures { IsTurn (plan_view plan.now) (record { host = host.old; places = places.old })
        (record { build = build; told = option_map (λ told. (told.0.now, told.1)) result }) (record { host = host.new; places = places.new }) }
{
    let mut place = places[build];
    let step = step_after(plan, build, place.done)?;
    let answer = plan_turn(host, BuildId::at(build), &mut place, step);
    place.move_on(plan.gives_up, &answer);
    places[build] = place;
    Some((step, answer))
}

// Takes one turn of a build, and appends its line.
fn turn<S: PageStore>(
    host: &mut Host<S>,
    plan: &Plan,
    places: &mut [PlanCursor; 8],
    build: usize,
    text: &mut String,
) -> Result<(), AllocError>
    requires { build < vec_len plan.now.builds }
    ensures taken { IsTurnOfBuild (plan_view plan.now) (record { host = host.old; places = places.old }) build
        (record { host = host.new; places = places.new }) }
    ensures ok { OnOk result (IsReportedTurn (plan_view plan.now) (record { host = host.old; places = places.old }) build
        (record { host = host.new; places = places.new }) (string_bytes text.old) (string_bytes text.new)) }
{
    match take_turn(host, plan, places, build) {
        Some((step, answer)) => push_turn(text, BuildId::at(build), step, answer),
        None => push_idle(text, BuildId::at(build)),
    }
}

/// Performs all turns of a plan, and appends an output line for each. An `Err` means that allocation failed. The host
/// has then done only the first turns of the plan, and the text has only their first lines.
pub fn run_turns<S: PageStore>(
    host: &mut Host<S>,
    plan: &Plan,
    text: &mut String,
) -> Result<(), AllocError>
    ensures ok { OnOk result (IsReportedRun (plan_view plan.now) host.old host.new (string_bytes text.old) (string_bytes text.new)) }
    ensures err { OnErr result (IsRunBegun (plan_view plan.now) host.old host.new) }
{
    let mut places = [PlanCursor::first(); 8];
    for build in &plan.order {
        turn(host, plan, &mut places, build.number() as usize, text)?;
    }
    Ok(())
}
