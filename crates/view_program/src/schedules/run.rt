//! Runs the builds of a plan on a host, one after another. Each build has all its turns before the next build has one.
ghost use Rattle.std.specs.Prelude.{◌≡◌, ◌^◌, ◌<◌, true, OnOk, vec_len};
ghost use Rattle.realm_plan.specs.PlanView.{plan_view};
ghost use Rattle.plan_replay.specs.Run.{place_of};
ghost use Rattle.view_program.specs.Chosen.{has_left, builds_left, lowest_of, refusal_in, IsStageTurn};
ghost use Rattle.view_program.specs.Chosen.{IsChosenRun, GoesOnTo, stage_at};
ghost use Rattle.view_program.specs.Rotation.{AreOneByOne};
ghost use Rattle.view_program.specs.TurnsLeft.{AreSteady, turns_left};

use crate::schedules::choice::Choice;
use host_commands::Refusal;
use page_arena::PageStore;
use plan_replay::{PlanCursor, TurnAnswer, step_after, take_turn};
use plan_states::EndOfStep;
use realm_host::Host;
use realm_plan::Plan;
use std::alloc::AllocError;

// The cursor of a build in its plan.
fn place_at(places: &[PlanCursor; 8], build: usize) -> PlanCursor
    requires { build < 8 }
    ensures value { result ≡ place_of places.now build }
    ensures fits { result.left < 2 ^ 16 }
{
    let _left = places[build].left;
    places[build]
}

/// Returns, for each of eight builds, whether it has a step left.
#[tactic(auto, unfolding(crate::specs::Chosen::builds_left))]
pub(crate) fn builds_left(plan: &Plan, places: &[PlanCursor; 8]) -> [bool; 8]
    ensures { result ≡ builds_left (plan_view plan.now) places.now }
{
    let mut left = [false; 8];
    for build in 0..8 {
        left[build] = step_after(plan, build, places[build].done).is_some();
    }
    left
}

/// Finds the lowest-numbered build that has a step left, if there is one.
#[tactic(auto, unfolding(crate::specs::Chosen::lowest_of))]
pub(crate) fn lowest_of(left: &[bool; 8]) -> Option<usize>
    ensures { result ≡ lowest_of left.now }
{
    (0..8).find(|build| left[*build])
}

fn refusal_in(answer: TurnAnswer) -> Option<Refusal>
    ensures { result ≡ refusal_in answer }
{
    match answer {
        TurnAnswer::Refused(refusal) => Some(refusal),
        _ => None,
    }
}

/// Takes one turn of a build that has a step left. If the turn uses the step up, the outcome of the step is recorded.
pub(crate) fn take_step<S: PageStore>(
    host: &mut Host<S>,
    plan: &Plan,
    places: &mut [PlanCursor; 8],
    ends: &mut Vec<EndOfStep>,
    build: usize,
) -> Result<(), AllocError>
    requires left { (build < 8) × (has_left (plan_view plan.now) places.old build ≡ true) }
    requires steady { AreSteady (plan_view plan.now) places.old }
    ensures step { OnOk result (IsStageTurn (plan_view plan.now) (stage_at host.old places.old ends.old.items)
        build (stage_at host.new places.new ends.new.items)) }
    ensures steady { AreSteady (plan_view plan.now) places.new }
    ensures fewer { turns_left plan.now.gives_up (plan_view plan.now).builds places.new < turns_left plan.now.gives_up (plan_view plan.now).builds places.old }
{
    let before = places[build].done;
    let Some((_step, answer)) = take_turn(host, plan, places, build) else {
        unreachable!()
    };
    let after = place_at(places, build);
    if after.done != before {
        ends.push(EndOfStep {
            build,
            step: before,
            refusal: refusal_in(answer),
        })?;
    }
    Ok(())
}

// Lets the lowest build with a step left take each turn, until no build has one.
fn go_on<S: PageStore>(
    host: &mut Host<S>,
    plan: &Plan,
    places: &mut [PlanCursor; 8],
    ends: &mut Vec<EndOfStep>,
    choices: &mut Vec<Choice>,
) -> Result<(), AllocError>
    requires steady { AreSteady (plan_view plan.now) places.old }
    ensures { OnOk result (GoesOnTo (plan_view plan.now) (stage_at host.old places.old ends.old.items)
        choices.old.items choices.new.items (stage_at host.new places.new ends.new.items)) }
{
    let mut left = builds_left(plan, places);
    while let Some(build) = lowest_of(&left) {
        choices.push(Choice { build, left })?;
        take_step(host, plan, places, ends, build)?;
        left = builds_left(plan, places);
    }
    Ok(())
}

/// Runs the builds of a plan on a host, one after another. Each turn goes to the lowest-numbered build that has a step
/// left. The choices are then those of the whole schedule, and the outcome of each step is recorded. The one error is
/// that allocation failed; the run is then cut short.
pub(crate) fn run_one_by_one<S: PageStore>(
    host: &mut Host<S>,
    plan: &Plan,
    choices: &mut Vec<Choice>,
    ends: &mut Vec<EndOfStep>,
) -> Result<(), AllocError>
    ensures { OnOk result (AreOneByOne choices.new.items
        × IsChosenRun (plan_view plan.now) host.old choices.new.items host.new ends.new.items) }
{
    choices.clear();
    ends.clear();
    let mut places = [PlanCursor::first(); 8];
    go_on(host, plan, &mut places, ends, choices)
}
