//! Runs a plan on a host, with a schedule that is drawn at random.
ghost use Rattle.std.specs.Prelude.{◌≡◌, [], OnOk, IfSome, IfNone};
ghost use Rattle.rand_core.specs.Stream.{next_u32};
ghost use Rattle.realm_plan.specs.PlanView.{plan_view};
ghost use Rattle.view_program.specs.Chosen.{IsChosenRun, stage_at};
ghost use Rattle.view_program.specs.Drawn.{builds_with_steps, drawn, AreDrawn, IsDrawnTo};
ghost use Rattle.view_program.specs.TurnsLeft.{AreSteady};

use crate::schedules::choice::Choice;
use crate::schedules::run::{builds_left, take_step};
use arrayvec::ArrayVec;
use page_arena::PageStore;
use plan_replay::PlanCursor;
use plan_states::EndOfStep;
use rand_core::Rng;
use realm_host::Host;
use realm_plan::Plan;
use std::alloc::AllocError;

// The builds that have a step left.
#[tactic(auto, unfolding(crate::specs::Drawn::builds_with_steps))]
fn builds_with_steps(left: &[bool; 8]) -> ArrayVec<usize, 8>
    ensures { result.items ≡ builds_with_steps left.now }
{
    let mut builds = ArrayVec::new();
    for build in 0..8 {
        if left[build] {
            builds.push(build);
        }
    }
    builds
}

// Draws one of the builds that have a step left. If none has, no number is used up.
fn draw<R: Rng>(rng: &mut R, left: &[bool; 8]) -> Option<usize>
    ensures value { result ≡ drawn (R.stream rng.old) left.now }
    ensures used { IfSome result (λ _. R.stream rng.new ≡ (next_u32 (R.stream rng.old)).1) }
    ensures unused { IfNone result (R.stream rng.new ≡ R.stream rng.old) }
{
    let builds = builds_with_steps(left);
    if builds.is_empty() {
        return None;
    }
    let place = rng.next_u32() as usize % builds.len();
    builds.get(place).copied()
}

// Lets builds that are drawn at random take turns, until no build has a step left.
fn go_on_drawn<S: PageStore, R: Rng>(
    host: &mut Host<S>,
    plan: &Plan,
    places: &mut [PlanCursor; 8],
    rng: &mut R,
    choices: &mut Vec<Choice>,
    ends: &mut Vec<EndOfStep>,
) -> Result<(), AllocError>
    requires steady { AreSteady (plan_view plan.now) places.old }
    requires none { choices.old.items ≡ [] }
    ensures { OnOk result (IsDrawnTo (plan_view plan.now) (R.stream rng.old) (stage_at host.old places.old ends.old.items)
        choices.new.items (stage_at host.new places.new ends.new.items) (R.stream rng.new)) }
{
    let mut left = builds_left(plan, places);
    while let Some(build) = draw(rng, &left) {
        choices.push(Choice { build, left })?;
        take_step(host, plan, places, ends, build)?;
        left = builds_left(plan, places);
    }
    Ok(())
}

/// Runs a plan on a host, with a schedule that is drawn at random. The build of each turn is drawn from those that have
/// a step left, until none has one. The choices are then those of the whole schedule, and the outcome of each step is
/// recorded. The one error is that allocation failed; the run is then cut short.
pub fn run_drawn<S: PageStore, R: Rng>(
    host: &mut Host<S>,
    plan: &Plan,
    rng: &mut R,
    choices: &mut Vec<Choice>,
    ends: &mut Vec<EndOfStep>,
) -> Result<(), AllocError>
    ensures { OnOk result (AreDrawn (R.stream rng.old) choices.new.items (R.stream rng.new)
        × IsChosenRun (plan_view plan.now) host.old choices.new.items host.new ends.new.items) }
{
    choices.clear();
    ends.clear();
    let mut places = [PlanCursor::first(); 8];
    go_on_drawn(host, plan, &mut places, rng, choices, ends)
}
