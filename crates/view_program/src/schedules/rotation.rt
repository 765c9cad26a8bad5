//! The run of a plan in which builds take turns in rotation.
ghost use Rattle.std.specs.Prelude.{◌≡◌, [], OnOk};
ghost use Rattle.realm_plan.specs.PlanView.{plan_view};
ghost use Rattle.view_program.specs.Chosen.{IsChosenRun, stage_at};
ghost use Rattle.view_program.specs.Rotation.{in_rotation, lowest_from, AreInRotation, IsRotatedTo};
ghost use Rattle.view_program.specs.TurnsLeft.{AreSteady};

use crate::schedules::choice::Choice;
use crate::schedules::run::{builds_left, lowest_of, take_step};
use page_arena::PageStore;
use plan_replay::PlanCursor;
use plan_states::EndOfStep;
use realm_host::Host;
use realm_plan::Plan;
use std::alloc::AllocError;

// The lowest build from `from` on that has a step left.
fn lowest_from(from: usize, left: &[bool; 8]) -> Option<usize>
    ensures { result ≡ lowest_from from left.now }
{
    (0..8).find(|build| *build >= from && left[*build])
}

// The build whose turn it is when the rotation has reached `from`.
fn in_rotation(from: usize, left: &[bool; 8]) -> Option<usize>
    ensures { result ≡ in_rotation from left.now }
{
    match lowest_from(from, left) {
        Some(build) => Some(build),
        None => lowest_of(left),
    }
}

// Lets builds take turns in rotation, until no build has a step left.
fn go_on_in_rotation<S: PageStore>(
    host: &mut Host<S>,
    plan: &Plan,
    places: &mut [PlanCursor; 8],
    choices: &mut Vec<Choice>,
    ends: &mut Vec<EndOfStep>,
) -> Result<(), AllocError>
    requires steady { AreSteady (plan_view plan.now) places.old }
    requires none { choices.old.items ≡ [] }
    ensures { OnOk result (IsRotatedTo (plan_view plan.now) (stage_at host.old places.old ends.old.items)
        choices.new.items (stage_at host.new places.new ends.new.items)) }
{
    let mut from = 0;
    let mut left = builds_left(plan, places);
    while let Some(build) = in_rotation(from, &left) {
        choices.push(Choice { build, left })?;
        take_step(host, plan, places, ends, build)?;
        left = builds_left(plan, places);
        from = build + 1;
    }
    Ok(())
}

/// Runs a plan on a host, and lets its builds take turns in rotation. Turns go only to builds that have a step left,
/// and the run ends when there are none. The choices are then those of the whole schedule, and the outcome of each step
/// is recorded. The one error is that allocation failed; the run is then cut short.
pub(crate) fn run_in_rotation<S: PageStore>(
    host: &mut Host<S>,
    plan: &Plan,
    choices: &mut Vec<Choice>,
    ends: &mut Vec<EndOfStep>,
) -> Result<(), AllocError>
    ensures { OnOk result (AreInRotation 0 choices.new.items
        × IsChosenRun (plan_view plan.now) host.old choices.new.items host.new ends.new.items) }
{
    choices.clear();
    ends.clear();
    let mut places = [PlanCursor::first(); 8];
    go_on_in_rotation(host, plan, &mut places, choices, ends)
}
