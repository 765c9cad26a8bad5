//! Schedules that give each build all the turns that it needs.
ghost use Rattle.std.specs.Prelude.{IfOk};
ghost use Rattle.realm_plan.specs.PlanView.{plan_view};
ghost use Rattle.realm_program.specs.Replay.{opening_host};
ghost use Rattle.view_program.specs.Rotation.{AreInRotation, AreOneByOne, IsWholeSchedule};

use crate::schedules::count::builds_of;
use crate::schedules::rotation::run_in_rotation;
use crate::schedules::run::run_one_by_one;
use buddy::BuddyArena;
use realm_plan::Plan;
use realm_program::boot;
use std::alloc::{AllocError, Global};

/// Returns a schedule in which the builds with a step left take turns in rotation. The schedule has the index of each
/// turn's build. It is the schedule of a run on a fresh host. The plan's own schedule is not used. The one error is
/// that allocation failed.
pub fn schedule_in_rotation(alloc: Global, plan: &Plan) -> Result<Vec<usize>, AllocError>
    ensures { IfOk result (λ schedule. IsWholeSchedule (AreInRotation 0) (plan_view plan.now)
        (opening_host (plan_view plan.now)) schedule.items) }
{
    let mut host = boot::<BuddyArena>(alloc, plan)?;
    let mut choices = Vec::new(alloc);
    let mut ends = Vec::new(alloc);
    run_in_rotation(&mut host, plan, &mut choices, &mut ends)?;
    builds_of(alloc, &choices)
}

/// Returns a schedule that runs the builds one after another. Each build has all its turns before the next build has
/// one. The schedule has the index of each turn's build. It is the schedule of a run on a fresh host. The plan's own
/// schedule is not used. The one error is that allocation failed.
pub fn schedule_one_by_one(alloc: Global, plan: &Plan) -> Result<Vec<usize>, AllocError>
    ensures { IfOk result (λ schedule. IsWholeSchedule AreOneByOne (plan_view plan.now)
        (opening_host (plan_view plan.now)) schedule.items) }
{
    let mut host = boot::<BuddyArena>(alloc, plan)?;
    let mut choices = Vec::new(alloc);
    let mut ends = Vec::new(alloc);
    run_one_by_one(&mut host, plan, &mut choices, &mut ends)?;
    builds_of(alloc, &choices)
}
