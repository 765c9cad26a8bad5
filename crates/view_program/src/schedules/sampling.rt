//! Repeated runs of a plan, each with a randomly drawn schedule.
ghost use Rattle.std.specs.Prelude.{◌≡◌, OnOk, IfOk};
ghost use Rattle.realm_plan.specs.PlanView.{plan_view};
ghost use Rattle.realm_program.specs.Replay.{opening_host};
ghost use Rattle.realm_host.specs.Recorded.{fresh_like};
ghost use Rattle.view_program.specs.Exploring.{IsAdded, IsDrawnAndCounted};
ghost use Rattle.view_program.specs.Drawn.{IsSampled};

use crate::schedules::{Choice, Progress, Totals, run_drawn};
use buddy::BuddyArena;
use plan_replay::map_text;
use plan_states::{EndOfStep, leave_nothing};
use rand_core::Rng;
use realm_host::Host;
use realm_plan::Plan;
use realm_program::boot;
use std::alloc::{AllocError, Global};

// Counts a run that ended with `host`, and checks that builds with nothing open do not change the host's map.
fn count_run(
    alloc: Global,
    plan: &Plan,
    host: Host<BuddyArena>,
    choices: &[Choice],
    ends: &[EndOfStep],
    totals: &mut Totals,
) -> Result<(), AllocError>
    requires { opening_host (plan_view plan.now) ≡ fresh_like host }
    ensures { OnOk result (IsAdded (plan_view plan.now) host choices.now ends.now totals.old totals.new) }
{
    let map = map_text(alloc, &host)?;
    let ledger = host.into_ledger();
    if !leave_nothing(alloc, plan, &ledger, &map)? {
        unreachable!()
    }
    totals.add(alloc, plan.builds.len(), choices, ends, map)
}

// Runs a drawn schedule on a fresh host, and counts the run.
fn visit_drawn<R: Rng>(
    alloc: Global,
    plan: &Plan,
    rng: &mut R,
    choices: &mut Vec<Choice>,
    ends: &mut Vec<EndOfStep>,
    totals: &mut Totals,
) -> Result<(), AllocError>
    ensures { OnOk result (IsDrawnAndCounted (plan_view plan.now) (R.stream rng.old) (R.stream rng.new) totals.old totals.new) }
{
    let mut host = boot::<BuddyArena>(alloc, plan)?;
    run_drawn(&mut host, plan, rng, choices, ends)?;
    count_run(alloc, plan, host, choices, ends, totals)
}

/// Runs a plan `count` times, each time with a randomly drawn schedule. Each run is on a host of its own. The build of
/// each turn is drawn from those with a step left, and a schedule may come more than once. The plan's own schedule is
/// not used. Before each run, `progress` gets the number of schedules run so far. The one error is that allocation
/// failed.
pub fn sample<R: Rng, P: Progress>(
    alloc: Global,
    plan: &Plan,
    count: u32,
    rng: &mut R,
    progress: &P,
) -> Result<Totals, AllocError>
    ensures { IfOk result (IsSampled (plan_view plan.now) (opening_host (plan_view plan.now)) (R.stream rng.old) count) }
{
    let mut totals = Totals::new(alloc);
    let mut choices = Vec::new(alloc);
    let mut ends = Vec::new(alloc);
    for done in 0..count {
        progress.told(done, count);
        visit_drawn(alloc, plan, rng, &mut choices, &mut ends, &mut totals)?;
    }
    Ok(totals)
}
