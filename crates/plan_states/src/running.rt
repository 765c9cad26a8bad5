//! Runs of a plan from boot, in a given schedule. Single turns can follow a run.
ghost use Rattle.std.specs.Prelude.{◌≡◌, ◌<◌, [], false, IfOk, IfErr, IfNone, IfSome, OnOk, length, option_map};
ghost use Rattle.std.specs.Bool.{OnFalse};
ghost use Rattle.host_ledger.specs.View.{world_of, pages_of_build};
ghost use Rattle.realm_host.specs.Readings.{realm_at};
ghost use Rattle.realm_plan.specs.PlanView.{plan_view};
ghost use Rattle.plan_states.specs.Exploration.{HasNoGraph};
ghost use Rattle.plan_states.specs.Reached.{AreOver, IsReached, is_left};
ghost use Rattle.plan_states.specs.Turned.{moved_after, moved_by, told_refusal};
ghost use Rattle.plan_states.specs.TurnTaken.{IsTurnAfter, IsTurnTaken};

use crate::turns::Moved;
use buddy::BuddyArena;
use granule_addr::BuildId;
use host_commands::Refusal;
use page_arena::PageStore;
use plan_replay::{PlanCursor, TurnAnswer, step_after, take_turn};
use realm_host::{Act, Host};
use realm_plan::Plan;
use realm_program::{Fault, boot};
use std::alloc::Global;

/// The state of a run of a plan, with the host and the cursor of each build.
#[derive(Drop)]
pub(crate) struct Running {
    pub(crate) host: Host<BuddyArena>,
    pub(crate) places: [PlanCursor; 8],
}

/// The result of a build's turn: progress, refusal, moved block, VMID and page count. The block is the one leased or
/// given back. `before` and `after` are the numbers of steps done before and after the turn. The VMID is that of the
/// build's realm. VMID and page count are those after the turn.
#[derive(Clone, Copy)]
pub(crate) struct TurnTaken {
    pub(crate) before: usize,
    pub(crate) after: usize,
    pub(crate) refusal: Option<Refusal>,
    pub(crate) moved: Option<Moved>,
    pub(crate) vmid: Option<u8>,
    pub(crate) pages: u16,
}

// The block that an operation leases or gives back.
fn moved_by(act: &Act) -> Option<Moved>
    ensures { result ≡ moved_by act.now }
{
    match act {
        Act::Take { order, first } => Some(Moved {
            is_back: false,
            order: order.number(),
            first: first.number(),
        }),
        Act::UnTake { order, first } => Some(Moved {
            is_back: true,
            order: order.number(),
            first: first.number(),
        }),
        _ => None,
    }
}

// The block that the event at index `before` leased or gave back, if there is one.
fn moved_after<S: PageStore>(host: &Host<S>, before: usize) -> Option<Moved>
    ensures { result ≡ moved_after before host.now.history }
{
    match host.history().get(before) {
        Some(event) => moved_by(&event.act),
        None => None,
    }
}

// The refusal in a turn's answer, if the turn was refused.
fn told_refusal(answer: TurnAnswer) -> Option<Refusal>
    ensures { result ≡ told_refusal answer }
{
    match answer {
        TurnAnswer::Refused(refusal) => Some(refusal),
        _ => None,
    }
}

// The VMID of a build's realm, if it has one.
fn vmid_of<S: PageStore>(host: &Host<S>, build: usize) -> Option<u8>
    requires { build < 8 }
    ensures { result ≡ option_map (λ realm. realm.1) (realm_at (world_of host.now) build) }
{
    match host.realm_view(BuildId::at(build)) {
        Some((_state, vmid)) => Some(vmid.number()),
        None => None,
    }
}

/// Returns the number of pages that a build holds.
pub(crate) fn pages_of<S: PageStore>(host: &Host<S>, build: usize) -> u16
    requires { build < 8 }
    ensures { result ≡ length (pages_of_build host.now build) }
{
    host.page_count(BuildId::at(build))
}

// Runs a plan in a given schedule, from boot on. `Mismatch`: some turn is of a build that has no step left then.
fn follow(
    host: &mut Host<BuddyArena>,
    plan: &Plan,
    places: &mut [PlanCursor; 8],
    schedule: &[usize],
) -> Result<(), Fault>
    requires { IsReached (plan_view plan.now) [] (record { host = host.old; places = places.old }) }
    ensures ok { OnOk result (IsReached (plan_view plan.now) schedule.now (record { host = host.new; places = places.new })) }
    ensures err { IfErr result HasNoGraph }
{
    for build in schedule {
        if *build >= plan.builds.len() {
            return Err(Fault::Mismatch);
        }
        if take_turn(host, plan, places, *build).is_none() {
            return Err(Fault::Mismatch);
        }
    }
    Ok(())
}

/// Runs a plan on a fresh host in a given schedule.
///
/// Errors. `Memory`: allocation failed. `Mismatch`: some turn is of a build that has no step left then.
pub(crate) fn run_to(alloc: Global, plan: &Plan, schedule: &[usize]) -> Result<Running, Fault>
    ensures ok { IfOk result (λ run. IsReached (plan_view plan.now) schedule.now (record { host = run.host; places = run.places })) }
    ensures err { IfErr result HasNoGraph }
{
    let mut host = boot::<BuddyArena>(alloc, plan)?;
    let mut places = [PlanCursor::first(); 8];
    follow(&mut host, plan, &mut places, schedule)?;
    Ok(Running { host, places })
}

/// Runs a plan on a fresh host in a given schedule, and then runs the next turn of a build. Returns that turn's result.
///
/// Errors. `Memory`: allocation failed. `Mismatch`: some turn is of a build that has no step left then.
pub(crate) fn turn_after(
    alloc: Global,
    plan: &Plan,
    schedule: &[usize],
    build: usize,
) -> Result<TurnTaken, Fault>
    ensures ok { IfOk result (IsTurnAfter (plan_view plan.now) schedule.now build) }
    ensures err { IfErr result HasNoGraph }
{
    let mut running = run_to(alloc, plan, schedule)?;
    match take(&mut running.host, plan, &mut running.places, build) {
        Some(taken) => Ok(taken),
        None => Err(Fault::Mismatch),
    }
}

/// Returns whether any build of a plan has a step left to run.
pub(crate) fn has_more(plan: &Plan, places: &[PlanCursor; 8]) -> bool
    ensures { OnFalse result (AreOver (plan_view plan.now) places.now) }
{
    for build in 0..8 {
        if step_after(plan, build, places[build].done).is_some() {
            return true;
        }
    }
    false
}

/// Runs the next turn of a build, if the build has a step left. Returns the turn's result, or `None` if no step is
/// left.
pub(crate) fn take<S: PageStore>(
    host: &mut Host<S>,
    plan: &Plan,
    places: &mut [PlanCursor; 8],
    build: usize,
) -> Option<TurnTaken>
    ensures taken { IfSome result (λ it. IsTurnTaken (plan_view plan.now) (record { host = host.old; places = places.old }) build it
        (record { host = host.new; places = places.new })) }
    ensures none { IfNone result (is_left (plan_view plan.now) places.old build ≡ false) }
{
    if build >= plan.builds.len() {
        return None;
    }
    let events = host.history().len();
    let before = places[build].done;
    let Some((_step, answer)) = take_turn(host, plan, places, build) else {
        return None;
    };
    let after = places[build].done;
    let refusal = told_refusal(answer);
    let moved = moved_after(host, events);
    let vmid = vmid_of(host, build);
    let pages = pages_of(host, build);
    Some(TurnTaken {
        before,
        after,
        refusal,
        moved,
        vmid,
        pages,
    })
}
