//! Functions that run a plan on a host, and explain each refused step.
ghost use Rattle.std.specs.Prelude.{◌≡◌, ◌<◌, ◌≤◌, IfOk, map, option_map, string_bytes, vec_len};
ghost use Rattle.realm_plan.specs.Asked.{asked};
ghost use Rattle.realm_plan.specs.PlanView.{plan_view};
ghost use Rattle.plan_replay.specs.Place.{giving_up};
ghost use Rattle.plan_replay.specs.Text.{turn_line};
ghost use Rattle.explain.specs.Explained.{up_to_failing, reason_for, report_of, idle_report, report_of_reason, IsExplainedStep, IsExplainedTurn, IsExplainedRun};

use crate::check::{Check, add};
use crate::explained::{ExplainedTurn, Explanation};
use crate::of_step::step_checks;
use crate::words::words_of;
use granule_addr::BuildId;
use page_arena::PageStore;
use plan_replay::{PlanCursor, TurnAnswer, plan_turn, push_turn, step_after};
use realm_host::Host;
use realm_plan::{Plan, PlanStep, push_idle};
use std::alloc::{AllocError, Global};

// Returns the checks up to and including the first failed check.
fn up_to_failing(alloc: Global, checks: &[Check]) -> Result<Vec<Check>, AllocError>
    ensures { IfOk result (λ front. front.items ≡ up_to_failing checks.now) }
{
    let mut front = Vec::new(alloc);
    for check in checks {
        add(&mut front, *check)?;
        if check.fails {
            return Ok(front);
        }
    }
    Ok(front)
}

// Returns the reason why a step is refused, or `None` if the step is not refused. A refusal changes nothing, so the
// host still has all that the reason names.
fn reason_for<S: PageStore>(
    alloc: Global,
    host: &Host<S>,
    build: BuildId,
    step: &PlanStep,
    answer: &TurnAnswer,
    checks: &[Check],
) -> Result<Option<Explanation>, AllocError>
    ensures { IfOk result (λ reason. option_map report_of_reason reason ≡ reason_for answer.now (asked step.now) checks.now) }
{
    match answer {
        TurnAnswer::Refused(_) => {
            let step = step.asked();
            let checks = up_to_failing(alloc, checks)?;
            let (error, help) = words_of(alloc, host, build, &step, &checks)?;
            Ok(Some(Explanation {
                step,
                checks,
                error,
                help,
            }))
        }
        _ => Ok(None),
    }
}

// Returns the line of a turn, as a replay prints it.
fn turn_text(
    alloc: Global,
    build: BuildId,
    step: &PlanStep,
    answer: TurnAnswer,
) -> Result<String, AllocError>
    ensures { IfOk result (λ line. string_bytes line ≡ turn_line build step.now answer) }
{
    let mut line = String::new(alloc);
    push_turn(&mut line, build, step, answer)?;
    Ok(line)
}

// Explains a turn of a build's step, from the step's checks before the turn.
fn explained<S: PageStore>(
    alloc: Global,
    host: &Host<S>,
    build: BuildId,
    step: &PlanStep,
    answer: &TurnAnswer,
    checks: &[Check],
) -> Result<ExplainedTurn, AllocError>
    ensures line { IfOk result (λ turn. string_bytes turn.line ≡ turn_line build step.now answer.now) }
    ensures reason { IfOk result (λ turn. option_map report_of_reason turn.reason ≡ reason_for answer.now (asked step.now) checks.now) }
{
    let line = turn_text(alloc, build, step, *answer)?;
    let reason = reason_for(alloc, host, build, step, answer, checks)?;
    Ok(ExplainedTurn { line, reason })
}

// Takes one turn of a build's step, in a plan whose builds give up if `gives_up` is set.
fn explain_step<S: PageStore>(
    alloc: Global,
    host: &mut Host<S>,
    build: BuildId,
    place: &mut PlanCursor,
    step: &PlanStep,
    gives_up: bool,
) -> Result<ExplainedTurn, AllocError>
    requires { place.old.done ≤ giving_up }
    ensures { IfOk result (λ turn. IsExplainedStep gives_up host.old build place.old step.now host.new place.new (report_of turn)) }
{
    let checks = step_checks(alloc, host, build, place, &step.asked())?;
    let answer = plan_turn(host, build, place, step);
    place.move_on(gives_up, &answer);
    explained(alloc, host, build, step, &answer, &checks)
}

// Returns the idle turn of a build that has no step left.
fn idle_turn(alloc: Global, build: BuildId) -> Result<ExplainedTurn, AllocError>
    ensures { IfOk result (λ turn. report_of turn ≡ idle_report build) }
{
    let mut line = String::new(alloc);
    push_idle(&mut line, build)?;
    Ok(ExplainedTurn { line, reason: None })
}

// Takes one turn of a build: performs the build's next step, if one is left.
fn explain_turn<S: PageStore>(
    alloc: Global,
    host: &mut Host<S>,
    plan: &Plan,
    build: usize,
    places: &mut [PlanCursor; 8],
) -> Result<ExplainedTurn, AllocError>
    requires { build < vec_len plan.now.builds }
    ensures { IfOk result (λ turn. IsExplainedTurn (plan_view plan.now) (record { host = host.old; places = places.old }) build
        (record { host = host.new; places = places.new }) (report_of turn)) }
{
    let id = BuildId::at(build);
    let mut place = places[build];
    let Some(step) = step_after(plan, build, place.done) else {
        return idle_turn(alloc, id);
    };
    let turn = explain_step(alloc, host, id, &mut place, step, plan.gives_up)?;
    places[build] = place;
    Ok(turn)
}

/// Runs a plan on a host, and explains each step that the host refuses. Returns the output line of each turn, and the
/// reason if the turn is refused. A reason has the checks up to and including the first failed check. The one error is
/// that allocation failed.
pub fn explain_turns<S: PageStore>(
    alloc: Global,
    host: &mut Host<S>,
    plan: &Plan,
) -> Result<Vec<ExplainedTurn>, AllocError>
    ensures { IfOk result (λ turns. IsExplainedRun (plan_view plan.now) host.old host.new (map report_of turns.items)) }
{
    let mut turns = Vec::new(alloc);
    let mut places = [PlanCursor::first(); 8];
    for build in &plan.order {
        let turn = explain_turn(alloc, host, plan, build.number() as usize, &mut places)?;
        turns.push(turn)?;
    }
    Ok(turns)
}
