//! Functions that perform one turn of a plan's schedule, for each kind of step.
ghost use Rattle.std.specs.Prelude.{◌≡◌};
ghost use Rattle.realm_plan.specs.Asked.{asked};
ghost use Rattle.plan_replay.specs.Turn.{undos_to_go, IsCommandTurn, IsUndoTurn, IsMarkTurn, IsOneOfMany, IsTurnOfMany, IsToAbort, IsAbortTurn, IsStepTurn};

use crate::answer::TurnAnswer;
use crate::place::PlanCursor;
use granule_addr::BuildId;
use host_commands::Step;
use page_arena::PageStore;
use realm_host::{Cmd, Host, Refusal};
use realm_plan::PlanStep;

fn command_turn<S: PageStore>(host: &mut Host<S>, build: BuildId, cmd: &Cmd) -> TurnAnswer
    ensures { IsCommandTurn host.old build cmd.now result host.new }
{
    match host.ask(build, cmd) {
        Ok(reply) => TurnAnswer::Replied(reply),
        Err(refusal) => TurnAnswer::Refused(refusal),
    }
}

fn undo_turn<S: PageStore>(host: &mut Host<S>, build: BuildId) -> TurnAnswer
    ensures { IsUndoTurn host.old build result host.new }
{
    match host.undo(build) {
        Ok(undone) => TurnAnswer::Undone(undone.kind),
        Err(refusal) => TurnAnswer::Refused(refusal),
    }
}

fn mark_turn<S: PageStore>(host: &mut Host<S>, build: BuildId, place: &mut PlanCursor) -> TurnAnswer
    ensures { IsMarkTurn host.old build place.old result host.new place.new }
{
    match host.mark(build) {
        Ok(mark) => {
            place.mark = Some(mark);
            TurnAnswer::Marked(mark.length())
        }
        Err(refusal) => TurnAnswer::Refused(refusal),
    }
}

// Performs one undo, with `left` more to come.
fn one_of_many<S: PageStore>(
    host: &mut Host<S>,
    build: BuildId,
    place: &mut PlanCursor,
    left: u16,
) -> TurnAnswer
    ensures { IsOneOfMany host.old build place.old left result host.new place.new }
{
    match host.undo(build) {
        Ok(undone) => {
            place.left = left;
            if left == 0 {
                TurnAnswer::Ended(undone.kind)
            } else {
                TurnAnswer::Undone(undone.kind)
            }
        }
        Err(refusal) => {
            place.left = 0;
            TurnAnswer::Refused(refusal)
        }
    }
}

// Takes a turn of a step that undoes `count` operations, or is refused if `count` is an error.
fn turn_of_many<S: PageStore>(
    host: &mut Host<S>,
    build: BuildId,
    place: &mut PlanCursor,
    count: Result<u16, Refusal>,
) -> TurnAnswer
    ensures { IsTurnOfMany count host.old build place.old result host.new place.new }
{
    match count {
        Ok(0) => TurnAnswer::Nothing,
        Ok(count) => one_of_many(host, build, place, count - 1),
        Err(refusal) => TurnAnswer::Refused(refusal),
    }
}

// Begins an abort at its first turn, and returns the number of operations that are left to undo.
fn begin_or_continue_abort<S: PageStore>(
    host: &mut Host<S>,
    build: BuildId,
    place: &PlanCursor,
) -> Result<u16, Refusal>
    ensures { IsToAbort host.old build place.now result host.new }
{
    if place.left == 0 {
        host.begin_abort(build)
    } else {
        Ok(place.left)
    }
}

fn abort_turn<S: PageStore>(
    host: &mut Host<S>,
    build: BuildId,
    place: &mut PlanCursor,
) -> TurnAnswer
    ensures { IsAbortTurn host.old build place.old result host.new place.new }
{
    let count = begin_or_continue_abort(host, build, place);
    turn_of_many(host, build, place, count)
}

// The number of operations that a `back` has left to undo. At its first turn, these are the operations above the
// build's last mark.
fn undos_to_go<S: PageStore>(
    host: &Host<S>,
    build: BuildId,
    place: &PlanCursor,
) -> Result<u16, Refusal>
    ensures { result ≡ undos_to_go host.now build place.now }
{
    if place.left > 0 {
        return Ok(place.left);
    }
    match place.mark {
        Some(mark) => host.check_back(build, mark),
        None => Err(Refusal::NothingToUndo),
    }
}

fn back_turn<S: PageStore>(host: &mut Host<S>, build: BuildId, place: &mut PlanCursor) -> TurnAnswer
    ensures { IsTurnOfMany (undos_to_go host.old build place.old) host.old build place.old result host.new place.new }
{
    let count = undos_to_go(host, build, place);
    turn_of_many(host, build, place, count)
}

// Takes the turn of a build's step, and returns the answer.
fn step_turn<S: PageStore>(
    host: &mut Host<S>,
    build: BuildId,
    place: &mut PlanCursor,
    step: &Step,
) -> TurnAnswer
    ensures { IsStepTurn host.old build place.old step.now result host.new place.new }
{
    match step {
        Step::Ask(cmd) => command_turn(host, build, cmd),
        Step::Undo => undo_turn(host, build),
        Step::Abort => abort_turn(host, build, place),
        Step::Mark => mark_turn(host, build, place),
        Step::Back => back_turn(host, build, place),
    }
}

/// Performs one turn of a build's step, and returns the answer. The turn is the whole step, or one undo of an `abort`
/// or a `back`. The cursor says afterwards how many undos of the step are left.
pub fn plan_turn<S: PageStore>(
    host: &mut Host<S>,
    build: BuildId,
    place: &mut PlanCursor,
    step: &PlanStep,
) -> TurnAnswer
    ensures { IsStepTurn host.old build place.old (asked step.now) result host.new place.new }
{
    match step {
        PlanStep::Whole(step) => step_turn(host, build, place, step),
        PlanStep::WidthLeftOut { .. } => step_turn(host, build, place, &step.asked()),
    }
}
