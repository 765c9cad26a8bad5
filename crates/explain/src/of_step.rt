//! The checks that a step of a plan must pass in the next turn of its build.
ghost use Rattle.std.specs.Prelude.{◌≡◌, ◌∷◌, ◌++◌, [], OnOk, IfOk, Some};
ghost use Rattle.explain.specs.Steps.{undo_checks, running_of, begin_checks, mark_checks, back_checks, step_checks};

use crate::check::{Check, Fact, add, add_all};
use crate::host_facts::UndoFact;
use crate::of_build::{build_there, checks_of_build, not_aborting};
use crate::of_command::add_command;
use granule_addr::BuildId;
use host_commands::Step;
use page_arena::PageStore;
use plan_replay::PlanCursor;
use realm_host::{Host, Mark, Refusal};
use std::alloc::{AllocError, Global};

// The checks of an undo, for the refusals `NoBuild`, `NothingToUndo` and `RecRunning`.
fn undo<S: PageStore>(host: &Host<S>, build: BuildId) -> [Check; 3]
    ensures { result ≡ undo_checks host.now build }
{
    let open = host.open_acts(build).len();
    [
        build_there(host, build),
        Check {
            fact: Fact::Undo(UndoFact::Open(open)),
            fails: open < 1,
            refusal: Refusal::NothingToUndo,
        },
        Check {
            fact: Fact::Undo(UndoFact::NewestIsNotRunning),
            fails: host.is_newest_running(build),
            refusal: Refusal::RecRunning,
        },
    ]
}

// The number of running RECs of a build; 0 if the build does not exist.
fn running_of<S: PageStore>(host: &Host<S>, build: BuildId) -> u16
    ensures { result ≡ running_of host.now build }
{
    if build.number() < host.build_count() {
        host.ledger().running(build)
    } else {
        0
    }
}

// The checks of the first turn of an abort, for the refusals `NoBuild`, `Aborting` and `RecRunning`.
fn begin<S: PageStore>(host: &Host<S>, build: BuildId) -> [Check; 3]
    ensures { result ≡ begin_checks host.now build }
{
    let running = running_of(host, build);
    [
        build_there(host, build),
        not_aborting(host, build),
        Check {
            fact: Fact::Undo(UndoFact::AllAreReady(running)),
            fails: 0 < running,
            refusal: Refusal::RecRunning,
        },
    ]
}

// The check of a `back` step that the build has a valid mark, for refusal 7 (`NothingToUndo`).
fn mark_check(fails: bool) -> Check
    ensures { result ∷ [] ≡ mark_checks fails }
{
    Check {
        fact: Fact::Undo(UndoFact::Mark),
        fails,
        refusal: Refusal::NothingToUndo,
    }
}

// The checks of a `back` step to a mark, for the refusals `NoBuild`, `Aborting`, `NothingToUndo` and `RecRunning`.
fn back<S: PageStore>(host: &Host<S>, build: BuildId, mark: Mark) -> [Check; 4]
    ensures { result ≡ back_checks host.now build (Some mark) }
{
    let answer = host.check_back(build, mark);
    [
        build_there(host, build),
        not_aborting(host, build),
        mark_check(matches!(answer, Err(Refusal::NothingToUndo))),
        Check {
            fact: Fact::Undo(UndoFact::NoneRunsAboveMark),
            fails: matches!(answer, Err(Refusal::RecRunning)),
            refusal: Refusal::RecRunning,
        },
    ]
}

// Adds the checks of a `back` step to a mark, or the one failed check if the build has no mark.
fn add_back<S: PageStore>(
    host: &Host<S>,
    build: BuildId,
    mark: Option<Mark>,
    checks: &mut Vec<Check>,
) -> Result<(), AllocError>
    ensures { OnOk result (checks.new.items ≡ checks.old.items ++ back_checks host.now build mark) }
{
    match mark {
        Some(mark) => add_all(checks, &back(host, build, mark)),
        None => add(checks, mark_check(true)),
    }
}

// Adds the checks of the next turn of a step.
#[tactic(auto, unfolding(crate::specs::Steps::step_checks))]
fn add_step<S: PageStore>(
    host: &Host<S>,
    build: BuildId,
    place: &PlanCursor,
    step: &Step,
    checks: &mut Vec<Check>,
) -> Result<(), AllocError>
    ensures { OnOk result (checks.new.items ≡ checks.old.items ++ step_checks host.now build place.now step.now) }
{
    match step {
        Step::Ask(cmd) => add_command(host, build, cmd, checks),
        Step::Mark => add_all(checks, &checks_of_build(host, build)),
        Step::Abort if place.left == 0 => add_all(checks, &begin(host, build)),
        Step::Back if place.left == 0 => add_back(host, build, place.mark, checks),
        _ => add_all(checks, &undo(host, build)),
    }
}

/// Returns, in sequence, the checks that a step of a plan must pass in the next turn of its build. The cursor `place`
/// has the number of undos that are left of the step, and the build's mark.
pub fn step_checks<S: PageStore>(
    alloc: Global,
    host: &Host<S>,
    build: BuildId,
    place: &PlanCursor,
    step: &Step,
) -> Result<Vec<Check>, AllocError>
    ensures { IfOk result (λ checks. checks.items ≡ step_checks host.now build place.now step.now) }
{
    let mut checks = Vec::new(alloc);
    add_step(host, build, place, step, &mut checks)?;
    Ok(checks)
}
