//! The text of the history of a plan's run.
ghost use Rattle.std.specs.Prelude.{◌≡◌, IfOk, IfErr, string_bytes};
ghost use Rattle.realm_plan.specs.PlanView.{plan_view};
ghost use Rattle.realm_program.specs.Replay.{opening_host, IsWithoutText};
ghost use Rattle.view_program.specs.History.{opening_of, IsBuildOfPlan, IsHistoryText};

use crate::plan_text::ViewText;
use buddy::BuddyArena;
use granule_addr::BuildId;
use history_text::{Opening, push_history};
use plan_replay::run_turns;
use realm_host::Host;
use realm_plan::Plan;
use realm_program::{Fault, boot};
use std::alloc::{AllocError, Global};

// The opening of a history of the plan, with the size of its machine.
fn opening_of(plan: &Plan) -> Opening
    ensures { result ≡ opening_of (plan_view plan.now) }
{
    Opening {
        pages: plan.pages,
        vmids: plan.vmids,
        aux: plan.aux,
        history: plan.history,
        builds: plan.builds.len() as u8,
    }
}

// Checks that the build to be left out, if any, is one of the plan's.
fn checked_erase(plan: &Plan, erase: Option<BuildId>) -> Result<Option<BuildId>, Fault>
    ensures ok { IfOk result (λ checked. (checked ≡ erase) × IsBuildOfPlan erase (plan_view plan.now)) }
    ensures err { IfErr result (IsWithoutText erase (plan_view plan.now)) }
{
    let Some(build) = erase else {
        return Ok(None);
    };
    if build.number() as usize >= plan.builds.len() {
        return Err(Fault::EraseNamesNoBuild);
    }
    Ok(Some(build))
}

// Runs the plan on a fresh host, and returns the text of the host's history.
fn text_after_run(
    alloc: Global,
    plan: &Plan,
    host: &mut Host<BuddyArena>,
    erase: Option<BuildId>,
) -> Result<String, AllocError>
    requires fresh { host.old ≡ opening_host (plan_view plan.now) }
    requires build { IsBuildOfPlan erase (plan_view plan.now) }
    ensures { IfOk result (λ text. IsHistoryText erase (plan_view plan.now) (string_bytes text)) }
{
    let mut lines = String::new(alloc);
    run_turns(host, plan, &mut lines)?;
    let opening = opening_of(plan);
    let mut text = String::new(alloc);
    push_history(&mut text, &opening, host.history(), erase)?;
    Ok(text)
}

// The text of the history of the plan's run, complete or without one of the plan's builds.
fn run_text(alloc: Global, plan: &Plan, erase: Option<BuildId>) -> Result<String, AllocError>
    requires { IsBuildOfPlan erase (plan_view plan.now) }
    ensures { IfOk result (λ text. IsHistoryText erase (plan_view plan.now) (string_bytes text)) }
{
    let mut host = boot::<BuddyArena>(alloc, plan)?;
    text_after_run(alloc, plan, &mut host, erase)
}

/// A kind of text for a plan: the history of the plan's run, complete or without one build's events. The text is
/// missing only if allocation failed, or for `EraseNamesNoBuild`: the build is not one of the plan's.
#[derive(Drop)]
pub struct Histories {
    /// The build whose events the history leaves out, if any.
    pub erase: Option<BuildId>,
}

impl ViewText for Histories {
    ghost is_text = { λ asked _. IsHistoryText asked.erase };

    ghost is_without = { λ asked. IsWithoutText asked.erase };

    fn text_of(&self, alloc: Global, plan: Plan, _source: &[u8]) -> Result<Vec<u8>, Fault> {
        let erase = checked_erase(&plan, self.erase)?;
        Ok(run_text(alloc, &plan, erase)?.into_bytes())
    }
}
