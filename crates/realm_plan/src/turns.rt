//! The parsers of the builds' steps and of the schedule's entries in a plan.
ghost use Rattle.std.specs.Prelude.{◌≡◌, ◌<◌, map, All, IfOk, IfSome};
ghost use Rattle.realm_plan.specs.Outcome.{Gives};
ghost use Rattle.realm_plan.specs.Plan.{steps_of, builds_of, build_named as build_named_at, order_of};

use crate::fault::{PlanError, PlanFault};
use crate::{PlanStep, step_from_text};
use granule_addr::BuildId;
use std::alloc::{AllocError, Global};

/// Parses the steps of build `build` from their texts.
fn steps_of(alloc: Global, build: usize, texts: &[&str]) -> Result<Vec<PlanStep>, PlanError>
    ensures { Gives (λ v. v.items) result (steps_of build 0 (map (λ t. t.now) texts.now)) }
{
    let mut found = Vec::new(alloc);
    for (k, text) in texts.iter().enumerate() {
        let Some(step) = step_from_text(text) else {
            return Err(PlanError::Fault(PlanFault::Step { build, step: k }));
        };
        found.push(step)?;
    }
    Ok(found)
}

/// Parses the steps of each build from their texts.
pub(crate) fn builds_of(alloc: Global, texts: &[Vec<&str>]) -> Result<Vec<Vec<PlanStep>>, PlanError>
    ensures { Gives (λ v. map (λ b. b.items) v.items) result
        (builds_of 0 (map (λ b. map (λ t. t.now) b.items) texts.now)) }
{
    let mut found = Vec::new(alloc);
    for (k, build) in texts.iter().enumerate() {
        let steps = steps_of(alloc, k, build)?;
        found.push(steps)?;
    }
    Ok(found)
}

/// Returns the build that an entry of the schedule names, if it names one. There are `count` builds.
fn build_named(count: usize, entry: i64) -> Option<usize>
    ensures value { result ≡ build_named_at count entry }
    ensures below { IfSome result (λ build. build < count) }
{
    match usize::try_from(entry) {
        Ok(build) if build < count => Some(build),
        _ => None,
    }
}

/// Returns the build of each turn in a plan's schedule. The entries are those of the schedule, and `count` is the
/// number of builds.
pub fn order_of(alloc: Global, count: usize, entries: &[i64]) -> Result<Vec<usize>, PlanError>
    ensures value { Gives (λ v. v.items) result (order_of count 0 entries.now) }
    ensures below { IfOk result (λ v. All (λ build. build < count) v.items) }
{
    let mut found = Vec::new(alloc);
    for (place, entry) in entries.iter().enumerate() {
        let Some(build) = build_named(count, *entry) else {
            return Err(PlanError::Fault(PlanFault::Order { place }));
        };
        found.push(build)?;
    }
    Ok(found)
}

/// Converts build numbers to values of `BuildId`.
pub(crate) fn build_ids_of(alloc: Global, builds: &[usize]) -> Result<Vec<BuildId>, AllocError>
    requires { All (λ build. build < 8) builds.now }
    ensures { IfOk result (λ turns. turns.items ≡ builds.now) }
{
    let mut turns = Vec::with_capacity(alloc, builds.len())?;
    for build in builds {
        turns.push(BuildId::at(*build))?;
    }
    Ok(turns)
}
