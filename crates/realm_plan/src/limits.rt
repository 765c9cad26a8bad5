//! The limits on a plan's numbers and on the lengths of its lists.
ghost use Rattle.std.specs.Prelude.{◌≡◌, ◌≤◌, map, All, IfOk, OnOk, length, nat_le, vec_len};
ghost use Rattle.std.specs.List.{list_all};
ghost use Rattle.realm_plan.specs.ContentsView.{contents_view};
ghost use Rattle.realm_plan.specs.Outcome.{Gives};
ghost use Rattle.realm_plan.specs.Plan.{between as between_at, within as within_at, plan_numbers_of, check_lengths};

use crate::PlanStep;
use crate::contents::Contents;
use crate::fault::{PlanError, PlanFault};
use granule_addr::MOST_PAGES;
use realm_model::{LEAST_HISTORY, MOST_HISTORY};

/// The maximum number of builds of a plan.
pub const MOST_BUILDS: usize = 8;

/// The maximum number of steps of a build.
pub const MOST_STEPS: usize = 1024;

/// The maximum number of turns in a plan's schedule.
pub const MOST_TURNS: usize = 16384;

/// The values of a plan's integer keys, each within its limits.
#[derive(Clone, Copy)]
pub struct Numbers {
    pub pages: u16,
    pub vmids: u8,
    pub aux: u8,
    pub history: u16,
}

/// Checks that a number is in a range. Returns `whole` if it is from `low` to `high`, and the fault `Limit` otherwise.
fn between(low: u16, high: u16, whole: i64) -> Result<u16, PlanError>
    ensures value { Gives (λ n. n) result (between_at low high whole) }
    ensures low { IfOk result (λ n. low ≤ n) }
    ensures high { IfOk result (λ n. n ≤ high) }
{
    match u16::try_from(whole) {
        Ok(n) if low <= n && n <= high => Ok(n),
        _ => Err(PlanError::Fault(PlanFault::Limit)),
    }
}

/// Returns the fault `Limit` as an error, unless `holds` says that a length is within its limits.
fn within(holds: bool) -> Result<(), PlanError>
    ensures value { Gives (λ n. n) result (within_at holds) }
{
    if holds {
        Ok(())
    } else {
        Err(PlanError::Fault(PlanFault::Limit))
    }
}

/// Returns the values of a plan's integer keys, if they are within their limits. The error is the fault `Limit` if one
/// of them is not.
#[tactic(auto, unfolding(crate::specs::Plan::plan_numbers_of))]
pub fn numbers_of(contents: &Contents<'_>) -> Result<Numbers, PlanError>
    ensures value { Gives (λ n. n) result (plan_numbers_of (contents_view contents.now)) }
    ensures pages { IfOk result (λ n. (1 ≤ n.pages) × (n.pages ≤ 4096)) }
    ensures vmids { IfOk result (λ n. 1 ≤ n.vmids) }
    ensures aux { IfOk result (λ n. n.aux ≤ 16) }
    ensures history { IfOk result (λ n. (16 ≤ n.history) × (n.history ≤ 16384)) }
{
    let pages = between(1, MOST_PAGES, contents.pages)?;
    let vmids = between(1, 255, contents.vmids)?;
    let aux = between(0, 16, contents.aux)?;
    let history = between(LEAST_HISTORY, MOST_HISTORY, contents.history)?;
    Ok(Numbers {
        pages,
        vmids: vmids as u8,
        aux: aux as u8,
        history,
    })
}

/// Returns whether each build has at most `MOST_STEPS` steps.
fn are_short(builds: &[Vec<PlanStep>]) -> bool
    ensures { result ≡ list_all (λ steps. nat_le (vec_len steps) 1024) builds.now }
{
    for steps in builds {
        if steps.len() > MOST_STEPS {
            return false;
        }
    }
    true
}

/// Checks that a plan's numbers of builds, steps and turns are within their limits. Returns the fault `Limit` if there
/// is no build, or if there are too many builds, turns, or steps of a build.
#[tactic(auto, using(crate::proofs::Views::item_views), unfolding(crate::specs::Plan::check_lengths))]
pub(crate) fn check_lengths(builds: &[Vec<PlanStep>], order: &[usize]) -> Result<(), PlanError>
    ensures value { Gives (λ n. n) result (check_lengths (map (λ b. b.items) builds.now) order.now) }
    ensures builds { OnOk result ((1 ≤ length builds.now) × (length builds.now ≤ 8)) }
    ensures steps { OnOk result (All (λ steps. vec_len steps ≤ 1024) builds.now) }
    ensures order { OnOk result (length order.now ≤ 16384) }
{
    within(!builds.is_empty() && builds.len() <= MOST_BUILDS)?;
    within(are_short(builds))?;
    within(order.len() <= MOST_TURNS)
}
