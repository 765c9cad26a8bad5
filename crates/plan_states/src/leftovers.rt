//! The check that builds whose reversible operations are all undone do not affect the page map. A theorem says that the
//! check always succeeds.
ghost use Rattle.std.specs.Prelude.{◌≡◌, true, [], IfOk, string_bytes};
ghost use Rattle.host_ledger.specs.View.{open_of};
ghost use Rattle.plan_replay.specs.Run.{map_text};
ghost use Rattle.realm_host.specs.Recorded.{fresh_like};
ghost use Rattle.realm_plan.specs.PlanView.{plan_view};
ghost use Rattle.realm_program.specs.Replay.{opening_host};

use granule_addr::BuildId;
use realm_host::HostLedger;
use realm_plan::Plan;
use realm_program::map_without;
use std::alloc::{AllocError, Global};

// Whether a map is the same as the map of the history without the events of one build.
fn is_unseen(
    alloc: Global,
    plan: &Plan,
    ledger: &HostLedger,
    build: BuildId,
    map: &str,
) -> Result<bool, AllocError>
    requires { opening_host (plan_view plan.now) ≡ fresh_like ledger.now }
    ensures { IfOk result (λ unseen. map.now ≡ map_text ledger.now → open_of ledger.now build ≡ [] → unseen ≡ true) }
{
    // (called only for its contract: the history is legal, as the theorem requires)
    let _history = ledger.history();
    let without = map_without(alloc, plan, ledger, build)?;
    Ok(without.as_str() == map)
}

/// Returns whether builds whose reversible operations are all undone have no effect on the page map. The map has to
/// stay the same if any one of these builds is left out of the history. A theorem says that it always does. The one
/// error is that allocation failed.
pub fn leave_nothing(
    alloc: Global,
    plan: &Plan,
    ledger: &HostLedger,
    map: &str,
) -> Result<bool, AllocError>
    requires opens { opening_host (plan_view plan.now) ≡ fresh_like ledger.now }
    requires map { map.now ≡ map_text ledger.now }
    ensures { IfOk result (λ all. all ≡ true) }
{
    for place in 0..plan.builds.len() {
        let build = BuildId::at(place);
        let is_at_rest = ledger.open_above(build, 0).is_empty();
        if is_at_rest && !is_unseen(alloc, plan, ledger, build, map)? {
            return Ok(false);
        }
    }
    Ok(true)
}
