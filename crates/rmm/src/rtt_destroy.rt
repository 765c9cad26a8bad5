//! The command RMI_RTT_DESTROY.
ghost use Rattle.std.specs.Prelude.{◌≡◌, ◌^◌, ◌<◌, ◌≤◌, IfOk, Some};
ghost use Rattle.rmm_model.specs.Check.{outcome, first_failing, refusal_in};
ghost use Rattle.rmm_model.specs.Machine.{granule_count};
ghost use Rattle.rmm_model.specs.Walk.{table_below};
ghost use Rattle.rmm_model.specs.Command.RttDestroy.{rtt_destroy as destroying, unused_checks};
ghost use Rattle.rmm.specs.CheckedOperands.{IsUnused};

use crate::granule::blank;
use crate::operand::{check_ipa, error_rtt_top, is_protected, realm_of};
use crate::walking::write;
use granule_addr::Gran;
use page_arena::PageStore;
use rmi_abi::{SmcResult, Word};
use rmm_granules::{Granules, entry_at, table_below, top, walk};
use rmm_model::{
    Condition, FailedCondition, RmmGranuleState, RmmRealm, RmmRipas, RmmRttEntry, RttWalk, has_live,
};

// A table without live entries, and the entry that leads to it.
#[derive(Clone, Copy)]
pub struct Unused {
    pub realm: RmmRealm,
    pub table: Gran,
    pub found: RttWalk,
    pub parent: RmmRttEntry,
}

// Checks that a walk reached the level above a table, and that the entry leads to a table without live entries.
fn check_unused<S: PageStore>(
    granules: &Granules<S>,
    found: &RttWalk,
    parent: RmmRttEntry,
    ipa: u64,
    level: u8,
) -> Result<Gran, FailedCondition>
    requires inside { found.now.table < granule_count granules.now }
    requires low { ipa < 2 ^ 48 }
    requires level { 1 ≤ level }
    ensures refusal { refusal_in result
        ≡ first_failing (unused_checks granules.now found.now parent ipa level) }
    ensures table { IfOk result (λ table. table_below granules.now parent ≡ Some table) }
    ensures below { IfOk result (λ table. table < granule_count granules.now) }
{
    if found.level != level - 1 {
        let next = top(granules, found, ipa);
        return Err(error_rtt_top(Condition::RttWalk, found.level, next));
    }
    match table_below(granules, parent) {
        None => {
            let next = top(granules, found, ipa);
            Err(error_rtt_top(Condition::RtteState, found.level, next))
        }
        Some(table) => {
            if has_live(granules.page(table)) {
                let next = top(granules, found, ipa);
                return Err(error_rtt_top(Condition::RttLive, level, next));
            }
            Ok(table)
        }
    }
}

// Returns the table that RMI_RTT_DESTROY destroys, or the failed condition.
#[tactic(auto, unfolding(rmm_model::specs::Command::RttDestroy::rtt_destroy))]
fn find_unused<S: PageStore>(
    granules: &Granules<S>,
    rd: u64,
    ipa: u64,
    level: u64,
) -> Result<Unused, FailedCondition>
    ensures refusal { refusal_in result
        ≡ first_failing (destroying rd ipa level granules.now).checks }
    ensures unused { IfOk result (IsUnused granules.now rd ipa level) }
{
    let owner = realm_of(granules, rd)?;
    let level = check_ipa(&owner.realm, owner.realm.start_level + 1, level, 1, ipa)?;
    let found = walk(granules, &owner.realm, ipa, level - 1);
    let parent = entry_at(granules, &found, ipa);
    let table = check_unused(granules, &found, parent, ipa, level)?;
    Ok(Unused {
        realm: owner.realm,
        table,
        found,
        parent,
    })
}

// Performs RMI_RTT_DESTROY.
#[inline(never)]
#[tactic(auto, unfolding(rmm_model::specs::Command::RttDestroy::rtt_destroy))]
pub fn rtt_destroy<S: PageStore>(
    granules: &mut Granules<S>,
    rd: u64,
    ipa: u64,
    level: u64,
) -> SmcResult
    ensures answer { result ≡ (outcome (destroying rd ipa level granules.old) granules.old).0 }
    ensures machine { granules.new ≡ (outcome (destroying rd ipa level granules.old) granules.old).1 }
{
    match find_unused(granules, rd, ipa, level) {
        Ok(unused) => {
            let left = if is_protected(&unused.realm, ipa) {
                RmmRttEntry::Unassigned(RmmRipas::Destroyed)
            } else {
                RmmRttEntry::UnassignedNs
            };
            write(granules, &unused.found, ipa, left);
            blank(granules, unused.table, RmmGranuleState::Delegated);
            SmcResult {
                x1: unused.parent.descriptor(),
                x2: top(granules, &unused.found, ipa),
                ..SmcResult::only(Word::Success)
            }
        }
        Err(refusal) => refusal.into_answer(),
    }
}
