//! The commands RMI_RTT_MAP_UNPROTECTED and RMI_RTT_UNMAP_UNPROTECTED.
ghost use Rattle.std.specs.Prelude.{◌≡◌, ◌^◌, ◌<◌, IfOk};
ghost use Rattle.rmm_model.specs.Check.{outcome, first_failing, refusal_in};
ghost use Rattle.rmm_model.specs.Machine.{granule_count};
ghost use Rattle.rmm_model.specs.Walk.{walk as walked};
ghost use Rattle.rmm_model.specs.Command.Operand as operands;
ghost use Rattle.rmm_model.specs.Command.RttMapUnprotected as mapping;
ghost use Rattle.rmm_model.specs.Command.RttUnmapUnprotected as unmapping;
ghost use Rattle.rmm.specs.CheckedOperands.{IsUnprotected};

use crate::operand::{check_entry, check_unprotected, realm_of};
use crate::walking::write;
use page_arena::PageStore;
use rmi_abi::{RmmSettings, SmcResult, Word};
use rmm_granules::{Granules, entry_at, has_attributes, top, walk};
use rmm_model::{Condition, FailedCondition, RmmRttEntry, RttWalk, entry_offset, error_input};

// ---- descriptors

// Whether a number is a valid descriptor of an unprotected mapping at a level.
#[tactic(auto, unfolding(rmm_model::specs::Command::RttMapUnprotected::is_descriptor))]
fn is_descriptor(settings: &RmmSettings, level: u8, desc: u64) -> bool
    ensures { result ≡ mapping.is_descriptor settings.now level desc }
{
    has_attributes(settings, desc) && entry_offset(level, desc / 4096 * 4096) == 0
}

// ---- mapping

// Returns the end of the walk to the entry that RMI_RTT_MAP_UNPROTECTED writes, or the failed condition.
#[tactic(auto, unfolding(rmm_model::specs::Command::RttMapUnprotected::rtt_map_unprotected))]
fn find_vacancy<S: PageStore>(
    granules: &Granules<S>,
    rd: u64,
    ipa: u64,
    level: u64,
    desc: u64,
) -> Result<RttWalk, FailedCondition>
    ensures refusal { refusal_in result
        ≡ first_failing (mapping.rtt_map_unprotected rd ipa level desc granules.now).checks }
    ensures found { IfOk result (λ found. found
        ≡ walked granules.now (operands.realm_at granules.now rd) ipa level) }
    ensures inside { IfOk result (λ found. found.table < granule_count granules.now) }
{
    let owner = realm_of(granules, rd)?;
    let level = check_unprotected(granules.settings(), &owner.realm, level, ipa)?;
    if !is_descriptor(granules.settings(), level, desc) {
        return Err(error_input(Condition::DescBound));
    }
    let found = walk(granules, &owner.realm, ipa, level);
    let entry = entry_at(granules, &found, ipa);
    check_entry(&found, level, entry.is_unassigned_ns())?;
    Ok(found)
}

// Performs RMI_RTT_MAP_UNPROTECTED.
#[tactic(auto, unfolding(rmm_model::specs::Command::RttMapUnprotected::rtt_map_unprotected))]
pub fn rtt_map_unprotected<S: PageStore>(
    granules: &mut Granules<S>,
    rd: u64,
    ipa: u64,
    level: u64,
    desc: u64,
) -> SmcResult
    ensures answer { result
        ≡ (outcome (mapping.rtt_map_unprotected rd ipa level desc granules.old) granules.old).0 }
    ensures machine { granules.new
        ≡ (outcome (mapping.rtt_map_unprotected rd ipa level desc granules.old) granules.old).1 }
{
    match find_vacancy(granules, rd, ipa, level, desc) {
        Ok(found) => {
            write(granules, &found, ipa, RmmRttEntry::AssignedNs(desc));
            SmcResult::only(Word::Success)
        }
        Err(refusal) => refusal.into_answer(),
    }
}

// ---- unmapping

// The refusal RMI_ERROR_RTT for a failed condition, with the level of a table, and the address of the next live entry
// in X1.
fn error_rtt_next(condition: Condition, level: u8, top: u64) -> FailedCondition
    ensures { result ≡ record { condition = condition; answer = unmapping.error_rtt_next top level } }
{
    FailedCondition {
        condition,
        answer: SmcResult {
            x1: top,
            ..SmcResult::only(Word::ErrorRtt(level))
        },
    }
}

// Checks that a walk reached a level, and that the entry is ASSIGNED_NS.
fn check_mapped<S: PageStore>(
    granules: &Granules<S>,
    found: &RttWalk,
    ipa: u64,
    level: u8,
) -> Result<(), FailedCondition>
    requires inside { found.now.table < granule_count granules.now }
    requires low { ipa < 2 ^ 48 }
    ensures { refusal_in result
        ≡ first_failing (unmapping.mapped_checks granules.now found.now ipa level) }
{
    if found.level != level {
        let next = top(granules, found, ipa);
        return Err(error_rtt_next(Condition::RttWalk, found.level, next));
    }
    if !entry_at(granules, found, ipa).is_assigned_ns() {
        let next = top(granules, found, ipa);
        return Err(error_rtt_next(Condition::RtteState, found.level, next));
    }
    Ok(())
}

// Returns the end of the walk to the entry that RMI_RTT_UNMAP_UNPROTECTED removes, or the failed condition.
#[tactic(auto, unfolding(rmm_model::specs::Command::RttUnmapUnprotected::rtt_unmap_unprotected))]
fn find_mapped<S: PageStore>(
    granules: &Granules<S>,
    rd: u64,
    ipa: u64,
    level: u64,
) -> Result<RttWalk, FailedCondition>
    ensures refusal { refusal_in result
        ≡ first_failing (unmapping.rtt_unmap_unprotected rd ipa level granules.now).checks }
    ensures found { IfOk result (IsUnprotected granules.now rd ipa level) }
{
    let owner = realm_of(granules, rd)?;
    let level = check_unprotected(granules.settings(), &owner.realm, level, ipa)?;
    let found = walk(granules, &owner.realm, ipa, level);
    check_mapped(granules, &found, ipa, level)?;
    Ok(found)
}

// Performs RMI_RTT_UNMAP_UNPROTECTED.
#[tactic(auto, unfolding(rmm_model::specs::Command::RttUnmapUnprotected::rtt_unmap_unprotected))]
pub fn rtt_unmap_unprotected<S: PageStore>(
    granules: &mut Granules<S>,
    rd: u64,
    ipa: u64,
    level: u64,
) -> SmcResult
    ensures answer { result
        ≡ (outcome (unmapping.rtt_unmap_unprotected rd ipa level granules.old) granules.old).0 }
    ensures machine { granules.new
        ≡ (outcome (unmapping.rtt_unmap_unprotected rd ipa level granules.old) granules.old).1 }
{
    match find_mapped(granules, rd, ipa, level) {
        Ok(found) => {
            write(granules, &found, ipa, RmmRttEntry::UnassignedNs);
            SmcResult {
                word: Word::Success,
                x1: top(granules, &found, ipa),
                x2: 0,
                x3: 0,
                x4: 0,
            }
        }
        Err(refusal) => refusal.into_answer(),
    }
}
