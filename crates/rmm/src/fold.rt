//! The command RMI_RTT_FOLD.
ghost use Rattle.std.specs.Prelude.{◌≡◌, ◌<◌, ◌≤◌, IfOk, Some};
ghost use Rattle.rmm_model.specs.Check.{outcome, first_failing, refusal_in};
ghost use Rattle.rmm_model.specs.Machine.{granule_count};
ghost use Rattle.rmm_model.specs.Walk.{table_below};
ghost use Rattle.rmm_model.specs.Command.RttFold as command;
ghost use Rattle.rmm.specs.CheckedOperands.{IsFoldable};

use crate::granule::blank;
use crate::operand::{check_ipa, realm_of};
use crate::walking::write;
use granule_addr::Gran;
use page_arena::PageStore;
use rmi_abi::{SmcResult, Word};
use rmm_granules::{
    Granules, entry_at, first_entry, is_block_too_high, is_homogeneous, table_below, walk,
};
use rmm_model::{Condition, FailedCondition, RmmGranuleState, RmmRttEntry, RttWalk, error_rtt};

// A table that can be folded, and the entry that leads to it.
#[derive(Clone, Copy)]
pub struct Foldable {
    pub table: Gran,
    pub found: RttWalk,
    pub parent: RmmRttEntry,
}

// Checks that a walk reached the level above a table, and that the entry leads to a table that one entry can replace.
fn check_fold<S: PageStore>(
    granules: &Granules<S>,
    found: &RttWalk,
    parent: RmmRttEntry,
    level: u8,
) -> Result<Gran, FailedCondition>
    requires { 1 ≤ level }
    ensures refusal { refusal_in result
        ≡ first_failing (command.fold_checks granules.now found.now parent level) }
    ensures table { IfOk result (λ table. table_below granules.now parent ≡ Some table) }
    ensures below { IfOk result (λ table. table < granule_count granules.now) }
{
    if found.level != level - 1 {
        return Err(error_rtt(Condition::RttWalk, found.level));
    }
    match table_below(granules, parent) {
        None => Err(error_rtt(Condition::RtteState, found.level)),
        Some(table) => {
            let page = granules.page(table);
            if !is_homogeneous(page, level) {
                return Err(error_rtt(Condition::RttHomo, level));
            }
            if is_block_too_high(granules.settings(), page, level) {
                return Err(error_rtt(Condition::RttBlock, level - 1));
            }
            Ok(table)
        }
    }
}

// Returns the table that RMI_RTT_FOLD folds, or the failed condition.
#[tactic(auto, unfolding(rmm_model::specs::Command::RttFold::rtt_fold))]
fn find_foldable<S: PageStore>(
    granules: &Granules<S>,
    rd: u64,
    ipa: u64,
    level: u64,
) -> Result<Foldable, FailedCondition>
    ensures refusal { refusal_in result
        ≡ first_failing (command.rtt_fold rd ipa level granules.now).checks }
    ensures foldable { IfOk result (IsFoldable granules.now rd ipa level) }
{
    let owner = realm_of(granules, rd)?;
    let level = check_ipa(&owner.realm, owner.realm.start_level + 1, level, 1, ipa)?;
    let found = walk(granules, &owner.realm, ipa, level - 1);
    let parent = entry_at(granules, &found, ipa);
    let table = check_fold(granules, &found, parent, level)?;
    Ok(Foldable {
        table,
        found,
        parent,
    })
}

// Performs RMI_RTT_FOLD.
#[inline(never)]
#[tactic(auto, unfolding(rmm_model::specs::Command::RttFold::rtt_fold))]
pub fn rtt_fold<S: PageStore>(
    granules: &mut Granules<S>,
    rd: u64,
    ipa: u64,
    level: u64,
) -> SmcResult
    ensures answer { result
        ≡ (outcome (command.rtt_fold rd ipa level granules.old) granules.old).0 }
    ensures machine { granules.new
        ≡ (outcome (command.rtt_fold rd ipa level granules.old) granules.old).1 }
{
    match find_foldable(granules, rd, ipa, level) {
        Ok(foldable) => {
            let first = first_entry(granules.page(foldable.table));
            write(granules, &foldable.found, ipa, first);
            blank(granules, foldable.table, RmmGranuleState::Delegated);
            SmcResult {
                x1: foldable.parent.descriptor(),
                ..SmcResult::only(Word::Success)
            }
        }
        Err(refusal) => refusal.into_answer(),
    }
}
