//! The commands RMI_DATA_CREATE_UNKNOWN and RMI_DATA_DESTROY.
ghost use Rattle.std.specs.Prelude.{◌≡◌, ◌^◌, ◌<◌, [], is_some, IfOk, Some};
ghost use Rattle.rmm_model.specs.Check.{outcome, first_failing, refusal_in, error_rtt_top as with_top};
ghost use Rattle.rmm_model.specs.Machine.{granule_count};
ghost use Rattle.rmm_model.specs.Walk.{memory_below, top as next_live};
ghost use Rattle.rmm_model.specs.Command.Operand as operands;
ghost use Rattle.rmm_model.specs.Command.DataCreateUnknown as creating;
ghost use Rattle.rmm_model.specs.Command.DataDestroy as destroying;
ghost use Rattle.rmm.specs.CheckedOperands.{IsPageVacancy, IsMapped};

use crate::granule::blank;
use crate::operand::{check_entry, check_page, delegated, error_rtt_top, realm_of};
use crate::walking::write;
use granule_addr::Gran;
use page_arena::PageStore;
use rmi_abi::{SmcResult, Word};
use rmm_granules::{Granules, OperandConditions, entry_at, memory_below, top, walk};
use rmm_model::{
    Condition, FailedCondition, RmmGranule, RmmGranuleState, RmmRipas, RmmRttEntry, RttWalk,
};

// A vacant entry for a new page, with the RD and the page's granule.
#[derive(Clone, Copy)]
pub struct PageVacancy {
    pub rd: Gran,
    pub data: Gran,
    pub found: RttWalk,
    pub entry: RmmRttEntry,
}

// A page that is mapped, and its entry.
#[derive(Clone, Copy)]
pub struct Mapped {
    pub data: Gran,
    pub found: RttWalk,
    pub entry: RmmRttEntry,
}

// ---- making

// Returns the vacant entry for the page that RMI_DATA_CREATE_UNKNOWN maps, or the failed condition.
#[tactic(auto, unfolding(rmm_model::specs::Command::DataCreateUnknown::data_create_unknown))]
fn find_vacancy<S: PageStore>(
    granules: &Granules<S>,
    rd: u64,
    page: u64,
    ipa: u64,
) -> Result<PageVacancy, FailedCondition>
    ensures refusal { refusal_in result
        ≡ first_failing (creating.data_create_unknown rd page ipa granules.now).checks }
    ensures vacancy { IfOk result (IsPageVacancy granules.now rd page ipa) }
{
    let data = delegated(granules, page, OperandConditions::DATA)?;
    let owner = realm_of(granules, rd)?;
    check_page(&owner.realm, ipa)?;
    let found = walk(granules, &owner.realm, ipa, 3);
    let entry = entry_at(granules, &found, ipa);
    check_entry(&found, 3, entry.is_unassigned())?;
    Ok(PageVacancy {
        rd: owner.granule,
        data,
        found,
        entry,
    })
}

// Performs RMI_DATA_CREATE_UNKNOWN.
#[tactic(auto, unfolding(rmm_model::specs::Command::DataCreateUnknown::data_create_unknown))]
pub fn data_create_unknown<S: PageStore>(
    granules: &mut Granules<S>,
    rd: u64,
    page: u64,
    ipa: u64,
) -> SmcResult
    ensures answer { result
        ≡ (outcome (creating.data_create_unknown rd page ipa granules.old) granules.old).0 }
    ensures machine { granules.new
        ≡ (outcome (creating.data_create_unknown rd page ipa granules.old) granules.old).1 }
{
    match find_vacancy(granules, rd, page, ipa) {
        Ok(vacancy) => {
            let kept = RmmGranule {
                state: RmmGranuleState::Data,
                owner: Some(vacancy.rd),
            };
            granules.set(vacancy.data, kept);
            granules.fill(vacancy.data, 0);
            let entry = RmmRttEntry::Assigned(vacancy.entry.ripas(), page);
            write(granules, &vacancy.found, ipa, entry);
            SmcResult::only(Word::Success)
        }
        Err(refusal) => refusal.into_answer(),
    }
}

// ---- removing

// The RIPAS of an entry after its page is removed: EMPTY if it was EMPTY, and DESTROYED otherwise.
fn left_ripas(ripas: RmmRipas) -> RmmRipas
    ensures { result ≡ destroying.left_ripas ripas }
{
    match ripas {
        RmmRipas::Empty => RmmRipas::Empty,
        _ => RmmRipas::Destroyed,
    }
}

// Checks that a walk reached level 3, and that the entry leads to a page.
fn check_mapped<S: PageStore>(
    granules: &Granules<S>,
    found: &RttWalk,
    entry: RmmRttEntry,
    ipa: u64,
) -> Result<Gran, FailedCondition>
    requires inside { found.now.table < granule_count granules.now }
    requires low { ipa < 2 ^ 48 }
    ensures refusal { refusal_in result
        ≡ first_failing (operands.entry_checks [] found.now 3 (is_some (memory_below granules.now entry))
        (with_top (next_live granules.now found.now ipa))) }
    ensures page { IfOk result (λ page. memory_below granules.now entry ≡ Some page) }
    ensures below { IfOk result (λ page. page < granule_count granules.now) }
{
    if found.level != 3 {
        let next = top(granules, found, ipa);
        return Err(error_rtt_top(Condition::RttWalk, found.level, next));
    }
    match memory_below(granules, entry) {
        Some(page) => Ok(page),
        None => {
            let next = top(granules, found, ipa);
            Err(error_rtt_top(Condition::RtteState, found.level, next))
        }
    }
}

// Returns the page that RMI_DATA_DESTROY removes, or the failed condition.
#[tactic(auto, unfolding(rmm_model::specs::Command::DataDestroy::data_destroy))]
fn find_mapped<S: PageStore>(
    granules: &Granules<S>,
    rd: u64,
    ipa: u64,
) -> Result<Mapped, FailedCondition>
    ensures refusal { refusal_in result
        ≡ first_failing (destroying.data_destroy rd ipa granules.now).checks }
    ensures mapped { IfOk result (IsMapped granules.now rd ipa) }
{
    let owner = realm_of(granules, rd)?;
    check_page(&owner.realm, ipa)?;
    let found = walk(granules, &owner.realm, ipa, 3);
    let entry = entry_at(granules, &found, ipa);
    let data = check_mapped(granules, &found, entry, ipa)?;
    Ok(Mapped { data, found, entry })
}

// Performs RMI_DATA_DESTROY.
#[tactic(auto, unfolding(rmm_model::specs::Command::DataDestroy::data_destroy))]
pub fn data_destroy<S: PageStore>(granules: &mut Granules<S>, rd: u64, ipa: u64) -> SmcResult
    ensures answer { result
        ≡ (outcome (destroying.data_destroy rd ipa granules.old) granules.old).0 }
    ensures machine { granules.new
        ≡ (outcome (destroying.data_destroy rd ipa granules.old) granules.old).1 }
{
    match find_mapped(granules, rd, ipa) {
        Ok(mapped) => {
            let left = RmmRttEntry::Unassigned(left_ripas(mapped.entry.ripas()));
            write(granules, &mapped.found, ipa, left);
            blank(granules, mapped.data, RmmGranuleState::Delegated);
            SmcResult {
                x1: mapped.entry.descriptor(),
                x2: top(granules, &mapped.found, ipa),
                ..SmcResult::only(Word::Success)
            }
        }
        Err(refusal) => refusal.into_answer(),
    }
}
